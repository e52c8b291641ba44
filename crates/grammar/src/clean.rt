// The bytes of a line: few enough, and all printed.
ghost use Rattle.std.specs.Prelude.{Decides, MatchResult};
ghost use Rattle.grammar.specs.Reading.{Printed, Clean};
ghost use Rattle.grammar.specs.Steps.{Unclean};

use crate::fault::{LineFault, LineProblem};
use crate::limits::{FIRST_PRINTED, LAST_PRINTED, MAX_LINE};

fn is_printed(byte: u8) -> bool
    ensures { Decides result (Printed byte) }
{
    (FIRST_PRINTED..=LAST_PRINTED).contains(&byte)
}

// The first byte that is not printed, or that is one too many.
pub(crate) fn check_bytes(line: &[u8]) -> Result<(), LineFault>
    ensures { MatchResult result (λ _. Clean line.now) (λ e. Unclean line.now e) }
{
    for (place, byte) in line.iter().enumerate() {
        if place == MAX_LINE {
            return Err(LineProblem::TooLong.at(0, place));
        }
        if !is_printed(*byte) {
            return Err(LineProblem::WrongByte.at(0, place));
        }
    }
    Ok(())
}
