// The numbers that a text spells in a form.
ghost use Rattle.std.specs.Prelude.{◌≡◌, ◌≤◌, Some, length, slice_get, Decides};
ghost use Rattle.spelling.specs.Numbers.{LeadsAt};
ghost use Rattle.spelling.specs.Forms.{mark_byte, Only, Scanned};

use crate::fault::{Fault, RegionFault};
use crate::form::{Mark, Numbers};
use crate::number::{Leading, leading_number};

// The number that stands at a byte of a text.
fn number_at(text: &[u8], at: usize) -> Result<Leading, Fault>
    requires { at ≤ length text.now }
    ensures { LeadsAt text.now at result }
{
    leading_number(&text[at..]).map_err(|fault| fault.at(at))
}

// Whether the mark stands at a byte of a text.
fn stands_at(mark: Mark, text: &[u8], at: usize) -> bool
    ensures { Decides result (slice_get text.now at ≡ Some (mark_byte mark)) }
{
    text.get(at).copied() == Some(mark.byte())
}

/// The numbers that the text spells in this form, or its first byte that cannot stand there.
pub fn scan<const N: usize>(marks: &[Mark; N], text: &[u8]) -> Result<Numbers<N>, Fault>
    ensures { Only (Scanned marks.now text.now) result }
{
    let number = number_at(text, 0)?;
    let first = number.value;
    let mut end = number.length;
    let mut later = [0; N];
    for (place, mark) in marks.iter().enumerate() {
        if !stands_at(*mark, text, end) {
            return Err(RegionFault::Unfit.at(end));
        }
        let number = number_at(text, end + 1)?;
        later[place] = number.value;
        end += 1 + number.length;
    }
    if end < text.len() {
        return Err(RegionFault::Unfit.at(end));
    }
    Ok(Numbers { first, later })
}
