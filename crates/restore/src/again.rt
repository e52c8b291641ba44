// Reading a listing line by line into a new console.
ghost use Rattle.std.specs.Prelude.{◌≡◌, ◌≤◌};
ghost use Rattle.model.specs.Refusals.{IsTooShort};
ghost use Rattle.model.specs.declared.answers.Recorded.{Recorded};
ghost use Rattle.state.specs.Memory.{SameMemory, lent_by, tables_of};
ghost use Rattle.register.specs.Promise.{Tells};
ghost use Rattle.lines.specs.Wholes.{LongWholes};
ghost use Rattle.restore.specs.Restored.{Listed, Takes, ReadsOn, Restores};
ghost use Rattle.forms.specs.declared.prefix.Prefix.{Prefix};
ghost use Rattle.grammar.specs.Lines.{LongRest};

use forms::{LongRest, Prefix};
use grammar::{Line, MAX_NUMBER, put_line};
use kinds::Kind;
use lines::{Console, LongMemory};
use model::{MAX_BLOCKS, MAX_DOMAINS, MAX_PROPERTIES, MAX_RULES};
use rebuild::listings_rebuild;
use replies::MIN_ANSWER;
use thiserror::Error;

// Lines that a listing can have: the heading, and what there is.
const MAX_LINES: usize = MAX_DOMAINS + MAX_BLOCKS + MAX_RULES + MAX_PROPERTIES;

/// A line of the listing that the new console refuses, or one too many.
#[derive(Clone, Copy, Debug, PartialEq, Eq, Error)]
#[error("line {line} of the listing is not taken")]
pub struct Unrestored {
    pub line: usize,
}

// What comes of a line of the listing.
#[derive(Clone, Copy)]
pub(crate) enum Step {
    Taken,
    Ended,
    Refused,
}

// Asks for a line of the listing; the reply's length.
fn list(
    console: &mut Console,
    memory: &mut LongMemory<'_>,
    number: usize,
    buf: &mut [u8; MIN_ANSWER],
) -> usize
    requires { number ≤ MAX_NUMBER }
    ensures listed { Listed console.old (tables_of memory.old) (lent_by memory.old) number result buf.new }
    ensures kept { (console.new ≡ console.old) × (tables_of memory.new ≡ tables_of memory.old) }
    ensures within { result ≤ MIN_ANSWER }
    ensures same { SameMemory memory.old memory.new }
{
    let mut request = [0; MIN_ANSWER];
    match put_line(&mut request, 0, &Line::List { number }) {
        Ok(end) => console.answer(&request[..end], memory, buf),
        Err(_) => 0,
    }
}

// Whether the console takes the line.
fn takes(console: &mut Console, memory: &mut LongMemory<'_>, line: &[u8]) -> bool
    ensures takes { Takes console.old (tables_of memory.old) (lent_by memory.old) line.now result console.new (tables_of memory.new) }
    ensures same { SameMemory memory.old memory.new }
{
    let mut reply = [0; MIN_ANSWER];
    console.answer(line, memory, &mut reply);
    reply.starts_with(b"ok")
}

// Reads a line of the first console's listing into the other.
fn read_on(
    first: &mut Console,
    told: &mut LongMemory<'_>,
    console: &mut Console,
    memory: &mut LongMemory<'_>,
    line: usize,
) -> Step
    requires { line ≤ MAX_NUMBER }
    ensures kept { (first.new ≡ first.old) × (tables_of told.new ≡ tables_of told.old) }
    ensures reads { ReadsOn first.old (tables_of told.old) (lent_by told.old) (lent_by memory.old) line console.old (tables_of memory.old) result console.new (tables_of memory.new) }
    ensures same_told { SameMemory told.old told.new }
    ensures same { SameMemory memory.old memory.new }
{
    let mut reply = [0; MIN_ANSWER];
    let length = list(first, told, line, &mut reply);
    if reply.starts_with(b"none") {
        return Step::Ended;
    }
    if takes(console, memory, &reply[..length.saturating_sub(1)]) {
        Step::Taken
    } else {
        Step::Refused
    }
}

/// Reads the first console's listing, line by line, into a new one, which is lent this memory.
pub fn restore(
    first: &mut Console,
    told: &mut LongMemory<'_>,
    memory: &mut LongMemory<'_>,
) -> Result<Console, Unrestored>
    ensures restores { Restores first.old (tables_of told.old) (lent_by told.old) (lent_by memory.old) result first.new (tables_of told.new) (tables_of memory.new) }
    ensures same_told { SameMemory told.old told.new }
    ensures same { SameMemory memory.old memory.new }
{
    // No code, but a theorem: no line of a listing is refused where it comes.
    listings_rebuild::<Prefix, LongRest>();
    let mut console = Console::new();
    for line in 0..=MAX_LINES {
        match read_on(first, told, &mut console, memory, line) {
            Step::Taken => {}
            Step::Ended => return Ok(console),
            Step::Refused => return Err(Unrestored { line }),
        }
    }
    Err(Unrestored { line: MAX_LINES })
}
