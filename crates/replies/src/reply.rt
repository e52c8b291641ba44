// What the console replies to a line.
use grammar::{Line, LineFault, LongRestValue};
use model::Answer;

/// An answer of a register of the Long form.
pub type LongAnswer = Answer<u32, LongRestValue>;

/// What the console replies to a line.
#[derive(Clone, Copy)]
pub enum Reply {
    /// The register's answer to a call.
    Answer(LongAnswer),
    /// A line of the listing.
    Line(Line),
    /// The listing has no such line.
    End,
    /// The line says nothing.
    Fault(LineFault),
}
