// Why a line says nothing, and where.
ghost use Rattle.std.specs.Prelude.{◌≡◌};
ghost use Rattle.grammar.specs.Faults.{cause_number, cause_of};

use spelling::{NumberFault, Problem, RegionFault};
use thiserror::Error;

/// What the line itself finds, beside what its numbers and regions do.
#[derive(Clone, Copy, Debug, PartialEq, Eq, Error)]
pub enum LineProblem {
    /// It has too many bytes.
    #[error("line too long")]
    TooLong,
    /// It has a byte that is no printed character.
    #[error("byte that is no printed character")]
    WrongByte,
    /// The first field is no letter of the thirteen.
    #[error("none of the thirteen letters")]
    NoLetter,
    /// It has more or fewer fields than its letter asks for.
    #[error("wrong number of fields")]
    WrongCount,
    /// A field that should be a decision is none.
    #[error("neither `a` nor `d`")]
    NoDecision,
    /// A number is below its bound.
    #[error("number below its bound")]
    TooSmall,
}

/// What is wrong, by the layer that found it.
#[derive(Clone, Copy, Debug, PartialEq, Eq, Error)]
#[error(transparent)]
pub enum Cause {
    /// The line itself found it.
    Line(LineProblem),
    /// A region found it.
    Region(RegionFault),
    /// A number found it.
    Number(NumberFault),
}

/// What is wrong with a line, in which of its fields, counted from 1, and at which of its bytes,
/// counted from 0. Field 0 is the whole line.
#[derive(Clone, Copy, Debug, PartialEq, Eq, Error)]
#[error("{cause}, in field {field} at byte {byte}")]
pub struct LineFault {
    pub cause: Cause,
    pub field: usize,
    pub byte: usize,
}

impl LineProblem {
    // The problem in a field of the line, at a byte of the line.
    pub(crate) fn at(self, field: usize, byte: usize) -> LineFault
        ensures { result ≡ record { cause = Cause.Line self; field = field; byte = byte } }
    {
        LineFault {
            cause: Cause::Line(self),
            field,
            byte,
        }
    }
}

impl LineFault {
    /// The fault's number in the table, 13 to 16.
    pub fn number(&self) -> u8
        ensures { result ≡ cause_number self.now.cause }
    {
        match self.cause {
            Cause::Line(LineProblem::TooLong | LineProblem::WrongByte) => 13,
            Cause::Line(LineProblem::NoLetter | LineProblem::WrongCount) => 14,
            Cause::Line(LineProblem::NoDecision)
            | Cause::Region(RegionFault::Unfit)
            | Cause::Number(NumberFault::NoDigit | NumberFault::TooManyDigits) => 15,
            Cause::Line(LineProblem::TooSmall)
            | Cause::Region(RegionFault::HostBits | RegionFault::LoAboveHi | RegionFault::Empty)
            | Cause::Number(NumberFault::TooLarge) => 16,
        }
    }
}

impl From<Problem> for Cause {
    ghost from_gives = { λ problem cause. cause ≡ cause_of problem };

    fn from(problem: Problem) -> Cause {
        match problem {
            Problem::Number(fault) => Cause::Number(fault),
            Problem::Region(fault) => Cause::Region(fault),
        }
    }
}
