// What can be wrong with a field, by the layer that finds it.
ghost use Rattle.std.specs.Prelude.{◌≡◌, ◌+◌, ◌^◌, ◌<◌};
ghost use Rattle.spelling.specs.declared.fault.Problem.TheVariants.{Number};
ghost use Rattle.spelling.specs.Faults.{digits_before, number_fault, placed};

use thiserror::Error;

/// What a number finds. The first two are of its form, the last is of its value.
#[derive(Clone, Copy, Debug, PartialEq, Eq, Error)]
pub enum NumberFault {
    /// There is no digit where a number should begin.
    #[error("no digit")]
    NoDigit,
    /// There is an eleventh digit.
    #[error("more than 10 digits")]
    TooManyDigits,
    /// The number is above its bound.
    #[error("number above its bound")]
    TooLarge,
}

/// What a region finds beside its numbers. The first is of its form, the others are of its value.
#[derive(Clone, Copy, Debug, PartialEq, Eq, Error)]
pub enum RegionFault {
    /// No text of its kind begins so.
    #[error("no text of its kind begins so")]
    Unfit,
    /// A bit is set past the prefix's length.
    #[error("bit set past the length of the prefix")]
    HostBits,
    /// The range's first number is above its second.
    #[error("first number of the range above its second")]
    LoAboveHi,
    /// The mask is 0.
    #[error("set of mask 0")]
    Empty,
}

/// What is wrong, and which layer found it.
#[derive(Clone, Copy, Debug, PartialEq, Eq, Error)]
#[error(transparent)]
pub enum Problem {
    /// A number found it.
    Number(NumberFault),
    /// A region found it.
    Region(RegionFault),
}

/// What is wrong, and at which byte of the field, counted from 0.
#[derive(Clone, Copy, Debug, PartialEq, Eq, Error)]
#[error("{problem}, at byte {byte}")]
pub struct Fault {
    pub problem: Problem,
    pub byte: usize,
}

impl NumberFault {
    // The fault of a number that starts at this byte. An eleventh digit stands ten bytes behind it.
    pub(crate) fn at(self, start: usize) -> Fault
        requires { start + digits_before self < 2 ^ 64 }
        ensures { result ≡ number_fault self start }
    {
        let byte = match self {
            NumberFault::TooManyDigits => start + 10,
            NumberFault::NoDigit | NumberFault::TooLarge => start,
        };
        Fault {
            problem: Problem::Number(self),
            byte,
        }
    }
}

impl RegionFault {
    pub(crate) fn at(self, byte: usize) -> Fault
        ensures { result ≡ record { problem = Problem.Region self; byte = byte } }
    {
        Fault {
            problem: Problem::Region(self),
            byte,
        }
    }
}

impl From<NumberFault> for Problem {
    ghost from_gives = { λ fault problem. problem ≡ Number fault };

    fn from(fault: NumberFault) -> Problem {
        Problem::Number(fault)
    }
}

// What a layer finds gets its place from the layer above, in front of `?`.
pub(crate) trait At {
    type Placed;

    fn at(self, byte: usize) -> Self::Placed;
}

impl<T> At for Result<T, Problem> {
    type Placed = Result<T, Fault>;

    fn at(self, byte: usize) -> Result<T, Fault>
        ensures { result ≡ placed self byte }
    {
        match self {
            Ok(value) => Ok(value),
            Err(problem) => Err(Fault { problem, byte }),
        }
    }
}
