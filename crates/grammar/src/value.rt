// What the fields of a line say.
use forms::{Prefix, Range};
use kinds::Set;
use model::Decision;

/// The value of a field.
#[derive(Clone, Copy)]
pub enum Value {
    /// A number: of a domain, a firewall, a position and so on.
    Number(usize),
    /// `a` or `d`.
    Decision(Decision),
    /// Interfaces, as a mask of 8 hex digits.
    Set(Set),
    /// An address of four numbers.
    Address(u32),
    /// An address and a length.
    Prefix(Prefix),
    /// Two numbers, the first at most the second.
    Range(Range),
}

/// What a field has to be. The bounds are those of its numbers.
#[derive(Clone, Copy)]
pub enum Form {
    /// A number from `least` to `most`.
    Number { least: u32, most: u32 },
    /// `a` or `d`.
    Decision,
    /// A mask of 8 hex digits.
    Set,
    /// Four numbers, with dots.
    Address,
    /// An address and a length, with a slash.
    Prefix,
    /// Two numbers to `most`, with a dash.
    Range { most: u32 },
}
