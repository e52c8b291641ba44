// Sets of small numbers.
ghost use Rattle.std.specs.Prelude.{◌^◌, ◌<◌};

pub mod field_kind;

/// A nonempty set of numbers from 0 to 31: bit i of the mask stands for i.
#[derive(Clone, Copy)]
pub struct Set {
    mask: u32,
    ghost some: { 0 < mask },
    ghost few: { mask < 2 ^ 32 },
}

/// A set as it lies in a table.
#[derive(Clone, Copy)]
pub struct SetRow {
    pub mask: u32,
}
