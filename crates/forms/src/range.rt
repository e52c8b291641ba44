// Ranges of 32-bit numbers.
ghost use Rattle.std.specs.Prelude.{◌≤◌};

pub mod field_kind;

/// `lo`, `hi`, and the numbers between them.
#[derive(Clone, Copy)]
pub struct Range {
    lo: u32,
    hi: u32,
    ghost ordered: { lo ≤ hi },
}

/// A range as it lies in a table.
#[derive(Clone, Copy)]
pub struct RangeRow {
    pub lo: u32,
    pub hi: u32,
}
