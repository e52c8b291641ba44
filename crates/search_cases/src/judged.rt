// Kinds that can be judged: their rows are drawn at random, and tested by their numbers alone.
use chance::Random;
use kinds::Kind;
use std::alloc::{AllocError, Global};

pub mod kinds_judged;

// What a row is drawn for. A target's row has a region, and all its values are small. An entry's
// row may also be wide, or have no region.
#[derive(Clone, Copy)]
pub enum Place {
    Target,
    Entry,
}

// A part of the small values of one field, by their numbers.
#[derive(Clone, Copy)]
pub enum Part {
    All,
    // One of them.
    One(u32),
    // The lower half, or the upper.
    Half { upper: bool },
    // Those from the first up to one of them, and more where no region has just these.
    UpTo(u32),
}

pub trait Judged: Kind {
    fn draw(random: &mut Random, place: Place) -> Self::Row;

    // How many fields there are.
    fn fields() -> usize;

    // The row of these parts, one a field; all the small values of a field for which there is none.
    fn of_parts(parts: &[Part]) -> Self::Row;

    // Whether a row holds a value, told from the numbers of the row.
    fn row_has_number(row: Self::Row, value: Self::Value) -> bool;

    // The small values.
    fn small_values(heap: Global) -> Result<Vec<Self::Value>, AllocError>;
}
