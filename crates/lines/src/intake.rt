// A line as it comes in, byte by byte.
use grammar::MAX_LINE;
use tables::FixedVec;

// One byte more than a line may have: no byte behind it changes what the line means.
pub(crate) const MAX_KEPT: usize = MAX_LINE + 1;

/// The front of a line; it takes no more memory however long the line is.
#[derive(Drop)]
pub struct Intake {
    pub(crate) front: FixedVec<u8, MAX_KEPT>,
}
