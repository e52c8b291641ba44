// Two things side by side: regions, values and rows alike.
pub mod field_kind;

/// Two things side by side. As a region it holds the pairs whose left and right its left and right hold.
#[derive(Clone, Copy)]
pub struct Pair<L, R> {
    pub left: L,
    pub right: R,
}
