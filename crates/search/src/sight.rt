// An entry of a list as a question sees it.

/// An entry: its region is good or bad, or it is passed over.
#[derive(Clone, Copy)]
pub enum Sight<K> {
    /// The values that it is the first to hold are wished.
    Good(K),
    /// The values that it is the first to hold are not wished.
    Bad(K),
    /// It holds nothing.
    Passed,
}
