// The calls that build a tree again: which they are, and that they do.
#![tactic(auto)]

mod laws;

pub use laws::listings_rebuild;
