// How the tree grows, and which domain has which addresses: attach, branch, give and take.
#![tactic(auto)]

mod blocks;
mod grow;

pub use blocks::{give, take};
pub use grow::{attach, branch};
