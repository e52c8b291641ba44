// A register built again from its listing.
#![tactic(auto)]

mod again;

pub use again::{Unrestored, restore};
