// A register made and called step by step, with the record of what it answered.
#![tactic(auto)]

mod run;
mod step;
mod stores;

pub use run::replay;
pub use step::Step;
pub use stores::{Stores, least_lengths, stores_with};
