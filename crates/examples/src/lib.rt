// Examples: the statement of the register at work in small worlds, and a field kind made for show.
#![tactic(auto)]

mod flag;
mod statement;

pub use flag::{Flag, search_flags};
pub use statement::{examples_hold, samples_hold};
