// How the fields of a line of text spell numbers, addresses, prefixes, ranges and sets: read and written.
#![tactic(auto)]

mod decision;
mod fault;
mod form;
mod number;
mod read;
mod scanning;
mod sets;
mod values;
mod write;

pub use decision::{NoDecision, put_decision, read_decision};
pub use fault::{Fault, NumberFault, Problem, RegionFault};
pub use form::{ADDRESS, Mark, NUMBER, Numbers, PREFIX, RANGE};
pub use read::{read_address, read_number, read_prefix, read_range};
pub use scanning::scan;
pub use sets::{put_set, read_set};
pub use write::{put_address, put_bytes, put_number, put_prefix, put_range};

#[cfg(test)]
mod tests;
