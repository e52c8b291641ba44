// The calls that build a register's tree again, read from its state and its tables.
#![tactic(auto)]

mod domains;
mod line;
mod rows;
mod rules;

pub use line::listed;

#[cfg(test)]
mod tests;
