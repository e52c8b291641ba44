// Edits of one firewall's list of rules: place, alter and lift.
#![tactic(auto)]

mod rules;

pub use rules::{alter, lift, place};
