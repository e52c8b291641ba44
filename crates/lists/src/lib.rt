// How long each firewall's list of rules is, and where it lies in the table of rules.
#![tactic(auto)]

mod laws;
mod refusal;
mod table;

pub use laws::layouts_hold;
pub use refusal::ListRefusal;
pub use table::ListTable;
