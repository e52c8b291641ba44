// The tree of domains and firewalls as a table, and the routes that it has.
#![tactic(auto)]

mod path;
mod refusal;
mod table;

pub use path::Route;
pub use refusal::TreeRefusal;
pub use table::TreeTable;
