// What the register holds, the memory lent to its calls, and the checks that several calls share.
#![tactic(auto)]

mod memory;
mod refusals;
mod state;

pub use memory::Memory;
pub use refusals::{check_inside, check_number, check_room};
pub use state::State;
