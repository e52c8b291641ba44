// What the tables say of the blocks, of properties and of packets on their way.
#![tactic(auto)]

mod edited;
mod misplaced;
mod network;
mod overlap;
mod passage;
mod route;

pub use edited::{Broken, first_broken};
pub use misplaced::{Astray, first_misplaced, source_astray};
pub use network::Network;
pub use overlap::first_overlap;
pub use passage::Stop;
pub use route::Break;
