// The replies of the console, as bytes.
#![tactic(auto)]

mod reply;
mod write;

pub use reply::{LongAnswer, Reply};
pub use write::{MIN_ANSWER, put_reply};
