// Properties that are offered, and what is asked: stand, withdraw, ask and send.
#![tactic(auto)]

mod asks;
mod offers;
mod properties;

pub use asks::{ask, send};
pub use properties::{stand, withdraw};
