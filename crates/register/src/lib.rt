// The register: eleven calls over lent memory, each right in every tree that its calls so far have made.
#![tactic(auto)]

mod answers;
mod apply;
mod calls;
mod listed;
mod register;

pub use register::Register;
pub use state::Memory;
