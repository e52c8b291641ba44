// The console as a library: a line's bytes in, the reply's bytes out.
#![tactic(auto)]

mod begin;
mod console;
mod incoming;
mod intake;
mod serve;

pub use console::Console;
pub use intake::Intake;
pub use serve::LongMemory;
