// The lines of the console: what their bytes mean, read and written.
#![tactic(auto)]

mod build;
mod clean;
mod fault;
mod field;
mod limits;
mod line;
mod part;
mod place;
mod read;
mod value;
mod values;
mod verb;
mod write;

pub use fault::{Cause, LineFault, LineProblem};
pub use limits::{MAX_FIELDS, MAX_LINE, MAX_NUMBER, MAX_PROTOCOL};
pub use line::{Line, LongCall, LongRestValue, Verb};
pub use read::read_line;
pub use value::{Form, Value};
pub use values::Values;
pub use write::{put_line, put_phrase};

#[cfg(test)]
mod tests;
#[cfg(test)]
mod write_tests;
