// The console.
use forms::{LongRest, Prefix};
use register::Register;

/// A register of the Long form that is told what to do by lines of text.
#[derive(Drop)]
pub struct Console {
    pub(crate) register: Register<Prefix, LongRest>,
}
