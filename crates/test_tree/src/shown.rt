// How the values of a kind are printed: parts with commas between them.
use forms::{Prefix, Range};
use kinds::{Kind, Pair, Set};
use std::alloc::{AllocError, Global};
use std::net::Ipv4Addr;

pub trait Shown: Kind {
    fn show(alloc: Global, value: Self::Value) -> Result<String, AllocError>;
}

impl Shown for Prefix {
    fn show(alloc: Global, value: u32) -> Result<String, AllocError> {
        let address = Ipv4Addr::from(value);
        format!(in alloc; "{address}")
    }
}

impl Shown for Range {
    fn show(alloc: Global, value: u32) -> Result<String, AllocError> {
        format!(in alloc; "{value}")
    }
}

impl Shown for Set {
    fn show(alloc: Global, value: u8) -> Result<String, AllocError> {
        format!(in alloc; "{value}")
    }
}

impl<L: Shown, R: Shown> Shown for Pair<L, R> {
    fn show(alloc: Global, value: Pair<L::Value, R::Value>) -> Result<String, AllocError> {
        let left = L::show(alloc, value.left)?;
        let right = R::show(alloc, value.right)?;
        format!(in alloc; "{left},{right}")
    }
}
