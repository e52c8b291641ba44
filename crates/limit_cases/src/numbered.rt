// Kinds whose regions of one value and whose values have numbers.
use forms::{Prefix, Range};
use kinds::{Kind, Pair, Set};
use std::alloc::AllocError;

pub trait Numbered: Kind {
    // The region of this number alone.
    fn single(number: u32) -> Option<Self>;

    // The numbers of a value, behind those that are there.
    fn note(value: Self::Value, log: &mut Vec<u32>) -> Result<(), AllocError>;
}

impl Numbered for Prefix {
    fn single(number: u32) -> Option<Prefix> {
        Prefix::new(number, 32)
    }

    fn note(value: u32, log: &mut Vec<u32>) -> Result<(), AllocError> {
        Ok(log.push(value)?)
    }
}

impl Numbered for Range {
    fn single(number: u32) -> Option<Range> {
        Range::new(number, number)
    }

    fn note(value: u32, log: &mut Vec<u32>) -> Result<(), AllocError> {
        Ok(log.push(value)?)
    }
}

impl Numbered for Set {
    fn single(number: u32) -> Option<Set> {
        Set::single(u8::try_from(number).ok()?)
    }

    fn note(value: u8, log: &mut Vec<u32>) -> Result<(), AllocError> {
        Ok(log.push(u32::from(value))?)
    }
}

impl<L: Numbered, R: Numbered> Numbered for Pair<L, R> {
    fn single(number: u32) -> Option<Pair<L, R>> {
        Some(Pair {
            left: L::single(number)?,
            right: R::single(number)?,
        })
    }

    fn note(value: Pair<L::Value, R::Value>, log: &mut Vec<u32>) -> Result<(), AllocError> {
        L::note(value.left, log)?;
        R::note(value.right, log)
    }
}
