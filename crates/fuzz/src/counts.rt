// How many replies there were of each sort.
use crate::sorts::Sort;
use std::io;

#[derive(Clone, Copy)]
pub(crate) struct Counts {
    done: usize,
    listed: usize,
    refused: usize,
    faults: usize,
    restored: usize,
}

fn count(number: &mut usize) {
    *number = number.saturating_add(1);
}

impl Counts {
    pub(crate) fn new() -> Counts {
        Counts {
            done: 0,
            listed: 0,
            refused: 0,
            faults: 0,
            restored: 0,
        }
    }

    pub(crate) fn add(&mut self, sort: Sort) {
        match sort {
            Sort::Done => count(&mut self.done),
            Sort::Listed => count(&mut self.listed),
            Sort::Refused => count(&mut self.refused),
            Sort::Fault => count(&mut self.faults),
        }
    }

    pub(crate) fn add_restored(&mut self) {
        count(&mut self.restored);
    }

    pub(crate) fn print(&self, rt: &impl Eprint) -> io::Result<()> {
        let Counts {
            done,
            listed,
            refused,
            faults,
            restored,
        } = *self;
        eprintln!(rt; "done {done}, listed {listed}, refused {refused}, faults {faults}")?;
        eprintln!(rt; "restored {restored} times")
    }
}
