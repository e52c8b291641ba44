// What was called and answered, counted.
use crate::draws::{NAMES, Name};
use crate::judge::{Fixed, PlainTree};
use crate::sizes::{LIMITS, Sizes};
use std::io;

#[derive(Clone, Copy, Default)]
struct Calls {
    made: u32,
    done: u32,
}

#[derive(Clone, Copy)]
pub struct Tally {
    calls: [Calls; NAMES.len()],
    refused: [u32; 12],
    kept: u32,
    broken: u32,
    passed: u32,
    stopped: u32,
    largest: Sizes,
}

// Counts one more.
fn count(number: &mut u32) {
    *number = number.saturating_add(1);
}

impl Tally {
    pub(crate) fn new() -> Tally {
        Tally {
            calls: [Calls::default(); NAMES.len()],
            refused: [0; 12],
            kept: 0,
            broken: 0,
            passed: 0,
            stopped: 0,
            largest: Sizes::default(),
        }
    }

    // Takes down a call, its answer, and the tree that it left.
    pub(crate) fn add(&mut self, name: Name, answered: Fixed, tree: &PlainTree) {
        self.largest = self.largest.max(Sizes::of(tree));
        let refusal = answered.refusal();
        if let Some(calls) = self.calls.get_mut(name as usize) {
            count(&mut calls.made);
            if refusal.is_none() {
                count(&mut calls.done);
            }
        }
        if let Some(number) = refusal
            && let Some(refused) = self.refused.get_mut(usize::from(number).saturating_sub(1))
        {
            count(refused);
        }
        match answered {
            Fixed::Kept => count(&mut self.kept),
            Fixed::Broken { .. } => count(&mut self.broken),
            Fixed::Passed => count(&mut self.passed),
            Fixed::Stopped { .. } => count(&mut self.stopped),
            _ => {}
        }
    }

    // The smallest refusal that was not seen.
    pub(crate) fn unseen(&self) -> Option<usize> {
        let place = self.refused.iter().position(|count| *count == 0)?;
        Some(place.saturating_add(1))
    }

    // Whether each limit was reached.
    pub(crate) fn reached_limits(&self) -> bool {
        self.largest == LIMITS
    }

    pub(crate) fn print(&self, rt: &impl Eprint, form: &str) -> io::Result<()> {
        eprint!(rt; "{form}: done of made:")?;
        for (name, calls) in NAMES.iter().zip(self.calls.iter()) {
            let Calls { made, done } = *calls;
            eprint!(rt; " {name:?} {done} of {made}")?;
        }
        eprint!(rt; "\n{form}: refused:")?;
        for (place, count) in self.refused.iter().enumerate() {
            let number = place.saturating_add(1);
            eprint!(rt; " {number}: {count}")?;
        }
        let Tally {
            kept,
            broken,
            passed,
            stopped,
            ..
        } = self;
        eprintln!(rt;
            "\n{form}: kept {kept}, broken {broken}, passed {passed}, stopped {stopped}"
        )?;
        let largest = self.largest;
        eprintln!(rt; "{form}: at most {largest}")
    }
}
