// What one question costs, counted, and its answer tested.
ghost use Rattle.std.specs.Prelude.{◌≤◌, length};

use crate::counted::CountedQuestion;
use crate::counting::{Counting, CountingRow};
use crate::counts::Counts;
use crate::draft::Item;
use crate::packets::Packets;
use anyhow::{Context, ensure};
use kinds::Kind;
use search::{Entry, Frame, Viewed, Wish, Wished, explore, outcome_of, search};
use std::alloc::{AllocError, Global};
use std::rt::Clock;
use std::time::Instant;

pub type Row = <Packets as Kind>::Row;

pub type Value = <Packets as Kind>::Value;

/// A question asked of a list.
#[derive(Drop)]
pub struct Case {
    pub heap: Global,
    pub list: Vec<Entry<Row>>,
    pub target: Packets,
    pub wish: Wish,
}

/// What a question cost.
#[derive(Clone, Copy, Default)]
pub struct Cost {
    pub found: bool,
    pub looks: u64,
    pub tests: u64,
    pub separations: u64,
    pub splits: u64,
    // Frames that were written to.
    pub frames: u64,
}

// The entries as a list is made of them.
pub(crate) fn entries(heap: Global, items: &[Item]) -> Result<Vec<Entry<Row>>, AllocError> {
    items
        .iter()
        .map(|item| Entry {
            row: item.packets.row(),
            outcome: item.outcome,
        })
        .collect(heap)
}

// A row that no region has.
fn no_row(row: Row) -> Row {
    let mut row = row;
    row.left.mask = 0;
    row
}

// The list, to be counted here.
fn counting_list<'a>(
    heap: Global,
    list: &[Entry<Row>],
    counts: &'a Counts,
) -> Result<Vec<Entry<CountingRow<'a, Row>>>, AllocError> {
    let mut counting = Vec::new(heap);
    for entry in list {
        counting.push(Entry {
            row: CountingRow {
                row: entry.row,
                counts,
            },
            outcome: entry.outcome,
        })?;
    }
    Ok(counting)
}

// Looks for a value of the target with an outcome as wished, in as many frames as there are entries.
fn explore_counted<K: Kind>(
    list: &[Entry<K::Row>],
    target: K,
    wish: Wish,
    frames: &mut [Frame<K::Row>],
    counts: &Counts,
) -> Option<K::Value>
    requires { length list.now ≤ length frames.old }
{
    let view = Wished::<K> { list, wish };
    let viewed = Viewed {
        view: &view,
        target,
    };
    let question = CountedQuestion {
        question: &viewed,
        counts,
    };
    explore(&question, target, frames)
}

// What came of a search that was counted.
#[derive(Clone, Copy)]
struct Counted {
    answer: Option<Value>,
    frames: u64,
}

impl Case {
    // Whether this is a value of the target whose outcome is as wished.
    fn is_answer(&self, value: Value) -> bool {
        self.target.has(value) && self.wish.met_by(outcome_of::<Packets>(&self.list, value))
    }

    // Searches, counting what is asked here.
    fn search<'a>(&self, counts: &'a Counts) -> Result<Counted, AllocError> {
        let list = counting_list(self.heap, &self.list, counts)?;
        let target = Counting {
            region: self.target,
            counts,
        };
        let empty = CountingRow {
            row: no_row(self.target.row()),
            counts,
        };
        let mut frames = vec![in self.heap; Frame::filled(empty); list.len()]?;
        let answer = explore_counted(&list, target, self.wish, frames.as_mut_slice(), counts);
        let used = frames
            .iter()
            .filter(|frame| frame.region.row.left.mask != 0)
            .count();
        Ok(Counted {
            answer,
            frames: used as u64,
        })
    }

    // The cost, once the answer is found to be one.
    pub(crate) fn count(&self) -> anyhow::Result<Cost> {
        let counts = Counts::new();
        let Counted { answer, frames } = self.search(&counts)?;
        if let Some(value) = answer {
            ensure!(self.is_answer(value), "an answer is not as wished");
        }
        Ok(Cost {
            found: answer.is_some(),
            looks: counts.looks.get(),
            tests: counts.tests.get(),
            separations: counts.separations.get(),
            splits: counts.splits.get(),
            frames,
        })
    }

    // Asks without counting: whether there is such a value, and the microseconds that it took.
    pub(crate) fn time(&self, clock: &impl Clock) -> anyhow::Result<(bool, u64)> {
        let empty = Frame::filled(no_row(self.target.row()));
        let mut frames = vec![in self.heap; empty; self.list.len().saturating_add(1)]?;
        let start = Instant::now(clock)?;
        let answer = search(&self.list, self.target, self.wish, frames.as_mut_slice())
            .ok()
            .context("the frames are too few")?;
        let spent = start.elapsed(clock)?;
        let micros = u64::try_from(spent.as_micros()).unwrap_or(u64::MAX);
        Ok((answer.is_some(), micros))
    }
}
