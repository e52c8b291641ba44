// Averages over questions, and the most of each count.
use crate::cost::Cost;
use std::fmt;

// The sum and the most of a count.
#[derive(Clone, Copy, Default)]
pub struct Spread {
    sum: u64,
    most: u64,
}

// A spread over so many, as it is printed: the average, in tenths, and the most.
#[derive(Clone, Copy)]
struct Over {
    spread: Spread,
    count: u64,
}

impl Spread {
    pub(crate) fn add(&mut self, number: u64) {
        self.sum = self.sum.saturating_add(number);
        self.most = self.most.max(number);
    }
}

impl fmt::Display for Over {
    fn fmt<W: fmt::Write>(&self, f: &mut fmt::Formatter<W>) -> fmt::Result {
        let tenths = self.spread.sum.saturating_mul(10) / self.count.max(1);
        let whole = tenths / 10;
        let tenth = tenths % 10;
        let most = self.spread.most;
        write!(f, "{whole}.{tenth} ({most})")
    }
}

/// What some questions cost.
#[derive(Clone, Copy, Default)]
pub struct Average {
    questions: u64,
    found: u64,
    looks: Spread,
    tests: Spread,
    separations: Spread,
    splits: Spread,
    frames: u64,
    micros: Option<Spread>,
}

impl Average {
    pub(crate) fn add(&mut self, cost: Cost, micros: Option<u64>) {
        self.questions = self.questions.saturating_add(1);
        self.found = self.found.saturating_add(u64::from(cost.found));
        self.looks.add(cost.looks);
        self.tests.add(cost.tests);
        self.separations.add(cost.separations);
        self.splits.add(cost.splits);
        self.frames = self.frames.max(cost.frames);
        if let Some(spent) = micros {
            let mut spread = self.micros.unwrap_or_default();
            spread.add(spent);
            self.micros = Some(spread);
        }
    }

    fn over(&self, spread: Spread) -> Over {
        Over {
            spread,
            count: self.questions,
        }
    }
}

impl fmt::Display for Average {
    fn fmt<W: fmt::Write>(&self, f: &mut fmt::Formatter<W>) -> fmt::Result {
        let questions = self.questions;
        let found = self.found;
        let looks = self.over(self.looks);
        let tests = self.over(self.tests);
        let separations = self.over(self.separations);
        let splits = self.over(self.splits);
        let frames = self.frames;
        write!(
            f,
            "{found} of {questions} found; looks {looks}, entry tests {tests}, separations {separations}, splits {splits}, frames {frames}"
        )?;
        match self.micros {
            None => Ok(()),
            Some(spread) => {
                let micros = self.over(spread);
                write!(f, "; microseconds {micros}")
            }
        }
    }
}
