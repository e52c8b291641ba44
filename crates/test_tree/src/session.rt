// A register with the memory that it is lent, and what it answered so far.
use crate::answers::answer;
use crate::plan::Plan;
use crate::shown::Shown;
use kinds::Kind;
use model::{Answer, Call, Lent};
use register::{Memory, Register};
use replay::{Step, Stores, least_lengths, replay, stores_with};
use std::fmt;

pub type CallOf<A, R> = Call<A, R, <A as Kind>::Value, <R as Kind>::Value>;

// How many calls were made, and how many of them were refused, kept and broken.
#[derive(Clone, Copy, Default)]
pub struct Tally {
    pub calls: u32,
    pub refused: u32,
    pub kept: u32,
    pub broken: u32,
}

impl fmt::Display for Tally {
    fn fmt<W: fmt::Write>(&self, f: &mut fmt::Formatter<W>) -> fmt::Result {
        let Tally {
            calls,
            refused,
            kept,
            broken,
        } = *self;
        write!(
            f,
            "{calls} calls, {refused} refused, {kept} kept, {broken} broken"
        )
    }
}

impl Tally {
    fn count<V, W>(&mut self, answer: &Answer<V, W>) {
        self.calls = self.calls.saturating_add(1);
        match answer {
            Answer::Refused { .. } => self.refused = self.refused.saturating_add(1),
            Answer::Kept => self.kept = self.kept.saturating_add(1),
            Answer::Broken { .. } => self.broken = self.broken.saturating_add(1),
            _ => (),
        }
    }
}

#[derive(Drop)]
pub struct Session<'a, A: Kind, R: Kind, P: Print + AllocGlobal> {
    rt: &'a P,
    register: Register<A, R>,
    stores: Stores<A::Row, R::Row>,
    steps: Vec<Step<A, R, A::Value, R::Value>>,
    pub tally: Tally,
}

impl<'a, A: Kind + Shown, R: Kind + Shown, P: Print + AllocGlobal> Session<'a, A, R, P> {
    pub(crate) fn new(rt: &'a P, plan: &Plan<A, R>, tally: Tally) -> anyhow::Result<Self> {
        let stores = stores_with(rt.alloc(), least_lengths(), plan.addresses, plan.rests)?;
        Ok(Session {
            rt,
            register: Register::new(plan.addresses, plan.rests),
            stores,
            steps: Vec::new(rt.alloc()),
            tally,
        })
    }

    // Makes all calls so far once more, by a replay that begins without any rows; what it answers.
    pub(crate) fn replay(&self, plan: &Plan<A, R>) -> anyhow::Result<Tally> {
        let none = Lent {
            rules: 0,
            blocks: 0,
            properties: 0,
            packet_frames: 0,
            address_frames: 0,
        };
        let alloc = self.rt.alloc();
        let stores = stores_with(alloc, none, plan.addresses, plan.rests)?;
        let record = replay(plan.addresses, plan.rests, stores, &self.steps, alloc)?;
        let mut tally = Tally::default();
        for entry in record.iter() {
            tally.count(&entry.answer);
        }
        Ok(tally)
    }

    // Makes one call, and prints the answer beside what it is about.
    pub(crate) fn make(&mut self, words: &str, call: CallOf<A, R>) -> anyhow::Result<()> {
        let mut memory = self.stores.lend();
        let said = self.register.apply(&mut memory, call);
        let lent = least_lengths();
        self.steps.push(Step { call, lent })?;
        self.tally.count(&said);
        let said = answer::<A, R>(self.rt.alloc(), said)?;
        println!(self.rt; "{words}: {said}")?;
        Ok(())
    }
}
