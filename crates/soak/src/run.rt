// A run: calls drawn, made and judged one after another.
use crate::draws::{Draw, Form, Name, draw_lent, draw_name, plain, typed};
use crate::judge::{Case, Fixed, PlainAnswer, PlainCall, PlainTree, Wholes};
use crate::kept::are_same_tables;
use crate::rows::RowKind;
use crate::store::Store;
use crate::tally::Tally;
use anyhow::{Context, ensure};
use chance::Random;
use model::Lent;
use register::Register;
use std::alloc::Global;

// What a run holds besides the register and its memory.
#[derive(Drop)]
struct Judging {
    heap: Global,
    random: Random,
    tree: PlainTree,
    tally: Tally,
}

impl Judging {
    // Holds the answer to the judge, and lets the plain tree take the call.
    fn judge(
        &mut self,
        name: Name,
        call: PlainCall,
        lent: Lent,
        answer: PlainAnswer,
    ) -> anyhow::Result<()> {
        let after = self.tree.after(self.heap, call)?;
        let case = Case {
            heap: self.heap,
            before: &self.tree,
            after: &after,
        };
        let judged = case.judge(call, lent)?;
        let answered = Fixed::of(answer);
        let expected = judged.fixed;
        ensure!(
            answered == expected,
            "{name:?} answered {answered:?}, expected {expected:?}"
        );
        ensure!(
            judged.is_met(answer, &after),
            "{name:?} answered {answered:?}, but what it shows does not prove it"
        );
        if answered.refusal().is_none() {
            self.tree = after;
        }
        ensure!(
            self.tree.is_guarded(self.heap)?,
            "{name:?} answered {answered:?}: a standing property does not hold"
        );
        self.tally.add(name, answered, &self.tree);
        Ok(())
    }
}

// Makes one call, and judges its answer.
fn step<A: RowKind, R: RowKind>(
    form: &Form<A, R>,
    register: &mut Register<A, R>,
    store: &mut Store<A::Row, R::Row>,
    judging: &mut Judging,
    number: usize,
) -> anyhow::Result<()> {
    let name = draw_name(&mut judging.random, number);
    let draw = Draw {
        form,
        tree: &judging.tree,
    };
    let call = draw
        .call(&mut judging.random, name)
        .context("there is nothing to draw from")?;
    let lent = draw_lent(&mut judging.random);
    store.spoil(form, &mut judging.random);
    let before = store.tables.clone()?;
    let answer = form.plain_answer(store.apply(lent, register, typed(call)));
    let answered = Fixed::of(answer);
    judging.judge(name, plain(call), lent, answer)?;
    ensure!(
        answered.changes() || are_same_tables::<A, R>(&before, &store.tables),
        "{name:?} answered {answered:?}, and yet changed a table"
    );
    Ok(())
}

// Makes so many calls on a new register.
pub(crate) fn run<A: RowKind, R: RowKind>(
    heap: Global,
    form: &Form<A, R>,
    seed: u64,
    calls: usize,
) -> anyhow::Result<Tally> {
    let addresses = form.addresses.whole;
    let rests = form.rests.whole;
    let wholes = Wholes {
        addresses: addresses.plain.values,
        rests: rests.plain.values,
    };
    let mut register = Register::new(addresses.typed, rests.typed);
    let mut judging = Judging {
        heap,
        random: Random::new(seed),
        tree: PlainTree::new(heap, wholes)?,
        tally: Tally::new(),
    };
    let mut store = Store::new(heap, form, &mut judging.random)?;
    let name = form.name;
    for number in 0..calls {
        let call = number.saturating_add(1);
        step(form, &mut register, &mut store, &mut judging, number).context(format_args!(
            "{name}, call {call}"
        ))?;
    }
    Ok(judging.tally)
}
