// Makes many calls on one register of each packet form, and holds each answer to the judge.
#![tactic(auto)]

mod draws;
mod judge;
mod kept;
mod rows;
mod run;
mod sizes;
mod store;
mod tally;

use crate::draws::{Form, flat, long};
use anyhow::{Context, bail, ensure};
use rows::RowKind;
use run::run;
use std::alloc::Global;
use std::env;
use std::rt::Env;

// As many calls as show every refusal and reach every limit.
const CALLS: usize = 10_000;

// How many calls are asked for by the program's argument, if it has one.
fn calls_asked(rt: &(impl Env + Alloc)) -> anyhow::Result<usize> {
    let mut args = env::args(rt)?.skip(1);
    let Some(text) = args.next() else {
        return Ok(CALLS);
    };
    ensure!(
        args.next().is_none(),
        "it takes one argument: how many calls"
    );
    text.as_str()
        .parse::<usize>()
        .context(format_args!("{text:?} is no number of calls"))
}

// Runs one form, and prints what came of it.
fn soak<A: RowKind, R: RowKind>(
    rt: &(impl Print + Eprint),
    heap: Global,
    form: &Form<A, R>,
    seed: u64,
    calls: usize,
) -> anyhow::Result<()> {
    let name = form.name;
    let tally = run(heap, form, seed, calls)?;
    tally.print(rt, name)?;
    if calls < CALLS {
        println!(rt; "{name}: {calls} calls, all answers right")?;
        return Ok(());
    }
    if let Some(number) = tally.unseen() {
        bail!("{name}: refusal {number} was never seen");
    }
    ensure!(tally.reached_limits(), "{name}: a limit was not reached");
    println!(rt;
        "{name}: {calls} calls, all answers right, refusals 1 to 12 all seen, all limits reached"
    )?;
    Ok(())
}

fn main(rt: HostRuntime) -> anyhow::Result<()> {
    let heap = rt.alloc();
    let calls = calls_asked(&rt)?;
    soak(&rt, heap, &long(heap)?, 20_231, calls)?;
    soak(&rt, heap, &flat(heap)?, 4_711, calls)
}
