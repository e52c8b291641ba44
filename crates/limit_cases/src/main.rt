// Goes to the limits of a register, in both packet forms: how much fits, what the next call gets, and whether
// the next fits once something is gone; and makes calls whose answers show addresses and packets. Each run is
// made again with other junk in the frames, and with slices that are a row too short before each call: the
// answers must be the same, call by call, with all that they show.
#![tactic(auto)]

mod limits;
mod numbered;
mod session;
mod shown;
mod sizes;

use anyhow::ensure;
use forms::{
    FlatRest, LongRest, Prefix, Range, flat_addresses, flat_rest, long_addresses, long_rest,
};
use kinds::Kind;
use limits::{Limits, run_all};
use numbered::Numbered;
use session::{Manner, Session};
use std::alloc::Global;

// What came of all runs in one packet form, in one manner.
#[derive(Drop)]
struct Outcome {
    limits: Limits,
    short_calls: u32,
    log: Vec<u32>,
}

fn run<A: Kind + Numbered, R: Kind + Numbered>(
    alloc: Global,
    addresses: A,
    rests: R,
    manner: Manner,
) -> anyhow::Result<Outcome> {
    let mut session = Session::new(alloc, addresses, rests, manner)?;
    let limits = run_all(&mut session)?;
    Ok(Outcome {
        limits,
        short_calls: session.short_calls,
        log: session.log,
    })
}

// The runs in each manner answer the same.
fn compare<A: Kind + Numbered, R: Kind + Numbered>(
    rt: &(impl Print + AllocGlobal),
    addresses: A,
    rests: R,
) -> anyhow::Result<()> {
    let plain = run(rt.alloc(), addresses, rests, Manner::Plain)?;
    let limits = plain.limits;
    println!(rt; "{limits}")?;
    let junk = run(rt.alloc(), addresses, rests, Manner::Junk)?;
    ensure!(
        junk.log.as_slice() == plain.log.as_slice(),
        "the answers depend on the junk in the frames"
    );
    println!(rt; "other junk in the frames: the same answers")?;
    let short = run(rt.alloc(), addresses, rests, Manner::Short)?;
    ensure!(
        short.log.as_slice() == plain.log.as_slice(),
        "slices that were too short changed something"
    );
    let calls = short.short_calls;
    println!(rt;
        "a slice one row too short: {calls} calls get 1, and those after them the same answers"
    )?;
    Ok(())
}

fn main(rt: HostRuntime) -> anyhow::Result<()> {
    println!(&rt; "The Long form")?;
    compare(&rt, long_addresses(), long_rest())?;
    println!(&rt; "The Flat form")?;
    compare(&rt, flat_addresses(), flat_rest())
}
