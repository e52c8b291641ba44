// Holds the search to a slow judge, on many small lists of both packet forms. Its argument is how many lists.
#![tactic(auto)]

mod cases;
mod judged;
mod shapes;

use anyhow::{Context, ensure};
use cases::{Tally, run};
use forms::{FlatRest, LongRest, Prefix, Range};
use kinds::PacketRegion;
use std::env;
use std::rt::Env;

const LISTS: u32 = 3_000;

// How many lists are asked for by the program's argument, if it has one.
fn lists_asked(rt: &(impl Env + Alloc)) -> anyhow::Result<u32> {
    match env::args(rt)?.nth(1) {
        None => Ok(LISTS),
        Some(text) => text
            .as_str()
            .parse::<u32>()
            .context(format_args!("{text:?} is no number of lists")),
    }
}

// Prints what came of one form.
fn report(rt: &(impl Print + Eprint), form: &str, tally: Tally) -> anyhow::Result<()> {
    let Tally {
        lists,
        questions,
        found,
        none,
        wrong,
    } = tally;
    // The counts are told beside the answers: where standard error takes nothing, the run goes on.
    let _ = eprintln!(rt; "{form} packets: {found} found, {none} none");
    ensure!(wrong == 0, "the search and the judge differ");
    // Fewer lists than the stored run's may have answers of one sort alone.
    ensure!(
        lists < LISTS || (found > lists && none > lists),
        "there are too few answers of one sort"
    );
    println!(rt; "{form} packets: {lists} lists, {questions} questions, all answers right")?;
    Ok(())
}

fn main(rt: HostRuntime) -> anyhow::Result<()> {
    let heap = rt.alloc();
    let lists = lists_asked(&rt)?;
    let long = run::<PacketRegion<Prefix, LongRest>>(heap, 20_231, lists)?;
    report(&rt, "long", long)?;
    let flat = run::<PacketRegion<Range, FlatRest>>(heap, 4_711, lists)?;
    report(&rt, "flat", flat)
}
