// What is printed.
use crate::average::Average;
use crate::cases::{SEED, covered, lists, matched};
use crate::cost::Case;
use crate::families::{Named, families};
use anyhow::ensure;
use chance::Random;
use search::Wish;
use std::rt::Clock;

// Asks a question, and adds its cost.
fn ask(rt: &impl Clock, case: &Case, timed: bool, average: &mut Average) -> anyhow::Result<()> {
    let cost = case.count()?;
    let (found, micros) = case.time(rt)?;
    ensure!(
        found == cost.found,
        "the search that counts and the one that does not differ"
    );
    average.add(cost, timed.then_some(micros));
    Ok(())
}

// Asks each list for a value with the wished outcome, and for one with another.
fn report_family(
    rt: &(impl Print + Clock),
    cases: &mut [Case],
    named: Named,
    timed: bool,
) -> anyhow::Result<()> {
    let name = named.name;
    let mut average = Average::default();
    for case in cases.iter() {
        ask(rt, case, timed, &mut average)?;
    }
    println!(rt; "{name}: {average}")?;
    let mut opposite = Average::default();
    for case in cases.iter_mut() {
        case.wish = Wish::IsNot(Some(named.wished));
        ask(rt, case, timed, &mut opposite)?;
    }
    println!(rt; "{name}, another: {opposite}")?;
    Ok(())
}

pub(crate) fn report_families(
    rt: &(impl Print + Clock + AllocGlobal),
    count: u32,
    timed: bool,
) -> anyhow::Result<()> {
    println!(rt; "Lists of {count} entries")?;
    let mut random = Random::new(SEED);
    for named in &families() {
        let mut cases = lists(rt.alloc(), &mut random, *named, count)?;
        report_family(rt, cases.as_mut_slice(), *named, timed)?;
    }
    Ok(())
}

pub(crate) fn report_stalls(
    rt: &(impl Print + Clock + AllocGlobal),
    timed: bool,
) -> anyhow::Result<()> {
    let mut random = Random::new(SEED);
    let covered = covered(rt.alloc(), &mut random)?;
    let mut average = Average::default();
    ask(rt, &covered, timed, &mut average)?;
    println!(rt; "120 slabs and two rules that hold all: {average}")?;
    let matched = matched(rt.alloc(), &mut random)?;
    let mut average = Average::default();
    ask(rt, &matched, timed, &mut average)?;
    println!(rt; "20 slabs and two rules, unmatched: {average}")?;
    Ok(())
}
