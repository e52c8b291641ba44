// Counts what a search does, on lists drawn to be hard for it and on lists like those of an office: looks,
// entry tests, splits and frames, the same in each run. With an argument it also prints microseconds.
#![tactic(auto)]

mod average;
mod cases;
mod cost;
mod counted;
mod counting;
mod counts;
mod draft;
mod families;
mod packets;
mod report;
mod stalls;
mod tiles;

use report::{report_families, report_stalls};
use std::env;

fn main(rt: HostRuntime) -> anyhow::Result<()> {
    let timed = env::args(&rt)?.nth(1).is_some();
    report_families(&rt, 30, timed)?;
    report_families(&rt, 128, timed)?;
    report_stalls(&rt, timed)
}
