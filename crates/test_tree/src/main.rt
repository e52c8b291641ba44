// Makes a register and walks through a test tree with two branches: rules, properties, refusals and packets,
// once in the Long form and once in the Flat form.
#![tactic(auto)]

mod answers;
mod plan;
mod session;
mod shown;
mod walk;

use anyhow::Context;
use plan::{flat_plan, long_plan};
use session::Tally;
use walk::walk;

fn main(rt: HostRuntime) -> anyhow::Result<()> {
    let long = long_plan().context("the Long plan has a region that is none")?;
    let flat = flat_plan().context("the Flat plan has a region that is none")?;
    println!(&rt; "The Long form")?;
    let tally = walk(&rt, &long, Tally::default())?;
    println!(&rt; "The Flat form")?;
    let tally = walk(&rt, &flat, tally)?;
    println!(&rt; "{tally}")?;
    Ok(())
}
