// Audits the rule list of a small office: asks questions of it, and prints which are kept.
#![tactic(auto)]

mod audit;
mod packets;
mod questions;
mod report;
mod rules;

use report::report;

fn main(rt: HostRuntime) -> anyhow::Result<()> {
    report(&rt)
}
