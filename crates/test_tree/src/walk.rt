// The walk: what is done with the register, in the order in which it is done.
mod packets;
mod policy;
mod trees;

use crate::plan::Plan;
use crate::session::{Session, Tally};
use crate::shown::Shown;
use kinds::Kind;

// Makes all calls, in their order.
fn make_all<A: Kind + Shown, R: Kind + Shown, P: Print + AllocGlobal>(
    session: &mut Session<A, R, P>,
    plan: &Plan<A, R>,
) -> anyhow::Result<()> {
    trees::build(session)?;
    trees::give_blocks(session, plan)?;
    trees::place_rules(session, plan)?;
    policy::stand_all(session, plan)?;
    policy::ask_all(session, plan)?;
    policy::misplace(session, plan)?;
    policy::break_all(session, plan)?;
    packets::send_all(session, plan)?;
    policy::clear(session, plan)
}

// The whole walk in one packet form, and what a replay of it comes to.
pub(crate) fn walk<A: Kind + Shown, R: Kind + Shown>(
    rt: &(impl Print + AllocGlobal),
    plan: &Plan<A, R>,
    tally: Tally,
) -> anyhow::Result<Tally> {
    let mut session = Session::new(rt, plan, tally)?;
    make_all(&mut session, plan)?;
    let again = session.replay(plan)?;
    println!(rt; "replayed: {again}")?;
    Ok(session.tally)
}
