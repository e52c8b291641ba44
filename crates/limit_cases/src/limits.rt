// The runs: each fills a register of its own until something is full.
use crate::numbered::Numbered;
use crate::session::{CallOf, Session};
use crate::shown::show;
use anyhow::{bail, ensure};
use kinds::{Kind, Set};
use model::{Call, Decision, Property, Rule};
use std::fmt;

// How many fitted.
#[derive(Clone, Copy)]
pub struct Limits {
    list: usize,
    rules: usize,
    domains: usize,
    blocks: usize,
    properties: usize,
    // Answers that showed an address or a packet.
    shown: u32,
}

impl fmt::Display for Limits {
    fn fmt<W: fmt::Write>(&self, f: &mut fmt::Formatter<W>) -> fmt::Result {
        let Limits {
            list,
            rules,
            domains,
            blocks,
            properties,
            shown,
        } = *self;
        writeln!(
            f,
            "one list: {list} rules fit, the next gets 4, and fits after one lift"
        )?;
        writeln!(
            f,
            "all lists: {rules} rules fit, the next gets 4, and fits after one lift"
        )?;
        writeln!(
            f,
            "tree: {domains} domains fit, the next branch and the next attach get 4"
        )?;
        writeln!(
            f,
            "blocks: {blocks} fit, the next gets 4, and fits after one take"
        )?;
        writeln!(
            f,
            "properties: {properties} fit, the next gets 4, and fits after one withdraw"
        )?;
        write!(f, "{shown} answers show an address or a packet")
    }
}

fn attach<A: Kind, R: Kind>(domain: usize) -> CallOf<A, R> {
    Call::Attach {
        domain,
        upper: 0,
        lower: 1,
        decision: Decision::Accept,
    }
}

// A rule for everything, at the head of a firewall's list.
fn place<A: Kind, R: Kind>(firewall: usize, addresses: A, rests: R) -> CallOf<A, R> {
    Call::Place {
        firewall,
        position: 0,
        rule: Rule {
            interfaces: Set::up_to(31),
            source: addresses,
            destination: addresses,
            rest: rests,
            decision: Decision::Accept,
        },
    }
}

// Makes calls until one is refused: how many were not. The refusal must be that something is full.
fn fill<A: Kind + Numbered, R: Kind + Numbered, F: Fn(usize) -> CallOf<A, R>>(
    session: &mut Session<A, R>,
    next: F,
) -> anyhow::Result<usize>
    requires { F.IsAlwaysCallable next }
{
    for count in 0..1000 {
        if let Some(number) = session.call(next(count))? {
            ensure!(number == 4, "the call past the last is not refused as full");
            return Ok(count);
        }
    }
    bail!("a thousand calls, and nothing is full")
}

pub(crate) fn must_fit<A: Kind + Numbered, R: Kind + Numbered>(
    session: &mut Session<A, R>,
    call: CallOf<A, R>,
) -> anyhow::Result<()> {
    ensure!(session.call(call)?.is_none(), "a call that fits is refused");
    Ok(())
}

// Firewalls below the street, each with a domain.
pub(crate) fn attach_some<A: Kind + Numbered, R: Kind + Numbered>(
    session: &mut Session<A, R>,
    count: usize,
) -> anyhow::Result<()> {
    session.restart();
    for _ in 0..count {
        must_fit(session, attach(0))?;
    }
    Ok(())
}

fn one_list<A: Kind + Numbered, R: Kind + Numbered>(
    session: &mut Session<A, R>,
) -> anyhow::Result<usize> {
    attach_some(session, 1)?;
    let rule = place(0, session.addresses, session.rests);
    let placed = fill(session, |_| rule)?;
    must_fit(
        session,
        Call::Lift {
            firewall: 0,
            position: 0,
        },
    )?;
    must_fit(session, rule)?;
    Ok(placed.saturating_add(1))
}

fn all_lists<A: Kind + Numbered, R: Kind + Numbered>(
    session: &mut Session<A, R>,
) -> anyhow::Result<usize> {
    attach_some(session, 5)?;
    let addresses = session.addresses;
    let rests = session.rests;
    let placed = fill(session, |count| place(count / 127, addresses, rests))?;
    must_fit(
        session,
        Call::Lift {
            firewall: 0,
            position: 0,
        },
    )?;
    must_fit(session, place(4, addresses, rests))?;
    Ok(placed.saturating_add(5))
}

fn tree<A: Kind + Numbered, R: Kind + Numbered>(
    session: &mut Session<A, R>,
) -> anyhow::Result<usize> {
    attach_some(session, 3)?;
    let hung = fill(
        session,
        |count| Call::Branch {
            firewall: count / 30,
            interface: 2 + (count % 30) as u32,
        },
    )?;
    let next = session.call(attach(0))?;
    ensure!(
        next == Some(4),
        "attach past the last domain is not refused as full"
    );
    Ok(hung.saturating_add(4))
}

// A block of the one address of this number; all addresses where there is none.
fn give<A: Kind + Numbered, R: Kind>(whole: A, number: usize) -> CallOf<A, R> {
    let region = A::single((number & 0xff) as u32).unwrap_or(whole);
    Call::Give { domain: 1, region }
}

fn blocks<A: Kind + Numbered, R: Kind + Numbered>(
    session: &mut Session<A, R>,
) -> anyhow::Result<usize> {
    attach_some(session, 1)?;
    let whole = session.addresses;
    let given = fill(session, |count| give(whole, count))?;
    must_fit(session, Call::Take { block: 0 })?;
    must_fit(session, give(whole, 200))?;
    Ok(given)
}

fn properties<A: Kind + Numbered, R: Kind + Numbered>(
    session: &mut Session<A, R>,
) -> anyhow::Result<usize> {
    attach_some(session, 1)?;
    let whole = session.addresses;
    must_fit(session, give(whole, 1))?;
    let stand = Call::Stand {
        property: Property {
            sort: Decision::Accept,
            from: 0,
            to: 1,
            source: A::single(2).unwrap_or(whole),
            destination: A::single(1).unwrap_or(whole),
            rest: session.rests,
        },
    };
    let stood = fill(session, |_| stand)?;
    must_fit(session, Call::Withdraw { property: 0 })?;
    must_fit(session, stand)?;
    Ok(stood)
}

pub(crate) fn run_all<A: Kind + Numbered, R: Kind + Numbered>(
    session: &mut Session<A, R>,
) -> anyhow::Result<Limits> {
    Ok(Limits {
        list: one_list(session)?,
        rules: all_lists(session)?,
        domains: tree(session)?,
        blocks: blocks(session)?,
        properties: properties(session)?,
        shown: show(session)?,
    })
}
