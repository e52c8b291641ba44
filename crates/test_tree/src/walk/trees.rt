// Domains, firewalls, blocks and rules.
use crate::plan::Plan;
use crate::session::{CallOf, Session};
use crate::shown::Shown;
use kinds::{Kind, Set};
use model::{Call, Decision, Rule};

// Domain 0 is the street. Firewall 0 has the office (domain 1) and the shop (domain 3) below it, firewall 1
// hangs below the office and has the lab (domain 2).
pub(crate) fn build<A: Kind + Shown, R: Kind + Shown, P: Print + AllocGlobal>(
    session: &mut Session<A, R, P>,
) -> anyhow::Result<()> {
    let first = Call::Attach {
        domain: 0,
        upper: 0,
        lower: 1,
        decision: Decision::Discard,
    };
    let second = Call::Attach {
        domain: 1,
        upper: 0,
        lower: 1,
        decision: Decision::Discard,
    };
    let shop = Call::Branch {
        firewall: 0,
        interface: 2,
    };
    session.make("a firewall below the street, and the office", first)?;
    session.make("a firewall below the office, and the lab", second)?;
    session.make("the shop, on the first firewall", shop)
}

fn give<A: Kind, R: Kind>(domain: usize, region: A) -> CallOf<A, R> {
    Call::Give { domain, region }
}

pub(crate) fn give_blocks<A: Kind + Shown, R: Kind + Shown, P: Print + AllocGlobal>(
    session: &mut Session<A, R, P>,
    plan: &Plan<A, R>,
) -> anyhow::Result<()> {
    session.make("the office's addresses", give(1, plan.office))?;
    session.make("the lab's addresses", give(2, plan.lab))?;
    session.make("the shop's addresses", give(3, plan.shop))
}

pub(crate) fn place<A: Kind, R: Kind>(
    firewall: usize,
    position: usize,
    rule: Rule<A, R>,
) -> CallOf<A, R> {
    Call::Place {
        firewall,
        position,
        rule,
    }
}

// Accept from one interface.
pub(crate) fn accept<A: Kind, R: Kind>(
    interface: Set,
    source: A,
    destination: A,
    rest: R,
) -> Rule<A, R> {
    Rule {
        interfaces: interface,
        source,
        destination,
        rest,
        decision: Decision::Accept,
    }
}

pub(crate) fn place_rules<A: Kind + Shown, R: Kind + Shown, P: Print + AllocGlobal>(
    session: &mut Session<A, R, P>,
    plan: &Plan<A, R>,
) -> anyhow::Result<()> {
    let Plan { upper, lower, .. } = *plan;
    let mail = accept(upper, plan.addresses, plan.mail_host, plan.mail);
    let across = accept(lower, plan.lab, plan.shop, plan.rests);
    let out = accept(lower, plan.lab, plan.addresses, plan.rests);
    session.make("mail from the street to the mail host", place(0, 0, mail))?;
    session.make(
        "the lab to the shop, at the first firewall",
        place(0, 1, across),
    )?;
    session.make("whatever leaves the lab, at the second", place(1, 0, out))
}
