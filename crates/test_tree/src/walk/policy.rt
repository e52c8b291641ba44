// Properties that stand, and the calls that are refused for them.
use super::trees::{accept, place};
use crate::plan::Plan;
use crate::session::{CallOf, Session};
use crate::shown::Shown;
use kinds::Kind;
use model::{Call, Decision, Property, Rule};

// Mail between two hosts arrives.
fn mail<A: Kind, R: Kind>(
    plan: &Plan<A, R>,
    from: usize,
    to: usize,
    source: A,
    destination: A,
) -> Property<A, R> {
    Property {
        sort: Decision::Accept,
        from,
        to,
        source,
        destination,
        rest: plan.mail,
    }
}

// Telnet never reaches the office.
fn no_telnet<A: Kind, R: Kind>(plan: &Plan<A, R>, from: usize, source: A) -> Property<A, R> {
    Property {
        sort: Decision::Discard,
        from,
        to: 1,
        source,
        destination: plan.office,
        rest: plan.telnet,
    }
}

fn stand<A: Kind, R: Kind>(property: Property<A, R>) -> CallOf<A, R> {
    Call::Stand { property }
}

fn ask<A: Kind, R: Kind>(property: Property<A, R>) -> CallOf<A, R> {
    Call::Ask { property }
}

pub(crate) fn stand_all<A: Kind + Shown, R: Kind + Shown, P: Print + AllocGlobal>(
    session: &mut Session<A, R, P>,
    plan: &Plan<A, R>,
) -> anyhow::Result<()> {
    let inward = mail(plan, 0, 1, plan.street_host, plan.mail_host);
    let across = mail(plan, 2, 3, plan.lab_host, plan.shop_host);
    let telnet = no_telnet(plan, 0, plan.addresses);
    session.make("mail from the street reaches the mail host", stand(inward))?;
    session.make("mail from the lab reaches the shop", stand(across))?;
    session.make(
        "telnet from the street never reaches the office",
        stand(telnet),
    )
}

pub(crate) fn ask_all<A: Kind + Shown, R: Kind + Shown, P: Print + AllocGlobal>(
    session: &mut Session<A, R, P>,
    plan: &Plan<A, R>,
) -> anyhow::Result<()> {
    let shop = no_telnet(plan, 3, plan.shop);
    let telnet = Property {
        rest: plan.one_telnet,
        ..mail(plan, 0, 1, plan.street_host, plan.mail_host)
    };
    session.make(
        "does telnet from the shop never reach the office",
        ask(shop),
    )?;
    session.make(
        "does telnet from the street reach the mail host",
        ask(telnet),
    )
}

// Blocks and properties that are not where they would have to be.
pub(crate) fn misplace<A: Kind + Shown, R: Kind + Shown, P: Print + AllocGlobal>(
    session: &mut Session<A, R, P>,
    plan: &Plan<A, R>,
) -> anyhow::Result<()> {
    let lab_host = Call::Give {
        domain: 3,
        region: plan.lab_host,
    };
    let street_host = Call::Give {
        domain: 3,
        region: plan.street_host,
    };
    let from_shop = mail(plan, 0, 1, plan.shop_host, plan.mail_host);
    let to_lab = mail(plan, 0, 1, plan.street_host, plan.lab_host);
    session.make("the lab's host to the shop", lab_host)?;
    session.make(
        "mail from the shop's host, as if from the street",
        stand(from_shop),
    )?;
    session.make("mail to the lab's host, as if to the office", stand(to_lab))?;
    session.make("the office's addresses back", Call::Take { block: 0 })?;
    session.make("the street's host to the shop", street_host)
}

// Discard what the street's host sends to the mail host.
fn shut_out<A: Kind, R: Kind>(plan: &Plan<A, R>) -> Rule<A, R> {
    Rule {
        interfaces: plan.all_interfaces,
        source: plan.street_host,
        destination: plan.mail_host,
        rest: plan.rests,
        decision: Decision::Discard,
    }
}

fn lift<A: Kind, R: Kind>(firewall: usize, position: usize) -> CallOf<A, R> {
    Call::Lift { firewall, position }
}

// Edits that would leave a packet unmatched or break what stands, and one that only seems to.
pub(crate) fn break_all<A: Kind + Shown, R: Kind + Shown, P: Print + AllocGlobal>(
    session: &mut Session<A, R, P>,
    plan: &Plan<A, R>,
) -> anyhow::Result<()> {
    let all_but_one = Call::Alter {
        firewall: 1,
        position: 1,
        rule: Rule {
            interfaces: plan.all_but_interface_5,
            source: plan.addresses,
            destination: plan.addresses,
            ..shut_out(plan)
        },
    };
    session.make(
        "the second firewall's last rule, but for interface 5",
        all_but_one,
    )?;
    session.make(
        "the street's host shut out, before its mail",
        place(0, 0, shut_out(plan)),
    )?;
    session.make(
        "the street's host shut out, behind its mail",
        place(0, 1, shut_out(plan)),
    )?;
    session.make("the mail rule away", lift(0, 0))?;
    session.make("what leaves the lab away", lift(1, 0))
}

// Properties go, and what they stood against is done.
pub(crate) fn clear<A: Kind + Shown, R: Kind + Shown, P: Print + AllocGlobal>(
    session: &mut Session<A, R, P>,
    plan: &Plan<A, R>,
) -> anyhow::Result<()> {
    let narrower = Call::Alter {
        firewall: 0,
        position: 0,
        rule: accept(plan.upper, plan.street_host, plan.mail_host, plan.mail),
    };
    session.make(
        "mail from the lab to the shop stands no longer",
        Call::Withdraw { property: 1 },
    )?;
    session.make("what leaves the lab away, now", lift(1, 0))?;
    session.make("the shop's addresses back", Call::Take { block: 2 })?;
    session.make(
        "mail to the mail host from the street's host alone",
        narrower,
    )
}
