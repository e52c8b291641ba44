// Packets on their way.
use super::trees::{accept, place};
use crate::plan::Plan;
use crate::session::{CallOf, Session};
use crate::shown::Shown;
use kinds::Kind;
use model::{Call, Header};

// Mail from the first address of one region to the first of another.
fn send<A: Kind, R: Kind>(plan: &Plan<A, R>, source: A, destination: A) -> CallOf<A, R> {
    Call::Send {
        header: Header {
            source: source.pick(),
            destination: destination.pick(),
            rest: plan.mail.pick(),
        },
    }
}

pub(crate) fn send_all<A: Kind + Shown, R: Kind + Shown, P: Print + AllocGlobal>(
    session: &mut Session<A, R, P>,
    plan: &Plan<A, R>,
) -> anyhow::Result<()> {
    let branches = accept(plan.upper, plan.addresses, plan.branches, plan.mail);
    let inward = send(plan, plan.street_host, plan.mail_host);
    let across = send(plan, plan.lab_host, plan.shop_host);
    let to_lab = send(plan, plan.street_host, plan.lab_host);
    let to_shop = send(plan, plan.street_host, plan.shop_host);
    session.make(
        "mail from the street to both branches",
        place(0, 2, branches),
    )?;
    session.make("mail of the street's host to the mail host", inward)?;
    session.make("mail of the lab's host to the shop's host", across)?;
    session.make(
        "mail of the street's host down one branch, to the lab",
        to_lab,
    )?;
    session.make("the same down the other branch, to the shop", to_shop)
}
