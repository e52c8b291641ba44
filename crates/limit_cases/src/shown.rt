// The run whose answers show addresses and packets: among many rules, blocks and properties, so that several
// could be shown.
use crate::limits::{attach_some, must_fit};
use crate::numbered::Numbered;
use crate::session::{CallOf, Session};
use anyhow::{Context, ensure};
use kinds::{Kind, Set};
use model::{Call, Decision, Header, Property, Rule};

// Rules that hold few packets each.
const SLABS: usize = 20;

// The regions that the calls of this run name.
#[derive(Clone, Copy)]
struct Regions<A, R> {
    whole: A,
    rests: R,
    // The first addresses: 1, 3 and 5 are given to domain 1, and 2, 4 and 6 to domain 2.
    one: A,
    two: A,
    // Two parts of all addresses.
    lower: A,
    upper: A,
}

fn regions_of<A: Kind + Numbered, R: Kind>(addresses: A, rests: R) -> Option<Regions<A, R>> {
    let one = A::single(1)?;
    let (lower, upper) = addresses.split(one)?;
    Some(Regions {
        whole: addresses,
        rests,
        one,
        two: A::single(2)?,
        lower,
        upper,
    })
}

// The call must be refused with this number.
fn must_refuse<A: Kind + Numbered, R: Kind + Numbered>(
    session: &mut Session<A, R>,
    call: CallOf<A, R>,
    number: u8,
) -> anyhow::Result<()> {
    let refused = session.call(call)?;
    ensure!(
        refused == Some(number),
        "a call gets {refused:?}, and not {number}"
    );
    Ok(())
}

// Accepts what goes from domain 1 to 2.
fn accepted<A: Kind, R: Kind>(source: A, destination: A, rest: R) -> Property<A, R> {
    Property {
        sort: Decision::Accept,
        from: 1,
        to: 2,
        source,
        destination,
        rest,
    }
}

impl<A: Kind + Numbered, R: Kind + Numbered> Regions<A, R> {
    fn rule(self, source: A, decision: Decision) -> Rule<A, R> {
        Rule {
            interfaces: Set::up_to(31),
            source,
            destination: self.whole,
            rest: self.rests,
            decision,
        }
    }

    // A rule that holds few packets: in turn by source, destination and rest.
    fn slab(self, number: usize) -> Rule<A, R> {
        let mut rule = self.rule(self.whole, Decision::Accept);
        let single = (number & 0xff) as u32;
        match number % 3 {
            0 => rule.source = A::single(single).unwrap_or(self.whole),
            1 => rule.destination = A::single(single).unwrap_or(self.whole),
            _ => rule.rest = R::single(single % 2).unwrap_or(self.rests),
        }
        rule
    }

    // What goes from the street to the first address must be discarded.
    fn discarded(self) -> Property<A, R> {
        Property {
            sort: Decision::Discard,
            from: 0,
            to: 1,
            source: self.whole,
            destination: self.one,
            rest: self.rests,
        }
    }

    // Two firewalls below the street, with some addresses.
    fn prepare(self, session: &mut Session<A, R>) -> anyhow::Result<()> {
        attach_some(session, 2)?;
        for number in 1..7 {
            let region = A::single(number).context("there is no such address")?;
            let domain = if number % 2 == 1 { 1 } else { 2 };
            must_fit(session, Call::Give { domain, region })?;
        }
        Ok(())
    }

    // Addresses that are not of the domain, or would not be.
    fn show_addresses(self, session: &mut Session<A, R>) -> anyhow::Result<()> {
        let Regions { whole, rests, .. } = self;
        let region = whole;
        must_refuse(session, Call::Give { domain: 1, region }, 6)?;
        let property = accepted(whole, self.two, rests);
        must_refuse(session, Call::Ask { property }, 8)?;
        let property = accepted(self.one, whole, rests);
        must_refuse(session, Call::Ask { property }, 9)?;
        let property = accepted(self.one, self.two, rests);
        must_fit(session, Call::Stand { property })?;
        must_refuse(session, Call::Take { block: 0 }, 11)?;
        must_fit(session, Call::Withdraw { property: 0 })
    }

    // Packets that no rule would match, behind many rules.
    fn show_unmatched(self, session: &mut Session<A, R>) -> anyhow::Result<()> {
        for number in 0..SLABS {
            let rule = self.slab(number);
            must_fit(session, place(0, rule))?;
        }
        let position = SLABS;
        let rule = self.rule(self.lower, Decision::Accept);
        must_refuse(session, alter(position, rule), 10)?;
        must_refuse(session, lift(position), 10)?;
        must_fit(session, place(position, rule))?;
        let rule = self.rule(self.upper, Decision::Accept);
        must_fit(session, place(position, rule))?;
        must_fit(session, lift(position + 2))?;
        must_refuse(session, lift(position), 10)
    }

    // Packets that break a property, or would.
    fn show_breaks(self, session: &mut Session<A, R>) -> anyhow::Result<()> {
        let property = self.discarded();
        must_fit(session, Call::Ask { property })?;
        let rule = self.rule(self.whole, Decision::Discard);
        must_fit(session, place(0, rule))?;
        must_fit(session, Call::Stand { property })?;
        let rule = self.rule(self.lower, Decision::Accept);
        must_refuse(session, place(0, rule), 12)?;
        must_refuse(session, lift(0), 12)?;
        let property = accepted(self.one, self.two, self.rests);
        must_fit(session, Call::Ask { property })?;
        let header = Header {
            source: self.one.pick(),
            destination: self.two.pick(),
            rest: self.rests.pick(),
        };
        must_fit(session, Call::Send { header })
    }
}

fn place<A: Kind, R: Kind>(position: usize, rule: Rule<A, R>) -> CallOf<A, R> {
    Call::Place {
        firewall: 0,
        position,
        rule,
    }
}

fn alter<A: Kind, R: Kind>(position: usize, rule: Rule<A, R>) -> CallOf<A, R> {
    Call::Alter {
        firewall: 0,
        position,
        rule,
    }
}

fn lift<A: Kind, R: Kind>(position: usize) -> CallOf<A, R> {
    Call::Lift {
        firewall: 0,
        position,
    }
}

// Makes the calls: how many answers show an address or a packet.
pub(crate) fn show<A: Kind + Numbered, R: Kind + Numbered>(
    session: &mut Session<A, R>,
) -> anyhow::Result<u32> {
    let regions = regions_of(session.addresses, session.rests).context(
        "there are no such regions",
    )?;
    regions.prepare(session)?;
    regions.show_addresses(session)?;
    regions.show_unmatched(session)?;
    regions.show_breaks(session)?;
    Ok(session.shown)
}
