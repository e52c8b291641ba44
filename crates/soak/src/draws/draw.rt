// Draws calls that are mostly good in the tree as it stands.
use crate::draws::both::{Drawn, Known};
use crate::draws::names::Name;
use crate::draws::random::Drawing;
use crate::draws::small_forms::Form;
use crate::judge::PlainTree;
use chance::Random;
use kinds::Kind;
use model::{Call, Decision, Header, MAX_INTERFACES};

pub mod property;
pub mod rule;

// What calls are drawn from.
#[derive(Clone, Copy)]
pub struct Draw<'a, A: Kind, R: Kind> {
    pub form: &'a Form<A, R>,
    pub tree: &'a PlainTree,
}

pub type DrawnOf<A, R> = Drawn<A, R, <A as Kind>::Value, <R as Kind>::Value>;

fn interface(random: &mut Random) -> u32 {
    if random.once_in(32) {
        return MAX_INTERFACES;
    }
    random.word() % MAX_INTERFACES
}

// Discard once in so many times.
fn decision(random: &mut Random, times: usize) -> Decision {
    if random.once_in(times) {
        Decision::Discard
    } else {
        Decision::Accept
    }
}

impl<A: Kind, R: Kind> Draw<'_, A, R> {
    // A call of this name; nothing where a form has no values.
    pub(crate) fn call(&self, random: &mut Random, name: Name) -> Option<DrawnOf<A, R>> {
        Some(match name {
            Name::Attach => self.attach(random),
            Name::Branch => self.branch(random),
            Name::Give => self.give(random),
            Name::Take => Call::Take {
                block: self.block_to_take(random),
            },
            Name::Place => self.place(random),
            Name::Alter => self.alter(random),
            Name::Lift => self.lift(random),
            Name::Stand => Call::Stand {
                property: self.property(random),
            },
            Name::Withdraw => Call::Withdraw {
                property: random.number(self.tree.properties.len()),
            },
            Name::Ask => Call::Ask {
                property: self.property(random),
            },
            Name::Send => self.send(random)?,
        })
    }

    // Often below the newest domain, so that some lie deep.
    fn attach(&self, random: &mut Random) -> DrawnOf<A, R> {
        let count = self.tree.domains.len();
        let domain = if random.once_in(3) {
            count.saturating_sub(1)
        } else {
            random.number(count)
        };
        Call::Attach {
            domain,
            upper: interface(random),
            lower: interface(random),
            decision: decision(random, 6),
        }
    }

    fn branch(&self, random: &mut Random) -> DrawnOf<A, R> {
        Call::Branch {
            firewall: random.number(self.tree.firewalls.len()),
            interface: interface(random),
        }
    }

    // Mostly a region of addresses that no block holds.
    fn give(&self, random: &mut Random) -> DrawnOf<A, R> {
        let domain = random.number(self.tree.domains.len());
        let free = self.tree.addresses_of(0);
        Call::Give {
            domain: if random.once_in(8) {
                domain
            } else {
                domain.max(1)
            },
            region: self.block(random, free),
        }
    }

    fn block(&self, random: &mut Random, free: u128) -> Known<A> {
        let pool = &self.form.addresses;
        match random.below(8) {
            0 => pool.any(random),
            1 | 2 => pool.within(random, free),
            _ => match pool.single(random, free) {
                Some(single) => single,
                None => pool.inside(random),
            },
        }
    }

    // Often one of several addresses, so that there is room for more blocks.
    fn block_to_take(&self, random: &mut Random) -> usize {
        let blocks = &self.tree.blocks;
        let wide = blocks
            .iter()
            .position(|block| block.addresses.count_ones() > 1);
        match wide {
            Some(block) if random.once_in(2) => block,
            _ => random.number(blocks.len()),
        }
    }

    fn send(&self, random: &mut Random) -> Option<DrawnOf<A, R>> {
        let source = self.form.addresses.member(random)?;
        let destination = self.form.addresses.member(random)?;
        let rest = self.form.rests.member(random)?;
        Some(Call::Send {
            header: Header {
                source,
                destination,
                rest,
            },
        })
    }
}
