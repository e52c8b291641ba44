// Properties that may stand.
use super::{Draw, decision};
use crate::draws::both::Known;
use crate::draws::random::Drawing;
use chance::Random;
use kinds::Kind;
use model::{Decision, Property};

// The sort of a property, and the domains that it is between.
#[derive(Clone, Copy)]
struct Ends {
    sort: Decision,
    from: usize,
    to: usize,
}

impl<A: Kind, R: Kind> Draw<'_, A, R> {
    // Its regions are mostly of its domains.
    pub(crate) fn property(&self, random: &mut Random) -> Property<Known<A>, Known<R>> {
        let ends = self.ends(random);
        let source = match ends.sort {
            Decision::Accept => self.region_of(random, ends.from),
            Decision::Discard => self.form.addresses.any(random),
        };
        Property {
            sort: ends.sort,
            from: ends.from,
            to: ends.to,
            source,
            destination: self.region_of(random, ends.to),
            rest: self.form.rests.any(random),
        }
    }

    fn region_of(&self, random: &mut Random, domain: usize) -> Known<A> {
        if random.once_in(16) {
            return self.form.addresses.any(random);
        }
        let addresses = self.tree.addresses_of(domain);
        self.form.addresses.within(random, addresses)
    }

    fn ends(&self, random: &mut Random) -> Ends {
        match random.below(8) {
            0 => self.any_ends(random),
            1 | 2 => match self.neighbours(random) {
                Some(ends) => ends,
                None => self.any_ends(random),
            },
            _ => self.apart(random),
        }
    }

    fn any_ends(&self, random: &mut Random) -> Ends {
        let count = self.tree.domains.len();
        Ends {
            sort: decision(random, 2),
            from: random.number(count),
            to: random.number(count),
        }
    }

    // Two domains that have addresses, and differ if not all addresses are of one.
    fn apart(&self, random: &mut Random) -> Ends {
        let all = self.form.addresses.whole.plain.values;
        let from = self.owner_of_one(random, all);
        let others = all & !self.tree.addresses_of(from);
        Ends {
            sort: Decision::Accept,
            from,
            to: self.owner_of_one(random, others),
        }
    }

    // The domain of one of these addresses.
    fn owner_of_one(&self, random: &mut Random, addresses: u128) -> usize {
        match random.value(addresses) {
            Some(address) => self.tree.owner(address),
            None => 0,
        }
    }

    // Two domains that are joined to one firewall, or one of them twice.
    fn neighbours(&self, random: &mut Random) -> Option<Ends> {
        let firewall = random.number(self.tree.firewalls.len());
        Some(Ends {
            sort: Decision::Discard,
            from: self.joined_to(random, firewall)?,
            to: self.joined_to(random, firewall)?,
        })
    }

    // A domain that is joined to the firewall.
    fn joined_to(&self, random: &mut Random, firewall: usize) -> Option<usize> {
        let count = self.tree.domains.len();
        let first = random.below(count);
        (first..count)
            .chain(0..first)
            .find(|domain| self.tree.is_joined(firewall, *domain))
    }
}
