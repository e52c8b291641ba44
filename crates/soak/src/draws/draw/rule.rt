// Edits of lists.
use super::{Draw, DrawnOf, decision};
use crate::draws::both::Known;
use crate::draws::random::Drawing;
use chance::Random;
use kinds::{Kind, Set};
use model::{Call, Rule};

// Steps of a stair: about as many as there are regions, one in another, that hold one address.
const STEPS: usize = 7;

// All interfaces, one, or some.
fn interfaces(random: &mut Random) -> Set {
    let word = random.word();
    let drawn = match random.below(4) {
        0 => Set::single((word % 32) as u8),
        1 => Set::new(word),
        _ => None,
    };
    drawn.unwrap_or_else(|| Set::up_to(31))
}

fn interface_alone(random: &mut Random) -> Set {
    let number = (random.word() % 32) as u8;
    Set::single(number).unwrap_or_else(|| Set::up_to(31))
}

// The lower interfaces, or the upper: a list may be complete by two such rules.
fn half(random: &mut Random) -> Set {
    let mask = if random.once_in(2) {
        0xffff
    } else {
        0xffff_0000
    };
    Set::new(mask).unwrap_or_else(|| Set::up_to(31))
}

impl<A: Kind, R: Kind> Draw<'_, A, R> {
    // Often the first firewall, so that its list grows long.
    fn firewall(&self, random: &mut Random) -> usize {
        if random.once_in(3) {
            return 0;
        }
        random.number(self.tree.firewalls.len())
    }

    // Most rules of some lists are slabs, and of others steps of stairs.
    fn rule(&self, random: &mut Random, firewall: usize) -> Rule<Known<A>, Known<R>> {
        match (firewall % 3, random.below(4)) {
            (0, 0) | (1, 0..=2) => self.slab(random),
            (2, 0..=2) => self.step(random),
            _ => self.any_rule(random),
        }
    }

    fn any_rule(&self, random: &mut Random) -> Rule<Known<A>, Known<R>> {
        if random.once_in(6) {
            return self.wide_rule(random);
        }
        Rule {
            interfaces: interfaces(random),
            source: self.form.addresses.any(random),
            destination: self.form.addresses.any(random),
            rest: self.form.rests.any(random),
            decision: decision(random, 3),
        }
    }

    // Matches every packet.
    fn whole_rule(&self, random: &mut Random) -> Rule<Known<A>, Known<R>> {
        Rule {
            interfaces: Set::up_to(31),
            source: self.form.addresses.whole,
            destination: self.form.addresses.whole,
            rest: self.form.rests.whole,
            decision: decision(random, 6),
        }
    }

    // Matches every packet with one value in some part.
    fn slab(&self, random: &mut Random) -> Rule<Known<A>, Known<R>> {
        let mut rule = self.whole_rule(random);
        match random.below(8) {
            0 => rule.interfaces = interface_alone(random),
            1 => rule.rest = self.form.rests.one(random),
            2 | 3 | 4 => rule.source = self.form.addresses.one(random),
            _ => rule.destination = self.form.addresses.one(random),
        }
        rule
    }

    // A step of a stair: the wider its source, the narrower its destination.
    fn step(&self, random: &mut Random) -> Rule<Known<A>, Known<R>> {
        let addresses = &self.form.addresses;
        let step = random.below(STEPS);
        Rule {
            source: addresses.nested(step),
            destination: addresses.nested(STEPS - 1 - step),
            ..self.whole_rule(random)
        }
    }

    // Matches every packet, but for one part.
    fn wide_rule(&self, random: &mut Random) -> Rule<Known<A>, Known<R>> {
        let mut rule = self.whole_rule(random);
        match random.below(6) {
            0 => rule.source = self.form.addresses.inside(random),
            1 => rule.destination = self.form.addresses.inside(random),
            2 | 3 => rule.rest = self.form.rests.inside(random),
            _ => rule.interfaces = half(random),
        }
        rule
    }

    pub(crate) fn place(&self, random: &mut Random) -> DrawnOf<A, R> {
        let firewall = self.firewall(random);
        let places = self.tree.rules(firewall).len().saturating_add(1);
        Call::Place {
            firewall,
            position: random.number(places),
            rule: self.rule(random, firewall),
        }
    }

    pub(crate) fn alter(&self, random: &mut Random) -> DrawnOf<A, R> {
        let firewall = self.firewall(random);
        Call::Alter {
            firewall,
            position: random.number(self.tree.rules(firewall).len()),
            rule: self.rule(random, firewall),
        }
    }

    pub(crate) fn lift(&self, random: &mut Random) -> DrawnOf<A, R> {
        let firewall = self.firewall(random);
        Call::Lift {
            firewall,
            position: random.number(self.tree.rules(firewall).len()),
        }
    }
}
