// The parts of calls and answers, as the judge has them.
use crate::judge::values::{Values, value};
use kinds::{Kind, Set};
use model::{Answer, Call, Decision, MAX_INTERFACES, Packet, Property, Rule};

// A region: the values of the whole that it holds, and whether it holds no others.
#[derive(Clone, Copy)]
pub struct Region {
    pub values: u128,
    pub inside: bool,
}

// A value outside the whole is the empty set.
pub type PlainCall = Call<Region, Region, u128, u128>;

pub type PlainAnswer = Answer<u128, u128>;

// The regions of a property, as sets of values.
pub type PlainProperty = Property<u128, u128>;

// What a packet has besides its destination.
#[derive(Clone, Copy)]
pub struct Lane {
    pub interface: u128,
    pub source: u128,
    pub rest: u128,
}

#[derive(Clone, Copy)]
pub struct PlainPacket {
    pub lane: Lane,
    pub destination: u128,
}

impl PlainPacket {
    pub(crate) fn new(packet: Packet<u128, u128>) -> PlainPacket {
        PlainPacket {
            lane: Lane {
                interface: value(u32::from(packet.interface)),
                source: packet.source,
                rest: packet.rest,
            },
            destination: packet.destination,
        }
    }
}

#[derive(Clone, Copy)]
pub struct PlainRule {
    pub interfaces: u128,
    pub source: u128,
    pub destination: u128,
    pub rest: u128,
    pub decision: Decision,
}

// The interfaces of a set, found by asking of each.
fn plain_interfaces(set: Set) -> u128 {
    Values(ALL_INTERFACES)
        .filter(|interface| set.has(interface.trailing_zeros() as u8))
        .fold(0, |all, interface| all | interface)
}

pub const ALL_INTERFACES: u128 = (1 << MAX_INTERFACES) - 1;

impl PlainRule {
    pub(crate) fn new(rule: Rule<Region, Region>) -> PlainRule {
        PlainRule {
            interfaces: plain_interfaces(rule.interfaces),
            source: rule.source.values,
            destination: rule.destination.values,
            rest: rule.rest.values,
            decision: rule.decision,
        }
    }

    // Whether it matches packets of the lane, to its destinations.
    pub(crate) fn takes(&self, lane: Lane) -> bool {
        self.interfaces & lane.interface != 0
            && self.source & lane.source != 0
            && self.rest & lane.rest != 0
    }

    pub(crate) fn matches(&self, packet: PlainPacket) -> bool {
        self.takes(packet.lane) && self.destination & packet.destination != 0
    }
}

pub(crate) fn plain_property(property: Property<Region, Region>) -> PlainProperty {
    Property {
        sort: property.sort,
        from: property.from,
        to: property.to,
        source: property.source.values,
        destination: property.destination.values,
        rest: property.rest.values,
    }
}
