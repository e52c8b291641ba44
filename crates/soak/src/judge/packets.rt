// What becomes of packets in a list.
use crate::judge::parts::{ALL_INTERFACES, Lane, PlainPacket, PlainProperty, PlainRule};
use crate::judge::plain_tree::PlainTree;
use crate::judge::route::Entered;
use crate::judge::values::{Values, value};
use model::Decision;

// The destinations of a lane by what a list does with packets to them.
#[derive(Clone, Copy)]
struct Fates {
    accepted: u128,
    discarded: u128,
    unmatched: u128,
}

// Goes down a list with all packets of a lane to these destinations.
fn follow(rules: &[PlainRule], lane: Lane, destinations: u128) -> Fates {
    let mut fates = Fates {
        accepted: 0,
        discarded: 0,
        unmatched: destinations,
    };
    for rule in rules {
        if rule.takes(lane) {
            let matched = fates.unmatched & rule.destination;
            fates.unmatched ^= matched;
            match rule.decision {
                Decision::Accept => fates.accepted |= matched,
                Decision::Discard => fates.discarded |= matched,
            }
            if fates.unmatched == 0 {
                break;
            }
        }
    }
    fates
}

// The first rule that matches a packet, and its decision.
pub(crate) fn decided(rules: &[PlainRule], packet: PlainPacket) -> Option<(usize, Decision)> {
    rules
        .iter()
        .enumerate()
        .find(|(_, rule)| rule.matches(packet))
        .map(|(position, rule)| (position, rule.decision))
}

impl PlainTree {
    // Whether the list leaves some packet of the whole unmatched.
    pub(crate) fn is_incomplete(&self, rules: &[PlainRule]) -> bool {
        for interface in Values(ALL_INTERFACES) {
            for source in Values(self.wholes.addresses) {
                for rest in Values(self.wholes.rests) {
                    let lane = Lane {
                        interface,
                        source,
                        rest,
                    };
                    if follow(rules, lane, self.wholes.addresses).unmatched != 0 {
                        return true;
                    }
                }
            }
        }
        false
    }

    // Whether this packet of the whole is unmatched in the list.
    pub(crate) fn leaves_unmatched(&self, rules: &[PlainRule], packet: PlainPacket) -> bool {
        packet.lane.interface & ALL_INTERFACES != 0
            && packet.lane.source & self.wholes.addresses != 0
            && packet.destination & self.wholes.addresses != 0
            && packet.lane.rest & self.wholes.rests != 0
            && decided(rules, packet).is_none()
    }

    // Whether some packet breaks the property at the firewall, entered so.
    pub(crate) fn breaks_at(&self, property: &PlainProperty, entered: Entered) -> bool {
        let rules = self.rules(entered.firewall);
        for source in Values(property.source) {
            for rest in Values(property.rest) {
                let lane = Lane {
                    interface: value(entered.interface),
                    source,
                    rest,
                };
                let fates = follow(rules, lane, property.destination);
                let against = match property.sort {
                    Decision::Accept => fates.discarded,
                    Decision::Discard => fates.accepted,
                };
                if against != 0 {
                    return true;
                }
            }
        }
        false
    }

    // Whether this packet does.
    pub(crate) fn is_broken_by(
        &self,
        property: &PlainProperty,
        entered: Entered,
        packet: PlainPacket,
    ) -> bool {
        packet.lane.interface == value(entered.interface)
            && packet.lane.source & property.source != 0
            && packet.lane.rest & property.rest != 0
            && packet.destination & property.destination != 0
            && decided(self.rules(entered.firewall), packet).is_some_and(|(_, decision)| decision
                != property.sort)
    }
}
