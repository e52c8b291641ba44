// What a call must answer, in a tree.
use crate::judge::answers::{Fixed, Judged, Proof};
use crate::judge::packets::decided;
use crate::judge::parts::{Lane, PlainCall, PlainPacket, PlainProperty, plain_property};
use crate::judge::plain_tree::PlainTree;
use crate::judge::values::value;
use model::{Call, Decision, Header, Lent};
use std::alloc::{AllocError, Global};

// A call in a tree, with the tree as it leaves it where it is not refused.
#[derive(Clone, Copy)]
pub struct Case<'a> {
    pub heap: Global,
    pub before: &'a PlainTree,
    pub after: &'a PlainTree,
}

impl Case<'_> {
    // The first refusal of the table that applies, or else what the call says.
    pub(crate) fn judge(&self, call: PlainCall, lent: Lent) -> Result<Judged, AllocError> {
        if let Some(number) = self.before.early_refusal(call, lent) {
            return Ok(Judged::plain(Fixed::Refused { number }));
        }
        match call {
            Call::Attach { .. } => Ok(Judged::plain(Fixed::Attached {
                firewall: self.before.firewalls.len(),
                domain: self.before.domains.len(),
            })),
            Call::Branch { .. } => Ok(Judged::plain(Fixed::Branched {
                domain: self.before.domains.len(),
            })),
            Call::Give { region, .. } => Ok(self.given(region.values)),
            Call::Take { .. } => Ok(self.moved()),
            Call::Place { .. } => self.edited(),
            Call::Alter { firewall, .. } | Call::Lift { firewall, .. } => self.thinned(firewall),
            Call::Stand { property } => self.offered(plain_property(property), true),
            Call::Withdraw { .. } => Ok(Judged::plain(Fixed::Done)),
            Call::Ask { property } => self.offered(plain_property(property), false),
            Call::Send { header } => self.sent(header),
        }
    }

    // 6, and what moved blocks are refused for.
    fn given(&self, region: u128) -> Judged {
        let overlap = self
            .before
            .blocks
            .iter()
            .position(|block| block.addresses & region != 0);
        match overlap {
            Some(block) => Judged::plain(Fixed::Overlap { block }),
            None => self.moved(),
        }
    }

    // 11: blocks that moved misplace no property.
    fn moved(&self) -> Judged {
        match self.after.first_misplaced() {
            Some((property, astray)) => Judged {
                fixed: Fixed::Misplaced { property },
                proof: Proof::Address(astray),
            },
            None => Judged::plain(Fixed::Done),
        }
    }

    // 10, and what edited lists are refused for.
    fn thinned(&self, firewall: usize) -> Result<Judged, AllocError> {
        if self.after.is_incomplete(self.after.rules(firewall)) {
            return Ok(Judged {
                fixed: Fixed::Refused { number: 10 },
                proof: Proof::Unmatched { firewall },
            });
        }
        self.edited()
    }

    // 12: an edited list breaks no property.
    fn edited(&self) -> Result<Judged, AllocError> {
        let Some((number, entered)) = self.after.first_broken(self.heap)? else {
            return Ok(Judged::plain(Fixed::Done));
        };
        let Some(property) = self.after.properties.get(number) else {
            return Ok(Judged::plain(Fixed::Done));
        };
        Ok(Judged {
            fixed: Fixed::Breaks {
                property: number,
                firewall: entered.firewall,
            },
            proof: Proof::Breaks {
                property: *property,
                entered,
            },
        })
    }

    // 7, 8 and 9, and then what stand, or ask, says of the property.
    fn offered(&self, property: PlainProperty, stands: bool) -> Result<Judged, AllocError> {
        let source = self.before.source_astray(&property);
        let destination = self.before.destination_astray(&property);
        if self.before.is_misjoined(&property) {
            return Ok(Judged::plain(Fixed::Refused { number: 7 }));
        }
        if source != 0 {
            return Ok(Judged::astray(8, source));
        }
        if destination != 0 {
            return Ok(Judged::astray(9, destination));
        }
        let Some(entered) = self.before.first_break(self.heap, &property)? else {
            let fixed = if stands { Fixed::Done } else { Fixed::Kept };
            return Ok(Judged::plain(fixed));
        };
        let firewall = entered.firewall;
        let fixed = if stands {
            Fixed::Breaks {
                property: self.before.properties.len(),
                firewall,
            }
        } else {
            Fixed::Broken { firewall }
        };
        Ok(Judged {
            fixed,
            proof: Proof::Breaks { property, entered },
        })
    }

    // The first firewall on the way that discards the packet, with the rule that does.
    fn sent(&self, header: Header<u128, u128>) -> Result<Judged, AllocError> {
        let tree = self.before;
        let from = tree.owner(header.source);
        let to = tree.owner(header.destination);
        for entered in &tree.route(self.heap, from, to)? {
            let packet = PlainPacket {
                lane: Lane {
                    interface: value(entered.interface),
                    source: header.source,
                    rest: header.rest,
                },
                destination: header.destination,
            };
            let firewall = entered.firewall;
            if let Some((position, Decision::Discard)) = decided(tree.rules(firewall), packet) {
                return Ok(Judged::plain(Fixed::Stopped { firewall, position }));
            }
        }
        Ok(Judged::plain(Fixed::Passed))
    }
}
