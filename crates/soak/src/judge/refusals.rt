// The first five lines of the refusal table: what is refused without a look at any packet.
use crate::judge::parts::{PlainCall, Region};
use crate::judge::plain_tree::PlainTree;
use model::{
    Call, Lent, MAX_BLOCKS, MAX_DOMAINS, MAX_INTERFACES, MAX_LIST, MAX_PROPERTIES, MAX_RULES,
    MIN_ADDRESS_FRAMES, MIN_PACKET_FRAMES, Property, Rule,
};

fn is_too_short(lent: Lent) -> bool {
    lent.rules < MAX_RULES
        || lent.blocks < MAX_BLOCKS
        || lent.properties < MAX_PROPERTIES
        || lent.packet_frames < MIN_PACKET_FRAMES
        || lent.address_frames < MIN_ADDRESS_FRAMES
}

fn is_rule_inside(rule: Rule<Region, Region>) -> bool {
    rule.source.inside && rule.destination.inside && rule.rest.inside
}

fn is_property_inside(property: Property<Region, Region>) -> bool {
    property.source.inside && property.destination.inside && property.rest.inside
}

// 5: some region of the call, or part of its packet, is not inside its whole.
fn is_outside(call: PlainCall) -> bool {
    match call {
        Call::Give { region, .. } => !region.inside,
        Call::Place { rule, .. } | Call::Alter { rule, .. } => !is_rule_inside(rule),
        Call::Stand { property } | Call::Ask { property } => !is_property_inside(property),
        Call::Send { header } => {
            header.source == 0 || header.destination == 0 || header.rest == 0
        }
        _ => false,
    }
}

impl PlainTree {
    // The number of the first of these lines that applies.
    pub(crate) fn early_refusal(&self, call: PlainCall, lent: Lent) -> Option<u8> {
        if is_too_short(lent) {
            Some(1)
        } else if self.names_no_such(call) {
            Some(2)
        } else if self.has_bad_interface(call) {
            Some(3)
        } else if self.is_full(call) {
            Some(4)
        } else if is_outside(call) {
            Some(5)
        } else {
            None
        }
    }

    fn has_domain(&self, domain: usize) -> bool {
        domain < self.domains.len()
    }

    fn has_rule(&self, firewall: usize, position: usize) -> bool {
        position < self.rules(firewall).len()
    }

    // 2: something that the call names does not exist, or domain 0 is given a block.
    fn names_no_such(&self, call: PlainCall) -> bool {
        match call {
            Call::Attach { domain, .. } => !self.has_domain(domain),
            Call::Branch { firewall, .. } => firewall >= self.firewalls.len(),
            Call::Give { domain, .. } => domain == 0 || !self.has_domain(domain),
            Call::Take { block } => block >= self.blocks.len(),
            Call::Place {
                firewall,
                position,
                ..
            } => { firewall >= self.firewalls.len() || position > self.rules(firewall).len() }
            Call::Alter {
                firewall,
                position,
                ..
            }
            | Call::Lift { firewall, position } => !self.has_rule(firewall, position),
            Call::Stand { property } | Call::Ask { property } => {
                !self.has_domain(property.from) || !self.has_domain(property.to)
            }
            Call::Withdraw { property } => property >= self.properties.len(),
            Call::Send { .. } => false,
        }
    }

    // 3: an interface is too large, in use there, or named twice.
    fn has_bad_interface(&self, call: PlainCall) -> bool {
        match call {
            Call::Attach { upper, lower, .. } => {
                upper >= MAX_INTERFACES || lower >= MAX_INTERFACES || upper == lower
            }
            Call::Branch {
                firewall,
                interface,
            } => interface >= MAX_INTERFACES || self.in_use(firewall, interface),
            _ => false,
        }
    }

    // 4: there would be too many of something.
    fn is_full(&self, call: PlainCall) -> bool {
        let no_domain = self.domains.len() >= MAX_DOMAINS;
        let no_rule = self.rule_count() >= MAX_RULES;
        match call {
            Call::Attach { .. } => no_domain || no_rule,
            Call::Branch { .. } => no_domain,
            Call::Give { .. } => self.blocks.len() >= MAX_BLOCKS,
            Call::Place { firewall, .. } => { no_rule || self.rules(firewall).len() >= MAX_LIST }
            Call::Stand { .. } => self.properties.len() >= MAX_PROPERTIES,
            _ => false,
        }
    }
}
