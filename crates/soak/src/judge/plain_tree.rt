// The plain tree.
use crate::judge::parts::{PlainProperty, PlainRule};
use std::alloc::{AllocError, Global};

// All addresses, and all rests.
#[derive(Clone, Copy)]
pub struct Wholes {
    pub addresses: u128,
    pub rests: u128,
}

// A firewall: the domain above it, its upper interface, and its list.
#[derive(Clone, Drop)]
pub struct PlainFirewall {
    pub above: usize,
    pub upper: u32,
    pub rules: Vec<PlainRule>,
}

// Where a domain lies: below this firewall, by this interface.
#[derive(Clone, Copy)]
pub struct Joint {
    pub firewall: usize,
    pub interface: u32,
}

#[derive(Clone, Copy)]
pub struct PlainBlock {
    pub domain: usize,
    pub addresses: u128,
}

// Each by its number. Domain 0 lies nowhere.
#[derive(Clone, Drop)]
pub struct PlainTree {
    pub wholes: Wholes,
    pub firewalls: Vec<PlainFirewall>,
    pub domains: Vec<Option<Joint>>,
    pub blocks: Vec<PlainBlock>,
    pub properties: Vec<PlainProperty>,
}

impl PlainTree {
    // Domain 0 alone.
    pub(crate) fn new(heap: Global, wholes: Wholes) -> Result<PlainTree, AllocError> {
        Ok(PlainTree {
            wholes,
            firewalls: Vec::new(heap),
            domains: vec![in heap; None]?,
            blocks: Vec::new(heap),
            properties: Vec::new(heap),
        })
    }

    // The list of a firewall; empty where there is none of this number.
    pub(crate) fn rules(&self, firewall: usize) -> &[PlainRule] {
        match self.firewalls.get(firewall) {
            Some(found) => found.rules.as_slice(),
            None => &[],
        }
    }

    // How many rules there are in all.
    pub(crate) fn rule_count(&self) -> usize {
        self.firewalls.iter().fold(
            0,
            |all: usize, firewall| all.saturating_add(firewall.rules.len()),
        )
    }

    // Where a domain lies, if it is there and is not domain 0.
    pub(crate) fn joint(&self, domain: usize) -> Option<Joint> {
        *self.domains.get(domain)?
    }

    // Whether the domain is joined to the firewall, from above or from below.
    pub(crate) fn is_joined(&self, firewall: usize, domain: usize) -> bool {
        self.firewalls
            .get(firewall)
            .is_some_and(|found| found.above == domain)
            || self
                .joint(domain)
                .is_some_and(|joint| joint.firewall == firewall)
    }

    // Whether a domain is joined to the firewall by this interface.
    pub(crate) fn in_use(&self, firewall: usize, interface: u32) -> bool {
        self.firewalls
            .get(firewall)
            .is_some_and(|found| found.upper == interface)
            || self.domains.iter().any(|domain| {
                domain.is_some_and(|joint| {
                    joint.firewall == firewall && joint.interface == interface
                })
            })
    }
}
