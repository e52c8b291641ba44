// The route between two domains, found by their ways to domain 0: what both ways have in common is left
// out.
use crate::judge::plain_tree::PlainTree;
use std::alloc::{AllocError, Global};

// A firewall on a route, and the interface that it is entered by.
#[derive(Clone, Copy)]
pub struct Entered {
    pub firewall: usize,
    pub interface: u32,
}

impl PlainTree {
    // The firewall above a domain, as it is entered from that domain.
    fn entered_from_below(&self, domain: usize) -> Option<Entered> {
        let joint = self.joint(domain)?;
        Some(Entered {
            firewall: joint.firewall,
            interface: joint.interface,
        })
    }

    // The firewall above a domain, as it is entered from the domain above it.
    fn entered_from_above(&self, domain: usize) -> Option<Entered> {
        let firewall = self.joint(domain)?.firewall;
        Some(Entered {
            firewall,
            interface: self.firewalls.get(firewall)?.upper,
        })
    }

    // The domain above the firewall above a domain.
    fn above(&self, domain: usize) -> Option<usize> {
        let joint = self.joint(domain)?;
        Some(self.firewalls.get(joint.firewall)?.above)
    }

    // A domain and those above it, up to domain 0, which is left out.
    fn climb(&self, heap: Global, from: usize) -> Result<Vec<usize>, AllocError> {
        let mut way = Vec::new(heap);
        let mut domain = from;
        for _ in 0..self.domains.len() {
            let Some(above) = self.above(domain) else {
                break;
            };
            way.push(domain)?;
            domain = above;
        }
        Ok(way)
    }

    // The firewalls on the route from one domain to another.
    pub(crate) fn route(
        &self,
        heap: Global,
        from: usize,
        to: usize,
    ) -> Result<Vec<Entered>, AllocError> {
        let up = self.climb(heap, from)?;
        let down = self.climb(heap, to)?;
        let shared = up
            .iter()
            .rev()
            .zip(down.iter().rev())
            .take_while(|(one, other)| one == other)
            .count();
        let mut route = Vec::new(heap);
        for domain in up.iter().take(up.len().saturating_sub(shared)) {
            if let Some(entered) = self.entered_from_below(*domain) {
                route.push(entered)?;
            }
        }
        // Where both ways lead to one firewall, by two interfaces below it, it is entered once.
        let turn = route.last().map(|entered| entered.firewall);
        for domain in down.iter().rev().skip(shared) {
            if let Some(entered) = self.entered_from_above(*domain)
                && turn != Some(entered.firewall)
            {
                route.push(entered)?;
            }
        }
        Ok(route)
    }
}
