// What a call makes of the plain tree.
use crate::judge::parts::{ALL_INTERFACES, PlainCall, PlainRule, plain_property};
use crate::judge::plain_tree::{Joint, PlainBlock, PlainFirewall, PlainTree};
use model::{Call, Decision};
use std::alloc::{AllocError, Global};

// Takes an item out, if it is there.
fn take_out<T: Drop>(items: &mut Vec<T>, at: usize) {
    if at < items.len() {
        let _ = items.remove(at);
    }
}

impl PlainTree {
    // The tree as the call leaves it where it is not refused. A number that does not exist changes nothing.
    pub(crate) fn after(&self, heap: Global, call: PlainCall) -> Result<PlainTree, AllocError> {
        let mut tree = self.clone()?;
        match call {
            Call::Attach {
                domain,
                upper,
                lower,
                decision,
            } => tree.attach(heap, domain, upper, lower, decision)?,
            Call::Branch {
                firewall,
                interface,
            } => tree.branch(firewall, interface)?,
            Call::Give { domain, region } => tree.blocks.push(PlainBlock {
                domain,
                addresses: region.values,
            })?,
            Call::Take { block } => take_out(&mut tree.blocks, block),
            Call::Place {
                firewall,
                position,
                rule,
            } => tree.place(firewall, position, PlainRule::new(rule))?,
            Call::Alter {
                firewall,
                position,
                rule,
            } => tree.alter(firewall, position, PlainRule::new(rule)),
            Call::Lift { firewall, position } => tree.lift(firewall, position),
            Call::Stand { property } => tree.properties.push(plain_property(property))?,
            Call::Withdraw { property } => take_out(&mut tree.properties, property),
            Call::Ask { .. } | Call::Send { .. } => {}
        }
        Ok(tree)
    }

    fn attach(
        &mut self,
        heap: Global,
        domain: usize,
        upper: u32,
        lower: u32,
        decision: Decision,
    ) -> Result<(), AllocError> {
        let everything = PlainRule {
            interfaces: ALL_INTERFACES,
            source: self.wholes.addresses,
            destination: self.wholes.addresses,
            rest: self.wholes.rests,
            decision,
        };
        let firewall = self.firewalls.len();
        self.firewalls.push(PlainFirewall {
            above: domain,
            upper,
            rules: vec![in heap; everything]?,
        })?;
        self.branch(firewall, lower)
    }

    fn branch(&mut self, firewall: usize, interface: u32) -> Result<(), AllocError> {
        self.domains.push(Some(Joint {
            firewall,
            interface,
        }))?;
        Ok(())
    }

    fn place(&mut self, firewall: usize, at: usize, rule: PlainRule) -> Result<(), AllocError> {
        if let Some(found) = self.firewalls.get_mut(firewall)
            && at <= found.rules.len()
        {
            found.rules.insert(at, rule)?;
        }
        Ok(())
    }

    fn alter(&mut self, firewall: usize, at: usize, rule: PlainRule) {
        if let Some(found) = self.firewalls.get_mut(firewall)
            && let Some(old) = found.rules.get_mut(at)
        {
            *old = rule;
        }
    }

    fn lift(&mut self, firewall: usize, at: usize) {
        if let Some(found) = self.firewalls.get_mut(firewall) {
            take_out(&mut found.rules, at);
        }
    }
}
