// Which addresses are of which domain, and which of a property's go astray.
use crate::judge::parts::PlainProperty;
use crate::judge::plain_tree::PlainTree;
use model::Decision;

impl PlainTree {
    // The domain of an address: that of the block that holds it, else domain 0.
    pub(crate) fn owner(&self, address: u128) -> usize {
        self.blocks
            .iter()
            .find(|block| block.addresses & address != 0)
            .map_or(0, |block| block.domain)
    }

    // The addresses of a domain.
    pub(crate) fn addresses_of(&self, domain: usize) -> u128 {
        if domain == 0 {
            let given = self.given(|_| true);
            return self.wholes.addresses & !given;
        }
        self.given(|owner| owner == domain)
    }

    // The addresses of the blocks that are given to such domains.
    fn given<F: Fn(usize) -> bool>(&self, wanted: F) -> u128
        requires { F.IsAlwaysCallable wanted }
    {
        let mut all = 0;
        for block in &self.blocks {
            if wanted(block.domain) {
                all |= block.addresses;
            }
        }
        all
    }

    // The addresses of an accept property's source that are not of its first domain. The source of
    // discard is free.
    pub(crate) fn source_astray(&self, property: &PlainProperty) -> u128 {
        match property.sort {
            Decision::Accept => property.source & !self.addresses_of(property.from),
            Decision::Discard => 0,
        }
    }

    // The addresses of its destination that are not of its second domain.
    pub(crate) fn destination_astray(&self, property: &PlainProperty) -> u128 {
        property.destination & !self.addresses_of(property.to)
    }

    // What refusal 11 may show of a property: an address of its source that goes astray or, if none does,
    // one of its destination.
    pub(crate) fn astray(&self, property: &PlainProperty) -> u128 {
        let source = self.source_astray(property);
        if source != 0 {
            source
        } else {
            self.destination_astray(property)
        }
    }

    // Whether both domains are joined to one firewall.
    fn are_neighbours(&self, one: usize, other: usize) -> bool {
        (0..self.firewalls.len()).any(|firewall| self.is_joined(firewall, one)
            && self.is_joined(firewall, other))
    }

    // Whether a property's domains are equal or, for discard, joined to no common firewall.
    pub(crate) fn is_misjoined(&self, property: &PlainProperty) -> bool {
        property.from == property.to
            || property.sort == Decision::Discard
                && !self.are_neighbours(property.from, property.to)
    }
}
