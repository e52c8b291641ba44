// How large the tree became.
use crate::judge::PlainTree;
use model::{MAX_BLOCKS, MAX_DOMAINS, MAX_LIST, MAX_PROPERTIES, MAX_RULES};
use std::fmt;

#[derive(Clone, Copy, PartialEq, Default)]
pub struct Sizes {
    pub domains: usize,
    pub blocks: usize,
    pub properties: usize,
    // Rules in the longest list, and in all.
    pub list: usize,
    pub rules: usize,
}

// The largest that they may be.
pub const LIMITS: Sizes = Sizes {
    domains: MAX_DOMAINS,
    blocks: MAX_BLOCKS,
    properties: MAX_PROPERTIES,
    list: MAX_LIST,
    rules: MAX_RULES,
};

impl fmt::Display for Sizes {
    fn fmt<W: fmt::Write>(&self, f: &mut fmt::Formatter<W>) -> fmt::Result {
        let Sizes {
            domains,
            blocks,
            properties,
            list,
            rules,
        } = self;
        write!(
            f,
            "{domains} domains, {blocks} blocks, {properties} properties, {list} rules in a list, {rules} in all"
        )
    }
}

impl Sizes {
    pub(crate) fn of(tree: &PlainTree) -> Sizes {
        let list = tree
            .firewalls
            .iter()
            .fold(0, |most: usize, firewall| most.max(firewall.rules.len()));
        Sizes {
            domains: tree.domains.len(),
            blocks: tree.blocks.len(),
            properties: tree.properties.len(),
            list,
            rules: tree.rule_count(),
        }
    }

    // The larger of each.
    pub(crate) fn max(self, other: Sizes) -> Sizes {
        Sizes {
            domains: self.domains.max(other.domains),
            blocks: self.blocks.max(other.blocks),
            properties: self.properties.max(other.properties),
            list: self.list.max(other.list),
            rules: self.rules.max(other.rules),
        }
    }
}
