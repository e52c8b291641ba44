// What a list of rules, or the blocks, say of a property: found by the search.
#![tactic(auto)]

mod addresses;
mod packets;
mod rows;

pub use addresses::{domain_of, find_astray};
pub use packets::{find_break, find_unmatched};
pub use rows::{
    BlockRow, PacketRow, PropertyRow, RuleRow, block_row, property_row, read_property, rule_row,
};
