// Field kinds: what a part of a packet can be, and the regions that rules are written with.
#![tactic(auto)]

mod kind;
mod packets;
mod pair;
mod relation;
mod set;

pub use kind::Kind;
pub use packets::{PacketRegion, packet_region, whole_packets};
pub use pair::Pair;
pub use relation::{Relation, lies_inside, share_a_value};
pub use set::{Set, SetRow};
