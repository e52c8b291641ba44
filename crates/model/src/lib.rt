// The vocabulary of the register: rules, packets, properties, calls, answers and refusals. What
// they mean is in this crate's specs.
#![tactic(auto)]

mod answers;
mod calls;
mod limits;
mod path;
mod rules;
mod theorems;

pub use answers::{Answer, Lent, Recorded, Refusal};
pub use calls::Call;
pub use limits::{
    MAX_BLOCKS, MAX_DOMAINS, MAX_INTERFACES, MAX_LIST, MAX_PROPERTIES, MAX_RULES,
    MIN_ADDRESS_FRAMES, MIN_PACKET_FRAMES,
};
pub use path::{Hop, Uplink};
pub use rules::{Decision, Header, Packet, PacketValue, Property, Rule};
pub use theorems::{
    addresses_have_one_domain, complete_lists_decide_once, edits_break_there_only,
    lawful_records_can_be_cut_short, refusals_agree, right_entries_keep_records_lawful,
    routes_are_unique,
};
