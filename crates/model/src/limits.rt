// The limits of a register, each once. The specs have them under the same words.

/// Rows that the table of rules must have, and rules in all.
pub const MAX_RULES: usize = 512;

/// Rules in one list.
pub const MAX_LIST: usize = 128;

/// Blocks of addresses.
pub const MAX_BLOCKS: usize = 128;

/// Standing properties.
pub const MAX_PROPERTIES: usize = 64;

/// Domains, domain 0 among them.
pub const MAX_DOMAINS: usize = 64;

/// Frames that the search of a list must have: more than its rules.
pub const MIN_PACKET_FRAMES: usize = 129;

/// Frames that the search of the blocks must have: more than there are blocks.
pub const MIN_ADDRESS_FRAMES: usize = 129;

/// Interfaces are numbered below this.
pub const MAX_INTERFACES: u32 = 32;
