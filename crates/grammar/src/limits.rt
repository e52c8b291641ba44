// The limits of a line.

/// Bytes of a line.
pub const MAX_LINE: usize = 200;

// A line's bytes are from the first of these to the last.
pub(crate) const FIRST_PRINTED: u8 = b' ';

pub(crate) const LAST_PRINTED: u8 = b'~';

/// The highest number of a line but those of protocols: ports, and what is counted from 0.
pub const MAX_NUMBER: u32 = 65535;

/// The highest protocol.
pub const MAX_PROTOCOL: u32 = 255;

/// Fields of a line behind its letter: a rule has the most, firewall, position, decision and interfaces, and
/// five of its region.
pub const MAX_FIELDS: usize = 9;
