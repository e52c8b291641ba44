// Addresses of both forms, and regions of them: those of the whole, and some others.
use forms::{Prefix, Range};
use std::alloc::{AllocError, Global};

// How many addresses the wholes hold.
pub const ADDRESSES: u32 = 128;

// A prefix of the 128 addresses has at least so many bits.
const FEWEST_BITS: u8 = 25;

pub(crate) fn all_addresses(heap: Global) -> Result<Vec<u32>, AllocError> {
    let others = [128, 255, 500, 1000, 0x0a00_0000, u32::MAX];
    (0..ADDRESSES).chain(others.iter().copied()).collect(heap)
}

fn add_prefix(prefixes: &mut Vec<Prefix>, address: u32, length: u8) -> Result<(), AllocError> {
    if let Some(prefix) = Prefix::new(address, length) {
        prefixes.push(prefix)?;
    }
    Ok(())
}

// Every prefix of the 128 addresses, the shortest first, and others.
pub(crate) fn prefixes(heap: Global) -> Result<Vec<Prefix>, AllocError> {
    let mut prefixes = Vec::new(heap);
    for more in 0..8u8 {
        for number in 0..ADDRESSES {
            if number >> more == 0 {
                add_prefix(&mut prefixes, number << (7 - more), FEWEST_BITS + more)?;
            }
        }
    }
    let others = [(0, 0), (0, 24), (128, 25), (255, 32), (0x0a00_0000, 8)];
    for (address, length) in others {
        add_prefix(&mut prefixes, address, length)?;
    }
    Ok(prefixes)
}

// The ranges with these ends.
pub(crate) fn ranges_of(heap: Global, ends: &[(u32, u32)]) -> Result<Vec<Range>, AllocError> {
    ends.iter()
        .filter_map(|(lo, hi)| Range::new(*lo, *hi))
        .collect(heap)
}

// Ranges of up to 31 of the 128 addresses, and others.
pub(crate) fn ranges(heap: Global) -> Result<Vec<Range>, AllocError> {
    let mut ends = Vec::new(heap);
    for lo in 0..ADDRESSES {
        for more in [0, 0, 1, 2, 4, 7, 30u32] {
            ends.push((lo, lo.saturating_add(more).min(ADDRESSES - 1)))?;
        }
    }
    let others = [
        (100, 128),
        (128, 128),
        (0, 1000),
        (500, u32::MAX),
        (0, u32::MAX),
    ];
    for other in others {
        ends.push(other)?;
    }
    ranges_of(heap, &ends)
}
