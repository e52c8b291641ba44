// The rests of both forms, and regions of them: those of the whole, and some others.
use crate::draws::addresses::ranges_of;
use crate::draws::pool::Pool;
use forms::{FlatRest, LongRest, Range};
use kinds::{Pair, Set};
use std::alloc::{AllocError, Global};

// The ranges of 0 and 1, and one of 1 and 2, by their ends.
const SMALL: [(u32, u32); 4] = [(0, 0), (1, 1), (0, 1), (1, 2)];

// Source port, destination port and protocol, or regions of them.
fn long_rest<T>(from: T, to: T, protocol: T) -> Pair<T, Pair<T, T>> {
    Pair {
        left: from,
        right: Pair {
            left: to,
            right: protocol,
        },
    }
}

// Source ports 0 and 1, destination port 0, protocols 0 and 1.
pub(crate) fn long_rests(heap: Global) -> Result<Pool<LongRest>, AllocError> {
    let whole = long_rest(Range::up_to(1), Range::up_to(0), Range::up_to(1));
    let mut values = Vec::new(heap);
    for from in 0..3 {
        for to in 0..2 {
            for protocol in 0..3 {
                values.push(long_rest(from, to, protocol))?;
            }
        }
    }
    let small = ranges_of(heap, &SMALL)?;
    let mut regions = Vec::new(heap);
    for from in &small {
        for to in [Range::up_to(0), Range::up_to(1)] {
            for protocol in &small {
                regions.push(long_rest(*from, to, *protocol))?;
            }
        }
    }
    Pool::new(heap, whole, &values, &regions)
}

// Numbers 0 and 1, and flags 0 and 1.
pub(crate) fn flat_rests(heap: Global) -> Result<Pool<FlatRest>, AllocError> {
    let whole = Pair {
        left: Range::up_to(1),
        right: Set::up_to(1),
    };
    let mut values = Vec::new(heap);
    for left in 0..3 {
        for right in 0..3 {
            values.push(Pair { left, right })?;
        }
    }
    let mut regions = Vec::new(heap);
    for left in &ranges_of(heap, &SMALL)? {
        for mask in [1, 2, 3, 4, 6] {
            if let Some(right) = Set::new(mask) {
                regions.push(Pair { left: *left, right })?;
            }
        }
    }
    Pool::new(heap, whole, &values, &regions)
}
