// The two packet forms, in wholes so small that all their values can be gone over: 128 addresses, as many
// as there may be blocks, and four rests.
use crate::draws::addresses::{ADDRESSES, all_addresses, prefixes, ranges};
use crate::draws::pool::Pool;
use crate::draws::rests::{flat_rests, long_rests};
use forms::{FlatRest, LongRest, Prefix, Range};
use kinds::Kind;
use std::alloc::{AllocError, Global};

#[derive(Drop)]
pub struct Form<A: Kind, R: Kind> {
    pub name: &'static str,
    pub addresses: Pool<A>,
    pub rests: Pool<R>,
}

// Prefixes of 0.0.0.0/25.
pub(crate) fn long(heap: Global) -> Result<Form<Prefix, LongRest>, AllocError> {
    let values = all_addresses(heap)?;
    let regions = prefixes(heap)?;
    // The shortest comes first.
    let whole = regions.first().copied().unwrap_or_else(|| Prefix::all());
    Ok(Form {
        name: "long",
        addresses: Pool::new(heap, whole, &values, &regions)?,
        rests: long_rests(heap)?,
    })
}

// Ranges of 0 to 127.
pub(crate) fn flat(heap: Global) -> Result<Form<Range, FlatRest>, AllocError> {
    let values = all_addresses(heap)?;
    let regions = ranges(heap)?;
    let whole = Range::up_to(ADDRESSES - 1);
    Ok(Form {
        name: "flat",
        addresses: Pool::new(heap, whole, &values, &regions)?,
        rests: flat_rests(heap)?,
    })
}
