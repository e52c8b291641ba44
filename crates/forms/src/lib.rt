// The packet forms Long and Flat, and the field kinds that they are made of beside the sets:
// ranges and prefixes.
#![tactic(auto)]

mod flat;
mod long;
mod prefix;
mod range;

pub use flat::{FlatRest, flat_addresses, flat_rest};
pub use long::{LongRest, long_addresses, long_rest};
pub use prefix::{Prefix, PrefixRow};
pub use range::{Range, RangeRow};
