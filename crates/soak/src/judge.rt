// A judge of the register's answers. It holds the plain tree, each region as the set of the values that
// it holds, and works out by plain enumeration what a call must answer. It shares no code with the
// register: of the crates below it takes the words of calls and answers alone.
mod after;
mod answers;
mod case;
mod owners;
mod packets;
mod parts;
mod plain_tree;
mod refusals;
mod route;
mod standing;
mod values;

pub(crate) use answers::{Fixed, Judged};
pub(crate) use case::Case;
pub(crate) use parts::{PlainAnswer, PlainCall, Region};
pub(crate) use plain_tree::{PlainTree, Wholes};
pub(crate) use values::{Values, value};
