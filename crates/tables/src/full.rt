// The error of what has no room left.

use thiserror::Error;

/// There is no room left.
#[derive(Clone, Copy, Debug, PartialEq, Eq, Error)]
#[error("no room left")]
pub struct Full;
