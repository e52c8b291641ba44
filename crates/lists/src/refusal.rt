// Why a list is not made longer.

use thiserror::Error;

/// Why a list is not made longer: the first that applies.
#[derive(Clone, Copy, Debug, PartialEq, Eq, Error)]
pub enum ListRefusal {
    /// There is no such firewall.
    #[error("no such firewall")]
    NoSuch,
    /// There is no room for the rule, in the list or in the table.
    #[error("no room for the rule")]
    Full,
}
