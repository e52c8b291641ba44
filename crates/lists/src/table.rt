// The lists of all firewalls lie one after another, in firewall order, in one table of rows.
ghost use Rattle.std.specs.Prelude.{◌≤◌, sum};
ghost use Rattle.model.specs.Limits.{max_rules};
ghost use Rattle.tables.specs.FixedVec.{used};
ghost use Rattle.lists.specs.Rules.{Short};

use model::MAX_DOMAINS;
use tables::FixedVec;

pub mod edit;
pub mod read;

// There are no more firewalls than domains other than 0.
pub(crate) const ROWS: usize = MAX_DOMAINS - 1;

/// How long the list of each firewall is.
#[derive(Drop)]
pub struct ListTable {
    lengths: FixedVec<usize, ROWS>,
    ghost short: { Short (used lengths) },
    ghost room: { sum (used lengths) ≤ max_rules },
}
