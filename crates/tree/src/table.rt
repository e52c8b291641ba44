// The table of a tree: where each firewall and each domain hangs.
ghost use Rattle.std.specs.Prelude.{◌≤◌, length};
ghost use Rattle.tables.specs.FixedVec.{used};
ghost use Rattle.tree.specs.Rules.{Low, Hung, Below, Falling, Single, Lower};

use model::{MAX_DOMAINS, Uplink};
use tables::FixedVec;

pub mod climb;
pub mod count;
pub mod find;
pub mod grow;
pub mod read;

// A row for each domain but domain 0; there are no more firewalls than that.
pub(crate) const ROWS: usize = MAX_DOMAINS - 1;

/// The rows of the firewalls, and those of the domains after domain 0: domain k + 1 is in row k.
#[derive(Drop)]
pub struct TreeTable {
    firewalls: FixedVec<Uplink, ROWS>,
    domains: FixedVec<Uplink, ROWS>,
    ghost fewer: { length (used firewalls) ≤ length (used domains) },
    ghost hung: { Hung (used firewalls) (length (used firewalls)) (length (used domains)) },
    ghost below: { Below (used domains) (length (used domains)) (length (used firewalls)) },
    ghost falling: { Falling (used firewalls) (used domains) (length (used domains)) },
    ghost single: { Single (used domains) (length (used domains)) },
    ghost lower: { Lower (used firewalls) (used domains) (length (used domains)) },
    ghost low: { Low (used firewalls) (length (used firewalls)) },
    ghost lowest: { Low (used domains) (length (used domains)) },
}
