// Where each list lies.
ghost use Rattle.std.specs.Prelude.{◌≡◌, ◌≤◌, length, take, drop, sum};
ghost use Rattle.model.specs.Limits.{max_rules};
ghost use Rattle.lists.specs.Lengths.{lengths_of, length_at, start_of};

use super::ListTable;
use tables::{rows_from, used_rows};

impl ListTable {
    /// How many lists there are.
    pub fn count(&self) -> usize
        ensures { result ≡ length (lengths_of self.now) }
    {
        self.lengths.len()
    }

    /// How long the list of a firewall is, 0 where there is no such firewall.
    pub fn length(&self, firewall: usize) -> usize
        ensures { result ≡ length_at (lengths_of self.now) firewall }
    {
        self.lengths.get(firewall).unwrap_or(0)
    }

    /// The row that the list of a firewall starts at: as many rules are in the lists before it.
    pub fn start(&self, firewall: usize) -> usize
        ensures { result ≡ start_of (lengths_of self.now) firewall }
    {
        self.before(firewall).iter().sum()
    }

    /// How many rules there are in all.
    pub fn total(&self) -> usize
        ensures { result ≡ sum (lengths_of self.now) }
    {
        self.lengths.as_slice().iter().sum()
    }

    /// The rows of a firewall's list.
    pub fn rows_of<'a, T: Copy>(&self, rows: &'a [T], firewall: usize) -> &'a [T]
        ensures { result.now ≡ take (length_at (lengths_of self.now) firewall) (drop (start_of (lengths_of self.now) firewall) rows.now) }
    {
        rows_from(rows, self.start(firewall), self.length(firewall))
    }

    // The lengths of the lists before that of a firewall. A chain of `take` and `sum` did not prove.
    fn before(&self, firewall: usize) -> &[usize]
        ensures before { result.now ≡ take firewall (lengths_of self.now) }
        ensures few { sum result.now ≤ max_rules }
    {
        used_rows(self.lengths.as_slice(), firewall)
    }
}
