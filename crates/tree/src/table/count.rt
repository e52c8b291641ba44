// How large a tree is.
ghost use Rattle.std.specs.Prelude.{◌≡◌, suc, length};
ghost use Rattle.tree.specs.Table.{shape_of};

use super::TreeTable;

impl TreeTable {
    /// How many domains there are, domain 0 among them.
    pub fn domain_count(&self) -> usize
        ensures { result ≡ suc (length (shape_of self.now).domains) }
    {
        self.domains.len() + 1
    }

    /// How many firewalls there are.
    pub fn firewall_count(&self) -> usize
        ensures { result ≡ length (shape_of self.now).firewalls }
    {
        self.firewalls.len()
    }
}
