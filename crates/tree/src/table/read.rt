// What a table says of its nodes.
ghost use Rattle.std.specs.Prelude.{◌≡◌, ℕ, Decides, MatchOption, Some};
ghost use Rattle.std.specs.List.{slice_get};
ghost use Rattle.model.specs.Shape.{Lies, Joined};
ghost use Rattle.tree.specs.Table.{shape_of};

use super::TreeTable;
use model::Uplink;

// Whether a row leads to the node by the interface.
fn has_row(rows: &[Uplink], node: usize, interface: u32) -> bool
    ensures { Decides result ((k : ℕ) × slice_get rows.now k ≡ Some (record { node = node; interface = interface })) }
{
    rows.iter().any(|row| row.node == node && u32::from(row.interface) == interface)
}

impl TreeTable {
    /// Where a firewall hangs, if there is one of this number.
    pub fn firewall_uplink(&self, firewall: usize) -> Option<Uplink>
        ensures { result ≡ slice_get (shape_of self.now).firewalls firewall }
    {
        self.firewalls.get(firewall)
    }

    /// Where a domain lies; nothing for domain 0, and where there is none of this number. It is no twin of
    /// the last: domain k is in row k - 1, and domain 0 has none.
    pub fn domain_uplink(&self, domain: usize) -> Option<Uplink>
        ensures { MatchOption result ((f i : ℕ) → Lies (shape_of self.now) domain f i → ⊥) (λ u. Lies (shape_of self.now) domain u.node u.interface) }
    {
        let row = domain.checked_sub(1)?;
        self.domains.get(row)
    }

    /// The interface by which a firewall and a domain are joined, if they are.
    pub fn is_joined(&self, firewall: usize, domain: usize) -> Option<u8>
        ensures { MatchOption result ((i : ℕ) → Joined (shape_of self.now) firewall domain i → ⊥) (λ i. Joined (shape_of self.now) firewall domain i) }
    {
        let upper = self.firewall_uplink(firewall)?;
        if upper.node == domain {
            return Some(upper.interface);
        }
        let lower = self.domain_uplink(domain)?;
        if lower.node == firewall {
            Some(lower.interface)
        } else {
            None
        }
    }

    /// Whether some domain is joined to the firewall by this interface.
    pub fn in_use(&self, firewall: usize, interface: u32) -> bool
        ensures { Decides result ((d : ℕ) × Joined (shape_of self.now) firewall d interface) }
    {
        let Some(upper) = self.firewall_uplink(firewall) else {
            return false;
        };
        u32::from(upper.interface) == interface
            || has_row(self.domains.as_slice(), firewall, interface)
    }

    /// A firewall that both domains are joined to, if there is one.
    pub fn shared_firewall(&self, one: usize, other: usize) -> Option<usize>
        ensures { MatchOption result ((f i j : ℕ) → Joined (shape_of self.now) f one i → Joined (shape_of self.now) f other j → ⊥) (λ f. (i : ℕ) × (j : ℕ) × Joined (shape_of self.now) f one i × Joined (shape_of self.now) f other j) }
    {
        (0..self.firewall_count()).find(|firewall| self.is_shared(*firewall, one, other))
    }

    // Whether both domains are joined to the firewall.
    fn is_shared(&self, firewall: usize, one: usize, other: usize) -> bool
        ensures { Decides result ((i : ℕ) × (j : ℕ) × Joined (shape_of self.now) firewall one i × Joined (shape_of self.now) firewall other j) }
    {
        self.is_joined(firewall, one).is_some() && self.is_joined(firewall, other).is_some()
    }
}
