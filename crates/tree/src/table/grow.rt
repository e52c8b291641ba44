// How a tree begins and grows.
ghost use Rattle.std.specs.Prelude.{◌≡◌, suc, ◌<◌, length};
ghost use Rattle.model.specs.Shape.{Domain, Firewall, bare, attached, branched};
ghost use Rattle.tree.specs.Table.{shape_of, Apart, Free, Attaches, Branches};

use super::TreeTable;
use crate::refusal::TreeRefusal;
use model::{MAX_DOMAINS, MAX_INTERFACES, Uplink};
use tables::FixedVec;

impl TreeTable {
    /// Domain 0 alone.
    pub fn new() -> TreeTable
        ensures { shape_of result ≡ bare }
    {
        // A blank, and no default: firewall 0 hangs below domain 0 by interface 0 in no new tree.
        let none = Uplink {
            node: 0,
            interface: 0,
        };
        TreeTable {
            firewalls: FixedVec::new(none),
            domains: FixedVec::new(none),
        }
    }

    /// Hangs a new firewall below a domain by its interface `upper`, and a new domain below that by
    /// `lower`; the numbers of the two.
    pub fn attach(
        &mut self,
        domain: usize,
        upper: u32,
        lower: u32,
    ) -> Result<(usize, usize), TreeRefusal>
        ensures { Attaches self.old domain upper lower result self.new }
    {
        if domain >= self.domain_count() {
            return Err(TreeRefusal::NoSuch);
        }
        if upper >= MAX_INTERFACES || lower >= MAX_INTERFACES || upper == lower {
            return Err(TreeRefusal::BadInterface);
        }
        if self.domain_count() >= MAX_DOMAINS {
            return Err(TreeRefusal::Full);
        }
        Ok(self.hang(domain, upper, lower))
    }

    /// Hangs a new domain below a firewall by its interface; the domain's number.
    pub fn branch(&mut self, firewall: usize, interface: u32) -> Result<usize, TreeRefusal>
        ensures { Branches self.old firewall interface result self.new }
    {
        if firewall >= self.firewall_count() {
            return Err(TreeRefusal::NoSuch);
        }
        if interface >= MAX_INTERFACES || self.in_use(firewall, interface) {
            return Err(TreeRefusal::BadInterface);
        }
        if self.domain_count() >= MAX_DOMAINS {
            return Err(TreeRefusal::Full);
        }
        Ok(self.add(firewall, interface))
    }

    // Writes the rows of a firewall and a domain below it.
    fn hang(&mut self, domain: usize, upper: u32, lower: u32) -> (usize, usize)
        requires domain { Domain (shape_of self.old) domain }
        requires apart { Apart upper lower }
        requires room { length (shape_of self.old).domains < 63 }
        ensures firewall { result.0 ≡ length (shape_of self.old).firewalls }
        ensures domain { result.1 ≡ suc (length (shape_of self.old).domains) }
        ensures shape { shape_of self.new ≡ attached (shape_of self.old) domain upper lower }
    {
        let firewall = self.firewalls.len();
        let below = self.domains.len() + 1;
        let upper = Uplink {
            node: domain,
            interface: upper as u8,
        };
        let lower = Uplink {
            node: firewall,
            interface: lower as u8,
        };
        self.firewalls.push(upper).unwrap();
        self.domains.push(lower).unwrap();
        (firewall, below)
    }

    // Writes the row of a domain.
    fn add(&mut self, firewall: usize, interface: u32) -> usize
        requires firewall { Firewall (shape_of self.old) firewall }
        requires free { Free (shape_of self.old) firewall interface }
        requires room { length (shape_of self.old).domains < 63 }
        ensures domain { result ≡ suc (length (shape_of self.old).domains) }
        ensures shape { shape_of self.new ≡ branched (shape_of self.old) firewall interface }
    {
        let below = self.domains.len() + 1;
        let lower = Uplink {
            node: firewall,
            interface: interface as u8,
        };
        self.domains.push(lower).unwrap();
        below
    }
}
