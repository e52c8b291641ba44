// The eleven calls of the register.
use crate::rules::{Decision, Header, Property, Rule};

/// A call. `A` and `R` are kinds of addresses and of the rest, `V` and `W` their values. Domains,
/// firewalls, positions, blocks and properties are numbered from 0.
#[derive(Clone, Copy)]
pub enum Call<A, R, V, W> {
    /// Hangs a new firewall below a domain and a new domain below that.
    Attach {
        domain: usize,
        upper: u32,
        lower: u32,
        decision: Decision,
    },
    /// Hangs a new domain below a firewall.
    Branch {
        firewall: usize,
        interface: u32,
    },
    /// Gives a block of addresses to a domain.
    Give {
        domain: usize,
        region: A,
    },
    /// Takes a block back.
    Take {
        block: usize,
    },
    /// Inserts a rule into a firewall's list, at a position.
    Place {
        firewall: usize,
        position: usize,
        rule: Rule<A, R>,
    },
    /// Replaces a rule of a firewall's list.
    Alter {
        firewall: usize,
        position: usize,
        rule: Rule<A, R>,
    },
    /// Removes a rule from a firewall's list.
    Lift {
        firewall: usize,
        position: usize,
    },
    /// Declares a property standing.
    Stand {
        property: Property<A, R>,
    },
    /// Declares that a property stands no longer.
    Withdraw {
        property: usize,
    },
    /// Whether a property would hold.
    Ask {
        property: Property<A, R>,
    },
    /// What becomes of a packet on its way.
    Send {
        header: Header<V, W>,
    },
}
