// The tree of domains and firewalls, and the way from one domain to another.

/// Where a node hangs: the number of the node above it, and the interface. A firewall hangs below a
/// domain by its own upper interface, a domain below a firewall by an interface of that firewall.
#[derive(Clone, Copy)]
pub struct Uplink {
    pub node: usize,
    pub interface: u8,
}

/// One firewall on the way: the interfaces it is entered and left by, and the domain reached.
#[derive(Clone, Copy)]
pub struct Hop {
    pub firewall: usize,
    pub entered: u8,
    pub left: u8,
    pub reached: usize,
}
