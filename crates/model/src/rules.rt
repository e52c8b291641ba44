// Rules, packets and properties. `A` is a kind of addresses and `R` a kind of the rest; `V` and `W`
// are their values.
ghost use Rattle.std.specs.Prelude.{◌≡◌};
ghost use Rattle.model.specs.Packets.{decision_number, entering, packet_of, value_of};

use kinds::{Pair, Set};

/// What a rule says of a packet, and a property of its packets.
#[derive(Clone, Copy, PartialEq, Debug)]
pub enum Decision {
    Accept,
    Discard,
}

// The outcome number of a decision, in a list as the search has it.
impl From<Decision> for u32 {
    ghost from_gives = { λ decision number. number ≡ decision_number decision };

    fn from(decision: Decision) -> u32 {
        match decision {
            Decision::Accept => 1,
            Decision::Discard => 0,
        }
    }
}

/// A rule of a firewall: the packets that it matches, and what becomes of them.
#[derive(Clone, Copy)]
pub struct Rule<A, R> {
    pub interfaces: Set,
    pub source: A,
    pub destination: A,
    pub rest: R,
    pub decision: Decision,
}

/// A packet as it comes to a firewall, by one of its interfaces.
#[derive(Clone, Copy, Debug)]
pub struct Packet<V, W> {
    pub interface: u8,
    pub source: V,
    pub destination: V,
    pub rest: W,
}

/// A packet as the search has it: its parts side by side.
pub type PacketValue<V, W> = Pair<u8, Pair<V, Pair<V, W>>>;

impl<V, W> From<PacketValue<V, W>> for Packet<V, W> {
    ghost from_gives = { λ value packet. packet ≡ packet_of value };

    fn from(value: PacketValue<V, W>) -> Packet<V, W> {
        Packet {
            interface: value.left,
            source: value.right.left,
            destination: value.right.right.left,
            rest: value.right.right.right,
        }
    }
}

impl<V, W> From<Packet<V, W>> for PacketValue<V, W> {
    ghost from_gives = { λ packet value. value ≡ value_of packet };

    fn from(packet: Packet<V, W>) -> PacketValue<V, W> {
        Pair {
            left: packet.interface,
            right: Pair {
                left: packet.source,
                right: Pair {
                    left: packet.destination,
                    right: packet.rest,
                },
            },
        }
    }
}

/// A packet without its interface.
#[derive(Clone, Copy)]
pub struct Header<V, W> {
    pub source: V,
    pub destination: V,
    pub rest: W,
}

impl<V, W> Header<V, W> {
    /// The packet that it is where it comes in by this interface.
    pub fn entering(self, interface: u8) -> Packet<V, W>
        ensures { result ≡ entering self interface }
    {
        Packet {
            interface,
            source: self.source,
            destination: self.destination,
            rest: self.rest,
        }
    }
}

/// What is declared standing: between two domains, the packets with their parts in these regions are
/// accepted, or discarded, by the firewalls on the way.
#[derive(Clone, Copy)]
pub struct Property<A, R> {
    pub sort: Decision,
    pub from: usize,
    pub to: usize,
    pub source: A,
    pub destination: A,
    pub rest: R,
}
