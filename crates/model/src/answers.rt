// What the register answers, and what a guard writes down of each call.
ghost use Rattle.std.specs.Prelude.{◌≡◌};
ghost use Rattle.model.specs.Refusals.{number};

use crate::calls::Call;
use crate::rules::Packet;
use thiserror::Error;

/// Why a call is refused, with the values that show it.
#[derive(Clone, Copy, Debug, Error)]
pub enum Refusal<V, W> {
    /// One of the five slices has too few rows.
    #[error("a lent slice has too few rows")]
    TooShort,
    /// Something named is not there (a domain, firewall, block, property or position), or domain 0 is given a block.
    #[error("something named is not there, or domain 0 is given a block")]
    NoSuch,
    /// A number too high for an interface, or one that the firewall uses already, or the same one twice.
    #[error("interface above 31, in use already, or named twice")]
    BadInterface,
    /// There would be too many domains, blocks, properties or rules.
    #[error("too many domains, blocks, properties or rules")]
    Full,
    /// A region or a packet is not inside the whole.
    #[error("region or packet not inside the whole")]
    Outside,
    /// The given region shares an address with this block.
    #[error("address shared with block {block}")]
    Overlap {
        block: usize,
    },
    /// A property from a domain to itself, or a discard between two that no firewall joins.
    #[error("property from a domain to itself, or a discard between two that no firewall joins")]
    Unjoined,
    /// This address of the property's source is not of its first domain.
    #[error("address of the property's source not of its first domain")]
    SourceAstray {
        address: V,
    },
    /// This address of the property's destination is not of its second domain.
    #[error("address of the property's destination not of its second domain")]
    DestinationAstray {
        address: V,
    },
    /// No rule would match this packet.
    #[error("packet that no rule would match")]
    Unmatched {
        packet: Packet<V, W>,
    },
    /// This standing property would have this address astray.
    #[error("property {property} would have an address astray")]
    Misplaced {
        property: usize,
        address: V,
    },
    /// This packet would break this property at this firewall.
    #[error("property {property} would be broken at firewall {firewall}")]
    Breaks {
        property: usize,
        firewall: usize,
        packet: Packet<V, W>,
    },
}

impl<V, W> Refusal<V, W> {
    /// The refusal's number in the table, 1 to 12. A reply names it so; code matches the cases.
    pub fn number(&self) -> u8
        ensures { result ≡ number self.now }
    {
        match self {
            Refusal::TooShort => 1,
            Refusal::NoSuch => 2,
            Refusal::BadInterface => 3,
            Refusal::Full => 4,
            Refusal::Outside => 5,
            Refusal::Overlap { .. } => 6,
            Refusal::Unjoined => 7,
            Refusal::SourceAstray { .. } => 8,
            Refusal::DestinationAstray { .. } => 9,
            Refusal::Unmatched { .. } => 10,
            Refusal::Misplaced { .. } => 11,
            Refusal::Breaks { .. } => 12,
        }
    }
}

/// What the register answers to a call.
#[derive(Clone, Copy)]
pub enum Answer<V, W> {
    /// The call is done, and has nothing to tell: a give, take, place, alter, lift, stand or withdraw.
    Done,
    /// The numbers of the new firewall and the new domain.
    Attached {
        firewall: usize,
        domain: usize,
    },
    /// The number of the new domain.
    Branched {
        domain: usize,
    },
    /// No packet would break the property that was asked about.
    Kept,
    /// This packet would break it, first at this firewall.
    Broken {
        firewall: usize,
        packet: Packet<V, W>,
    },
    /// No firewall on its way discards the packet that was sent.
    Passed,
    /// This firewall discards it, the first on the way, by the rule at this position.
    Stopped {
        firewall: usize,
        position: usize,
    },
    /// The call is refused, and changes nothing.
    Refused {
        refusal: Refusal<V, W>,
    },
}

/// The lengths of the slices lent to a call.
#[derive(Clone, Copy)]
pub struct Lent {
    pub rules: usize,
    pub blocks: usize,
    pub properties: usize,
    pub packet_frames: usize,
    pub address_frames: usize,
}

/// One entry of a record.
#[derive(Clone, Copy)]
pub struct Recorded<A, R, V, W> {
    pub call: Call<A, R, V, W>,
    pub lent: Lent,
    pub answer: Answer<V, W>,
}
