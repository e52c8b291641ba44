// Packets of any form: the kinds that their parts have stand side by side.
ghost use Rattle.std.specs.Prelude.{◌≡◌, ◌<◌};
ghost use Rattle.kinds.specs.Words.{Exactly};
ghost use Rattle.kinds.specs.Set.{set_holds};

use crate::kind::Kind;
use crate::pair::Pair;
use crate::set::Set;

/// The regions of packets: interface, source, destination, rest.
pub type PacketRegion<A, R> = Pair<Set, Pair<A, Pair<A, R>>>;

/// The packets with their parts in these regions.
pub fn packet_region<A: Kind, R: Kind>(
    interfaces: Set,
    source: A,
    destination: A,
    rest: R,
) -> PacketRegion<A, R>
    ensures { result ≡ record { left = interfaces; right = record { left = source; right = record { left = destination; right = rest } } } }
{
    Pair {
        left: interfaces,
        right: Pair {
            left: source,
            right: Pair {
                left: destination,
                right: rest,
            },
        },
    }
}

/// All packets of a form, on every interface.
pub fn whole_packets<A: Kind, R: Kind>(addresses: A, rest: R) -> PacketRegion<A, R>
    ensures interfaces { Exactly (set_holds result.left) (λ v. v < 32) }
    ensures parts { result.right ≡ record { left = addresses; right = record { left = addresses; right = rest } } }
{
    packet_region(Set::up_to(31), addresses, addresses, rest)
}
