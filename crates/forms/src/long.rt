// The Long form of packets: prefixes for addresses, two ports and a protocol for the rest.
ghost use Rattle.std.specs.Prelude.{◌^◌, ◌<◌, ◌≤◌};
ghost use Rattle.kinds.specs.Words.{Exactly};
ghost use Rattle.forms.specs.Prefix.{prefix_holds};
ghost use Rattle.forms.specs.Range.{range_holds};

use crate::prefix::Prefix;
use crate::range::Range;
use kinds::Pair;

/// The rest of a Long packet: source port, destination port, protocol. Its addresses are prefixes.
pub type LongRest = Pair<Range, Pair<Range, Range>>;

/// All addresses of the Long form.
pub fn long_addresses() -> Prefix
    ensures { Exactly (prefix_holds result) (λ v. v < 2 ^ 32) }
{
    Prefix::all()
}

/// All ports and protocols of the Long form.
pub fn long_rest() -> LongRest
    ensures ports { (Exactly (range_holds result.left) (λ v. v ≤ 65535)) × (Exactly (range_holds result.right.left) (λ v. v ≤ 65535)) }
    ensures protocols { Exactly (range_holds result.right.right) (λ v. v ≤ 255) }
{
    let ports = Range::up_to(65535);
    Pair {
        left: ports,
        right: Pair {
            left: ports,
            right: Range::up_to(255),
        },
    }
}
