// The Flat form of packets: ranges for addresses, a number and flags for the rest.
ghost use Rattle.std.specs.Prelude.{◌≤◌};
ghost use Rattle.kinds.specs.Words.{Exactly};
ghost use Rattle.kinds.specs.Set.{set_holds};
ghost use Rattle.forms.specs.Range.{range_holds};

use crate::range::Range;
use kinds::{Pair, Set};

/// The rest of a Flat packet: a number and a set. Its addresses are ranges.
pub type FlatRest = Pair<Range, Set>;

/// All addresses of the Flat form.
pub fn flat_addresses() -> Range
    ensures { Exactly (range_holds result) (λ v. v ≤ 1000) }
{
    Range::up_to(1000)
}

/// All rests of the Flat form.
pub fn flat_rest() -> FlatRest
    ensures numbers { Exactly (range_holds result.left) (λ v. v ≤ 1000) }
    ensures flags { Exactly (set_holds result.right) (λ v. v ≤ 1) }
{
    Pair {
        left: Range::up_to(1000),
        right: Set::up_to(1),
    }
}
