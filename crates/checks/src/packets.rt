// What a list of rules does with the packets of a property.
ghost use Rattle.std.specs.Prelude.{◌≡◌, ◌<◌, List, length};
ghost use Rattle.checks.specs.Rows.{RulesAre};
ghost use Rattle.checks.specs.Breaks.{BreakFound, UnmatchedFound, decided_against, packet_in};
ghost use Rattle.model.specs.Tree.{Tree};
ghost use Rattle.model.specs.declared.rules.Rule.{Rule as RuleOf};

use crate::rows::{PacketRow, RuleRow};
use kinds::{Kind, Set, packet_region, whole_packets};
use model::{Decision, Packet, PacketValue, Property};
use search::{Found, Frame, Wish, find};

// The packet that a search found.
fn packet_in<V: Copy, W: Copy>(found: Option<Found<PacketValue<V, W>>>) -> Option<Packet<V, W>>
    ensures { result ≡ packet_in found }
{
    found.map(|found| found.value.into())
}

// The decision that breaks a property of this sort.
fn against(sort: Decision) -> Decision
    ensures { result ≡ decided_against sort }
{
    match sort {
        Decision::Accept => Decision::Discard,
        Decision::Discard => Decision::Accept,
    }
}

/// A packet of the property, on the interface entered by, that the list decides against its sort;
/// nothing exactly when there is none. An interface above 31 has no packets.
pub fn find_break<A: Kind, R: Kind>(
    rules: &[RuleRow<A::Row, R::Row>],
    property: Property<A, R>,
    entered: u8,
    frames: &mut [Frame<PacketRow<A::Row, R::Row>>],
) -> Option<Packet<A::Value, R::Value>>
    requires { length rules.now < length frames.old }
    ensures { (rs : List (RuleOf A R)) → RulesAre A.Kind R.Kind rules.now rs → BreakFound A.Kind.holds R.Kind.holds rs property entered result }
{
    let interface = Set::single(entered)?;
    let target = packet_region(
        interface,
        property.source,
        property.destination,
        property.rest,
    );
    let wish = Wish::Is(Some(against(property.sort).into()));
    packet_in(find(rules, target, wish, frames))
}

/// A packet of the whole that no rule matches; nothing exactly when the list is complete.
pub fn find_unmatched<A: Kind, R: Kind>(
    rules: &[RuleRow<A::Row, R::Row>],
    addresses: A,
    rests: R,
    frames: &mut [Frame<PacketRow<A::Row, R::Row>>],
) -> Option<Packet<A::Value, R::Value>>
    requires { length rules.now < length frames.old }
    ensures { (t : Tree A R) (rs : List (RuleOf A R)) → t.addresses ≡ addresses → t.rests ≡ rests → RulesAre A.Kind R.Kind rules.now rs → UnmatchedFound A.Kind.holds R.Kind.holds t rs result }
{
    let whole = whole_packets(addresses, rests);
    packet_in(find(rules, whole, Wish::Is(None), frames))
}
