// The calls of rows that hold what a call gives.
ghost use Rattle.std.specs.Prelude.{◌≡◌, List, Some, map};
ghost use Rattle.std.specs.List.{slice_get};
ghost use Rattle.checks.specs.Rows.{rule_entry, block_entry, property_row};
ghost use Rattle.model.specs.Packets.{decision_number};
ghost use Rattle.model.specs.Tree.{Block};
ghost use Rattle.model.specs.declared.rules.Decision.{Decision as DecisionOf};
ghost use Rattle.model.specs.declared.rules.Property.{Property};
ghost use Rattle.model.specs.declared.rules.Rule.{Rule as RuleOf};
ghost use Rattle.rebuild.specs.Listing.{block_call, property_call};

use checks::{BlockRow, PropertyRow, RuleRow, read_property};
use kinds::{Kind, PacketRegion};
use model::{Call, Decision, Rule};

// The row at a place.
pub(crate) fn row_at<T: Copy>(rows: &[T], at: usize) -> Option<T>
    ensures { result ≡ slice_get rows.now at }
{
    rows.get(at).copied()
}

// The region that a row was made from.
fn reread<K: Kind>(row: K::Row) -> Option<K>
    ensures { (x : K) → row ≡ K.Kind.plain x → result ≡ Some x }
{
    K::read(row)
}

// The decision of an outcome number.
fn read_decision(number: u32) -> Option<Decision>
    ensures { (w : DecisionOf) → number ≡ decision_number w → result ≡ Some w }
{
    match number {
        1 => Some(Decision::Accept),
        0 => Some(Decision::Discard),
        _ => None,
    }
}

// The rule that a row was made from.
pub(crate) fn read_rule<A: Kind, R: Kind>(row: RuleRow<A::Row, R::Row>) -> Option<Rule<A, R>>
    ensures { (r : RuleOf A R) → row ≡ rule_entry A.Kind.plain R.Kind.plain r → result ≡ Some r }
{
    let packets = reread::<PacketRegion<A, R>>(row.row)?;
    let decision = read_decision(row.outcome)?;
    Some(Rule {
        interfaces: packets.left,
        source: packets.right.left,
        destination: packets.right.right.left,
        rest: packets.right.right.right,
        decision,
    })
}

// A block is given to its domain.
pub(crate) fn block_call<A: Kind, R, W>(
    rows: &[BlockRow<A::Row>],
    line: usize,
) -> Option<Call<A, R, A::Value, W>>
    ensures { (bs : List (Block A)) → rows.now ≡ map (block_entry A.Kind.plain) bs → result ≡ slice_get (map block_call bs) line }
{
    let row = row_at(rows, line)?;
    reread::<A>(row.row).map(|region| Call::Give {
        domain: row.outcome as usize,
        region,
    })
}

// A property is declared standing.
pub(crate) fn property_call<A: Kind, R: Kind>(
    rows: &[PropertyRow<A::Row, R::Row>],
    line: usize,
) -> Option<Call<A, R, A::Value, R::Value>>
    ensures { (ps : List (Property A R)) → rows.now ≡ map (property_row A.Kind.plain R.Kind.plain) ps → result ≡ slice_get (map property_call ps) line }
{
    let row = row_at(rows, line)?;
    read_property(row).map(|property| Call::Stand { property })
}
