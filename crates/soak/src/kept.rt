// The three tables of a register.
use crate::rows::RowKind;
use checks::{BlockRow, PropertyRow, RuleRow};
use kinds::PacketRegion;

// `X` and `Y` are the rows of addresses and of rests.
#[derive(Clone, Drop)]
pub struct Tables<X, Y> {
    pub rules: Vec<RuleRow<X, Y>>,
    pub blocks: Vec<BlockRow<X>>,
    pub properties: Vec<PropertyRow<X, Y>>,
}

fn is_same_rule<A: RowKind, R: RowKind>(
    one: &RuleRow<A::Row, R::Row>,
    other: &RuleRow<A::Row, R::Row>,
) -> bool {
    one.outcome == other.outcome && PacketRegion::<A, R>::is_same_row(one.row, other.row)
}

fn is_same_block<A: RowKind>(one: &BlockRow<A::Row>, other: &BlockRow<A::Row>) -> bool {
    one.outcome == other.outcome && A::is_same_row(one.row, other.row)
}

fn is_same_property<A: RowKind, R: RowKind>(
    one: &PropertyRow<A::Row, R::Row>,
    other: &PropertyRow<A::Row, R::Row>,
) -> bool {
    one.sort == other.sort
        && one.from == other.from
        && one.to == other.to
        && A::is_same_row(one.source, other.source)
        && A::is_same_row(one.destination, other.destination)
        && R::is_same_row(one.rest, other.rest)
}

// Whether the tables have the same rows.
pub(crate) fn are_same_tables<A: RowKind, R: RowKind>(
    one: &Tables<A::Row, R::Row>,
    other: &Tables<A::Row, R::Row>,
) -> bool {
    let mut rules = one.rules.iter().zip(other.rules.iter());
    let mut blocks = one.blocks.iter().zip(other.blocks.iter());
    let mut properties = one.properties.iter().zip(other.properties.iter());
    rules.all(|(one, other)| is_same_rule::<A, R>(one, other))
        && blocks.all(|(one, other)| is_same_block::<A>(one, other))
        && properties.all(|(one, other)| is_same_property::<A, R>(one, other))
}
