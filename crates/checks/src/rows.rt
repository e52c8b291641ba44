// How rules, blocks and properties lie in tables.
ghost use Rattle.std.specs.Prelude.{◌≡◌};
ghost use Rattle.checks.specs.Rows.{rule_entry, block_entry, property_row, property_of};

use kinds::{Kind, Pair, SetRow, packet_region};
use model::{Decision, Property, Rule};
use search::Entry;

// Rows are made by functions: `From` is refused for those of rules and blocks, which are types of
// another crate, and all are made in one way.

/// The row of a packet region; `X` and `Y` are the rows of addresses and of rests.
pub type PacketRow<X, Y> = Pair<SetRow, Pair<X, Pair<X, Y>>>;

/// A rule in the table of rules; its outcome is the number of its decision.
pub type RuleRow<X, Y> = Entry<PacketRow<X, Y>>;

/// A block in the table of blocks; its outcome is its domain.
pub type BlockRow<X> = Entry<X>;

/// A property in the table of properties; `X` and `Y` are the rows of addresses and of rests.
#[derive(Clone, Copy)]
pub struct PropertyRow<X, Y> {
    pub sort: Decision,
    pub from: usize,
    pub to: usize,
    pub source: X,
    pub destination: X,
    pub rest: Y,
}

/// The row of a rule.
pub fn rule_row<A: Kind, R: Kind>(rule: Rule<A, R>) -> RuleRow<A::Row, R::Row>
    ensures { result ≡ rule_entry A.Kind.plain R.Kind.plain rule }
{
    let packets = packet_region(rule.interfaces, rule.source, rule.destination, rule.rest);
    Entry {
        row: packets.row(),
        outcome: rule.decision.into(),
    }
}

/// The row of a block of a domain.
pub fn block_row<A: Kind>(region: A, domain: u32) -> BlockRow<A::Row>
    ensures { result ≡ block_entry A.Kind.plain (record { region = region; domain = domain }) }
{
    Entry {
        row: region.row(),
        outcome: domain,
    }
}

/// The row of a property.
pub fn property_row<A: Kind, R: Kind>(property: Property<A, R>) -> PropertyRow<A::Row, R::Row>
    ensures { result ≡ property_row A.Kind.plain R.Kind.plain property }
{
    PropertyRow {
        sort: property.sort,
        from: property.from,
        to: property.to,
        source: property.source.row(),
        destination: property.destination.row(),
        rest: property.rest.row(),
    }
}

/// The property of a row; nothing where one of its regions reads as nothing.
pub fn read_property<A: Kind, R: Kind>(row: PropertyRow<A::Row, R::Row>) -> Option<Property<A, R>>
    ensures { result ≡ property_of A.Kind.region R.Kind.region row }
{
    let source = A::read(row.source)?;
    let destination = A::read(row.destination)?;
    let rest = R::read(row.rest)?;
    Some(Property {
        sort: row.sort,
        from: row.from,
        to: row.to,
        source,
        destination,
        rest,
    })
}
