// First match, for one value.
ghost use Rattle.std.specs.Prelude.{Decides};
ghost use Rattle.search.specs.List.{Says, row_holds};

use crate::list::{Entry, Match};
use kinds::Kind;

// Whether the region of a row holds a value.
fn row_has<K: Kind>(row: K::Row, value: K::Value) -> bool
    ensures { Decides result (row_holds K.Kind.holds K.Kind.region row value) }
{
    K::read(row).is_some_and(|region| region.has(value))
}

/// The entry that decides the value, if one holds it.
pub fn outcome_of<K: Kind>(list: &[Entry<K::Row>], value: K::Value) -> Option<Match>
    ensures { Says (row_holds K.Kind.holds K.Kind.region) list.now value result }
{
    for (position, entry) in list.iter().enumerate() {
        if row_has::<K>(entry.row, value) {
            return Some(Match {
                position,
                outcome: entry.outcome,
            });
        }
    }
    None
}
