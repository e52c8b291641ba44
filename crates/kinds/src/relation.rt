// How two regions of a kind lie to each other.
ghost use Rattle.kinds.specs.Words.{Share, Inside};
ghost use Rattle.std.specs.Prelude.{Decides};

use crate::kind::Kind;

/// How one region lies to another.
#[derive(Clone, Copy, Debug, PartialEq, Eq)]
pub enum Relation {
    /// They share no value.
    Apart,
    /// The other holds all of it.
    Inside,
    /// They share a value, and the other does not hold all of it.
    Crossing,
}

/// Whether two regions share a value.
pub fn share_a_value<K: Kind>(a: K, b: K) -> bool
    ensures { Decides result (Share (K.Kind.holds a) (K.Kind.holds b)) }
{
    match a.relation(b) {
        Relation::Apart => false,
        Relation::Inside | Relation::Crossing => true,
    }
}

/// Whether the first region lies inside the second.
pub fn lies_inside<K: Kind>(a: K, b: K) -> bool
    ensures { Decides result (Inside (K.Kind.holds a) (K.Kind.holds b)) }
{
    match a.relation(b) {
        Relation::Inside => true,
        Relation::Apart | Relation::Crossing => false,
    }
}
