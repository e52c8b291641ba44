// What is known of listings. The contract is a theorem about every lawful record, for every kind of
// addresses and of rests.
ghost use Rattle.rebuild.specs.Again.{ListingsRebuild};

use kinds::Kind;

/// The listing of a tree, made call by call from domain 0 alone, is refused nothing and builds the tree.
pub fn listings_rebuild<A: Kind, R: Kind>()
    ensures { ListingsRebuild A.Kind.holds R.Kind.holds }
{}
