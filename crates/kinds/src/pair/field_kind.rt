// A pair of kinds is a kind.
ghost use Rattle.std.specs.Prelude.{◌≡◌};
ghost use Rattle.kinds.specs.Words.{CommonAround};
ghost use Rattle.kinds.specs.Pair.{both, pair_holds};
ghost use Rattle.kinds.specs.Listing.{finite_pairs};
ghost use Rattle.kinds.specs.Made.{dec_both};
ghost use Rattle.kinds.specs.Sides.{both_some};

use super::Pair;
use crate::kind::Kind;
use crate::relation::{Relation, lies_inside, share_a_value};

impl<L: Copy, R: Copy> Pair<L, R> {
    // This pair with another left side.
    fn with_left(self, left: L) -> Pair<L, R>
        ensures { result ≡ record { left = left; right = self.right } }
    {
        Pair { left, ..self }
    }

    // This pair with another right side.
    fn with_right(self, right: R) -> Pair<L, R>
        ensures { result ≡ record { left = self.left; right = right } }
    {
        Pair { right, ..self }
    }
}

// What two regions have in common, where this one lies in both; nothing exactly where it does not.
fn common_around<K: Kind>(region: K, one: K, other: K) -> Option<K>
    ensures { CommonAround K.Kind.holds (K.Kind.holds region) (K.Kind.holds one) (K.Kind.holds other) result }
{
    if lies_inside(region, one) && lies_inside(region, other) {
        one.meet(other)
    } else {
        None
    }
}

impl<L: Kind, R: Kind> Kind for Pair<L, R> {
    type Value = Pair<L::Value, R::Value>;

    type Row = Pair<L::Row, R::Row>;

    // Each side holds its own value.
    ghost holds = { pair_holds L.Kind.holds R.Kind.holds };

    ghost plain = { λ x. record { left = L.Kind.plain x.left; right = R.Kind.plain x.right } };

    ghost region = { λ w. both (L.Kind.region w.left) (R.Kind.region w.right) };

    ghost inhabited = { λ x.
        let l = L.Kind.inhabited x.left in
        let r = R.Kind.inhabited x.right in
        (record { left = l.0; right = r.0 }, (l.1, r.1)) };

    ghost finite = { λ x. finite_pairs _ _ (L.Kind.finite x.left) (R.Kind.finite x.right) };

    ghost decided = { λ x v. dec_both (L.Kind.decided x.left v.left) (R.Kind.decided x.right v.right) };

    ghost rereads = { λ x. rw (L.Kind.rereads x.left, R.Kind.rereads x.right) };

    ghost faithful = { λ w x e.
        let parts = both_some _ _ x e in
        λ i. record { left = L.Kind.faithful w.left x.left parts.0 i; right = R.Kind.faithful w.right x.right parts.1 i } };

    fn has(self, value: Pair<L::Value, R::Value>) -> bool {
        self.left.has(value.left) && self.right.has(value.right)
    }

    fn meet(self, other: Pair<L, R>) -> Option<Pair<L, R>> {
        let left = self.left.meet(other.left)?;
        let right = self.right.meet(other.right)?;
        Some(Pair { left, right })
    }

    // Cuts the left side if it can be cut, else the right side.
    fn split(self, other: Pair<L, R>) -> Option<(Pair<L, R>, Pair<L, R>)> {
        match self.left.relation(other.left) {
            Relation::Apart => None,
            Relation::Inside => {
                let (a, b) = self.right.split(other.right)?;
                Some((self.with_right(a), self.with_right(b)))
            }
            Relation::Crossing => {
                if !share_a_value(self.right, other.right) {
                    return None;
                }
                let (a, b) = self.left.split(other.left)?;
                Some((self.with_left(a), self.with_left(b)))
            }
        }
    }

    fn pick(self) -> Pair<L::Value, R::Value> {
        Pair {
            left: self.left.pick(),
            right: self.right.pick(),
        }
    }

    // They share values where both sides do, and one lies inside where both sides do.
    fn relation(self, other: Pair<L, R>) -> Relation {
        match self.left.relation(other.left) {
            Relation::Apart => Relation::Apart,
            Relation::Inside => self.right.relation(other.right),
            Relation::Crossing => match self.right.relation(other.right) {
                Relation::Apart => Relation::Apart,
                Relation::Inside | Relation::Crossing => Relation::Crossing,
            },
        }
    }

    // Where one side lies in both others' sides, it may be as wide as what these have in common, and
    // the other side is resolved.
    fn resolve(self, one: Pair<L, R>, other: Pair<L, R>) -> Pair<L, R> {
        if let Some(left) = common_around(self.left, one.left, other.left) {
            let right = self.right.resolve(one.right, other.right);
            return Pair { left, right };
        }
        match common_around(self.right, one.right, other.right) {
            None => self,
            Some(right) => Pair {
                left: self.left.resolve(one.left, other.left),
                right,
            },
        }
    }

    // What is apart already stays as it is. Else one side that keeps the two apart is enough: the
    // right one if it does, else the left one.
    fn separate(self, wide: Pair<L, R>, other: Pair<L, R>) -> Pair<L, R> {
        if !share_a_value(wide.left, other.left) {
            return wide;
        }
        if !share_a_value(wide.right, other.right) {
            return wide;
        }
        if !share_a_value(self.right, other.right) {
            let right = self.right.separate(wide.right, other.right);
            return wide.with_right(right);
        }
        let left = self.left.separate(wide.left, other.left);
        wide.with_left(left)
    }

    fn row(self) -> Pair<L::Row, R::Row> {
        Pair {
            left: self.left.row(),
            right: self.right.row(),
        }
    }

    fn read(row: Pair<L::Row, R::Row>) -> Option<Pair<L, R>> {
        let left = L::read(row.left)?;
        let right = R::read(row.right)?;
        Some(Pair { left, right })
    }
}
