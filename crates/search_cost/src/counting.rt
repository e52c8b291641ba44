// A kind that counts what is asked of it.
ghost use Rattle.std.specs.Option.{option_map};
ghost use Rattle.std.proofs.Common.{◌∙◌, sym, ap};
ghost use Rattle.search_cost.specs.Made.{made_some};

use crate::counts::{Counts, add};
use kinds::{Kind, Relation};

/// A region, and where it is counted what is asked of it. It holds what its region holds.
#[derive(Clone, Copy)]
pub struct Counting<'a, K> {
    pub region: K,
    pub counts: &'a Counts,
}

/// The row of such a region.
#[derive(Clone, Copy)]
pub struct CountingRow<'a, R> {
    pub row: R,
    pub counts: &'a Counts,
}

impl<'a, K: Kind> Kind for Counting<'a, K> {
    type Value = K::Value;

    type Row = CountingRow<'a, K::Row>;

    ghost holds = { λ x. K.Kind.holds x.region };

    ghost plain = { λ x. record { row = K.Kind.plain x.region; counts = x.counts } };

    ghost region = { λ w. option_map (λ x. record { region = x; counts = w.counts }) (K.Kind.region w.row) };

    ghost inhabited = { λ x. K.Kind.inhabited x.region };

    ghost finite = { λ x. K.Kind.finite x.region };

    ghost decided = { λ x. K.Kind.decided x.region };

    ghost rereads = { λ x. rw (K.Kind.rereads x.region) };

    ghost faithful = { λ w x e.
        let made = made_some _ _ x e in
        let row = K.Kind.faithful w.row made.0 made.1 in
        λ i. record { row = (ap (λ y. K.Kind.plain y.region) (sym made.2) ∙ row) i; counts = (sym made.2 i).counts } };

    fn has(self, value: K::Value) -> bool {
        self.region.has(value)
    }

    fn meet(self, other: Counting<'a, K>) -> Option<Counting<'a, K>> {
        let Counting { region, counts } = self;
        let region = region.meet(other.region)?;
        Some(Counting { region, counts })
    }

    fn split(self, other: Counting<'a, K>) -> Option<(Counting<'a, K>, Counting<'a, K>)> {
        let Counting { region, counts } = self;
        add(&counts.splits, 1);
        let (a, b) = region.split(other.region)?;
        Some((
            Counting { region: a, counts },
            Counting { region: b, counts },
        ))
    }

    fn pick(self) -> K::Value {
        self.region.pick()
    }

    fn relation(self, other: Counting<'a, K>) -> Relation {
        add(&self.counts.relations, 1);
        self.region.relation(other.region)
    }

    fn resolve(self, one: Counting<'a, K>, other: Counting<'a, K>) -> Counting<'a, K> {
        let Counting { region, counts } = self;
        let region = region.resolve(one.region, other.region);
        Counting { region, counts }
    }

    fn separate(self, wide: Counting<'a, K>, other: Counting<'a, K>) -> Counting<'a, K> {
        let Counting { region, counts } = self;
        add(&counts.separations, 1);
        let region = region.separate(wide.region, other.region);
        Counting { region, counts }
    }

    fn row(self) -> CountingRow<'a, K::Row> {
        CountingRow {
            row: self.region.row(),
            counts: self.counts,
        }
    }

    fn read(row: CountingRow<'a, K::Row>) -> Option<Counting<'a, K>> {
        Some(Counting {
            region: K::read(row.row)?,
            counts: row.counts,
        })
    }
}
