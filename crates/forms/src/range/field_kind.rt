// Range as a field kind.
ghost use Rattle.std.specs.Prelude.{◌≡◌, ◌+◌, ◌≤◌};
ghost use Rattle.std.proofs.Common.{sym, ap, arith, rules};
ghost use Rattle.kinds.specs.Words.{Exactly};
ghost use Rattle.forms.specs.Range.{range_of, range_holds};
ghost use Rattle.kinds.specs.Listing.{finite_below};
ghost use Rattle.std.proofs.Math.Decide.{dec_le};
ghost use Rattle.kinds.specs.Made.{dec_both};
ghost use Rattle.std.proofs.Math.Bridge.{le_prop};
ghost use Rattle.kinds.specs.Makes.{provided_yes, provided_some};

use super::{Range, RangeRow};
use kinds::{Kind, Relation};

impl Range {
    /// The range from `lo` to `hi`; nothing exactly when `lo` is above `hi`.
    pub fn new(lo: u32, hi: u32) -> Option<Range>
        ensures { result ≡ range_of lo hi }
    {
        if lo <= hi {
            Some(Range { lo, hi })
        } else {
            None
        }
    }

    /// The numbers from 0 to `hi`.
    pub fn up_to(hi: u32) -> Range
        ensures { Exactly (range_holds result) (λ v. v ≤ hi) }
    {
        Range { lo: 0, hi }
    }

    /// The first number of the range.
    pub fn lo(self) -> u32
        ensures { result ≡ self.lo }
    {
        self.lo
    }

    /// The last number of the range.
    pub fn hi(self) -> u32
        ensures { result ≡ self.hi }
    {
        self.hi
    }
}

impl Kind for Range {
    type Value = u32;

    type Row = RangeRow;

    ghost holds = { range_holds };

    ghost plain = { λ x. record { lo = x.lo; hi = x.hi } };

    ghost region = { λ w. range_of w.lo w.hi };

    ghost inhabited = { first_of (Prim.search rules, Prim.grind (arith, Self.row.coded.inj)) };

    ghost finite = { λ x. finite_below _ (x.hi + 1) (λ v h. omega arith) };

    ghost decided = { λ x v. dec_both (dec_le _ _) (dec_le _ _) };

    ghost rereads = { λ x. provided_yes _ _ le_prop x.ordered };

    ghost faithful = { λ w x e. let made = provided_some _ _ x e in ap (λ y. record { lo = y.lo; hi = y.hi }) (sym made.1) };

    fn has(self, value: u32) -> bool {
        self.lo <= value && value <= self.hi
    }

    fn meet(self, other: Range) -> Option<Range> {
        Range::new(self.lo.max(other.lo), self.hi.min(other.hi))
    }

    fn split(self, other: Range) -> Option<(Range, Range)> {
        if self.hi < other.lo || other.hi < self.lo {
            None
        } else if self.lo < other.lo {
            Some((
                Range {
                    lo: self.lo,
                    hi: other.lo - 1,
                },
                Range {
                    lo: other.lo,
                    hi: self.hi,
                },
            ))
        } else if other.hi < self.hi {
            Some((
                Range {
                    lo: self.lo,
                    hi: other.hi,
                },
                Range {
                    lo: other.hi + 1,
                    hi: self.hi,
                },
            ))
        } else {
            None
        }
    }

    fn relation(self, other: Range) -> Relation {
        if other.hi < self.lo || self.hi < other.lo {
            Relation::Apart
        } else if other.lo <= self.lo && self.hi <= other.hi {
            Relation::Inside
        } else {
            Relation::Crossing
        }
    }

    fn pick(self) -> u32 {
        self.lo
    }

    fn row(self) -> RangeRow {
        RangeRow {
            lo: self.lo,
            hi: self.hi,
        }
    }

    fn read(row: RangeRow) -> Option<Range> {
        Range::new(row.lo, row.hi)
    }
}
