// Set as a field kind.
ghost use Rattle.std.specs.Prelude.{◌≡◌, ◌<◌, ◌≤◌, MatchOption};
ghost use Rattle.std.proofs.Common.{sym, ap};
ghost use Rattle.kinds.specs.Words.{Exactly};
ghost use Rattle.kinds.specs.Set.{set_of, set_holds};
ghost use Rattle.kinds.specs.Masks.{some_bit, low_bit};
ghost use Rattle.kinds.specs.Listing.{finite_below};
ghost use Rattle.std.proofs.Math.Decide.{ℕ_discrete};
ghost use mathlib.Core.HLevel.{×_prop};
ghost use Rattle.std.proofs.Math.Bridge.{le_prop};
ghost use Rattle.kinds.specs.Makes.{provided_yes, provided_some};

use super::{Set, SetRow};
use crate::kind::Kind;
use crate::relation::Relation;

impl Set {
    /// The set of this mask; nothing exactly when the mask is 0.
    pub fn new(mask: u32) -> Option<Set>
        ensures { result ≡ set_of mask }
    {
        if mask == 0 { None } else { Some(Set { mask }) }
    }

    /// The numbers from 0 to `hi`, which stops at 31.
    pub fn up_to(hi: u8) -> Set
        ensures { Exactly (set_holds result) (λ v. (v ≤ hi) × (v < 32)) }
    {
        let count = hi.min(31) + 1;
        Set {
            mask: ((1u64 << count) - 1) as u32,
        }
    }

    /// The set of one number; nothing exactly when it is above 31.
    pub fn single(value: u8) -> Option<Set>
        ensures { MatchOption result (32 ≤ value) (λ x. Exactly (set_holds x) (λ v. v ≡ value)) }
    {
        if value < 32 {
            Some(Set { mask: 1 << value })
        } else {
            None
        }
    }

    /// The set as a mask: bit i stands for i.
    pub fn mask(self) -> u32
        ensures { result ≡ self.mask }
    {
        self.mask
    }
}

impl Kind for Set {
    type Value = u8;

    type Row = SetRow;

    ghost holds = { set_holds };

    ghost plain = { λ x. record { mask = x.mask } };

    ghost region = { λ w. set_of w.mask };

    ghost inhabited = { λ x. some_bit x.mask x.some x.few };

    ghost finite = { λ x. finite_below _ 32 (λ v h. low_bit x.mask v x.few h) };

    ghost decided = { λ x v. ℕ_discrete _ _ };

    ghost rereads = { λ x. provided_yes _ _ (×_prop le_prop le_prop) (x.some, x.few) };

    ghost faithful = { λ w x e. ap (λ y. record { mask = y.mask }) (sym (provided_some _ _ x e).1) };

    fn has(self, value: u8) -> bool {
        value < 32 && (self.mask >> value) % 2 == 1
    }

    fn meet(self, other: Set) -> Option<Set> {
        Set::new(self.mask & other.mask)
    }

    // The common numbers, and the others of this set.
    fn split(self, other: Set) -> Option<(Set, Set)> {
        let common = self.mask & other.mask;
        let others = self.mask ^ common;
        if common != 0 && others != 0 {
            Some((Set { mask: common }, Set { mask: others }))
        } else {
            None
        }
    }

    #[tactic(auto, using(crate::proofs::Bits::apart_bits, crate::proofs::Bits::inside_bits, crate::proofs::Bits::crossing_bits))]
    fn relation(self, other: Set) -> Relation {
        let common = self.mask & other.mask;
        let others = self.mask ^ common;
        if common == 0 {
            Relation::Apart
        } else if others == 0 {
            Relation::Inside
        } else {
            Relation::Crossing
        }
    }

    // The largest number of the set.
    fn pick(self) -> u8 {
        self.mask.ilog2() as u8
    }

    fn row(self) -> SetRow {
        SetRow { mask: self.mask }
    }

    fn read(row: SetRow) -> Option<Set> {
        Set::new(row.mask)
    }
}
