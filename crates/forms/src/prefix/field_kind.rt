// Prefix as a field kind.
ghost use Rattle.std.specs.Prelude.{◌≡◌, ◌+◌, ◌-◌, ◌/◌, ◌^◌, ◌<◌, ◌≤◌};
ghost use Rattle.std.proofs.Common.{sym, ap, rules, arith};
ghost use Rattle.kinds.specs.Words.{Exactly};
ghost use Rattle.forms.specs.Prefix.{prefix_of, prefix_holds};
ghost use Rattle.kinds.specs.Listing.{finite_below};
ghost use Rattle.forms.specs.FirstBits.{in_bound};
ghost use Rattle.std.proofs.Math.Decide.{ℕ_discrete};
ghost use mathlib.Core.HLevel.{×_prop};
ghost use Rattle.std.proofs.Math.Bridge.{le_prop};
ghost use Rattle.std.proofs.Math.Nat.{ℕ_set};
ghost use Rattle.kinds.specs.Makes.{provided_yes, provided_some};

use super::{Prefix, PrefixRow};
use kinds::{Kind, Relation};

// The first `length` bits of an address, as a number.
fn first_bits(address: u32, length: u8) -> u64
    requires { length ≤ 32 }
    ensures { result ≡ address / 2 ^ (32 - length) }
{
    (address as u64) >> (32 - length)
}

impl Prefix {
    /// The prefix of this address and length; nothing exactly when the length is above 32 or a bit
    /// past it is set.
    pub fn new(address: u32, length: u8) -> Option<Prefix>
        ensures { result ≡ prefix_of address length }
    {
        if length > 32 {
            return None;
        }
        if (address as u64) % (1 << (32 - length)) == 0 {
            Some(Prefix { address, length })
        } else {
            None
        }
    }

    /// Every address: 0.0.0.0/0.
    pub fn all() -> Prefix
        ensures { Exactly (prefix_holds result) (λ v. v < 2 ^ 32) }
    {
        Prefix {
            address: 0,
            length: 0,
        }
    }

    /// The prefix's first address.
    pub fn address(self) -> u32
        ensures { result ≡ self.address }
    {
        self.address
    }

    /// How many bits its addresses share, at most 32.
    pub fn length(self) -> u8
        ensures { result ≡ self.length }
    {
        self.length
    }
}

impl Kind for Prefix {
    type Value = u32;

    type Row = PrefixRow;

    ghost holds = { prefix_holds };

    ghost plain = { λ x. record { address = x.address; length = x.length } };

    ghost region = { λ w. prefix_of w.address w.length };

    ghost inhabited = { first_of (Prim.search rules, Prim.grind (arith, Self.row.coded.inj)) };

    ghost finite = { λ x. finite_below _ (x.address + 2 ^ (32 - x.length)) (λ v h. in_bound x.address (32 - x.length) v h) };

    ghost decided = { λ x v. ℕ_discrete _ _ };

    ghost rereads = { λ x. provided_yes _ _ (×_prop le_prop (ℕ_set _ _)) (x.short, x.clean) };

    ghost faithful = { λ w x e. ap (λ y. record { address = y.address; length = y.length }) (sym (provided_some _ _ x e).1) };

    fn has(self, value: u32) -> bool {
        first_bits(value, self.length) == first_bits(self.address, self.length)
    }

    // The longer of the two, if the shorter holds its address.
    fn meet(self, other: Prefix) -> Option<Prefix> {
        if self.length <= other.length {
            if self.has(other.address) {
                Some(other)
            } else {
                None
            }
        } else {
            if other.has(self.address) {
                Some(self)
            } else {
                None
            }
        }
    }

    // The halves by the next bit, if the other is longer and lies in this one.
    fn split(self, other: Prefix) -> Option<(Prefix, Prefix)> {
        if self.length < other.length && self.has(other.address) {
            let length = self.length + 1;
            let upper = self.address + (1 << (32 - length));
            Some((
                Prefix {
                    address: self.address,
                    length,
                },
                Prefix {
                    address: upper,
                    length,
                },
            ))
        } else {
            None
        }
    }

    // The longer of two that share a value lies inside the shorter.
    #[tactic(auto, using(crate::proofs::Halves::inside_in, crate::proofs::Halves::disjoint_in))]
    fn relation(self, other: Prefix) -> Relation {
        if other.length <= self.length {
            if other.has(self.address) {
                Relation::Inside
            } else {
                Relation::Apart
            }
        } else if self.has(other.address) {
            Relation::Crossing
        } else {
            Relation::Apart
        }
    }

    fn pick(self) -> u32 {
        self.address
    }

    fn row(self) -> PrefixRow {
        PrefixRow {
            address: self.address,
            length: self.length,
        }
    }

    fn read(row: PrefixRow) -> Option<Prefix> {
        Prefix::new(row.address, row.length)
    }
}
