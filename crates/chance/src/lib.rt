// Numbers that look random, the same in each run: what the test programs draw with.
#![tactic(auto)]

ghost use Rattle.std.specs.Prelude.{◌≡◌, ℕ, ◌<◌, ◌%◌, ◌↔◌, Decides, true, length, Some, IsSome, IfSome, slice_get};
ghost use Rattle.rand_pcg.specs.Lcg.{increment_of, started};
ghost use Rattle.rand_pcg.specs.Pcg.{multiplier_64, pcg32};

use rand_core::utils::NextWord;
use rand_pcg::Pcg32;

const STREAM: u64 = 54;

/// A generator that one number starts: PCG32, with 64 bits of state.
#[derive(Drop)]
pub struct Random(Pcg32);

impl Random {
    /// The generator that this number starts.
    pub fn new(seed: u64) -> Random
        ensures { result.0 ≡ started 64 multiplier_64 seed (increment_of 64 54) }
    {
        Random(Pcg32::new(seed, STREAM))
    }

    /// The next 32 bits.
    pub fn word(&mut self) -> u32
        ensures { (result, self.new.0) ≡ pcg32 self.old.0 }
    {
        self.0.next_word()
    }

    /// A number below `n`, which is at most 2^32; 0 where that is 0.
    pub fn below(&mut self, n: usize) -> usize
        ensures bound { 0 < n → result < n }
        ensures value { 0 < n → result ≡ (pcg32 self.old.0).0 % n }
        ensures after { self.new.0 ≡ (pcg32 self.old.0).1 }
    {
        let word = self.word() as usize;
        if n == 0 { 0 } else { word % n }
    }

    /// A number below `n`; 0 where that is 0.
    pub fn below_u32(&mut self, n: u32) -> u32
        ensures bound { 0 < n → result < n }
        ensures value { 0 < n → result ≡ (pcg32 self.old.0).0 % n }
        ensures after { self.new.0 ≡ (pcg32 self.old.0).1 }
    {
        let word = self.word();
        if n == 0 { 0 } else { word % n }
    }

    /// Yes once in so many times.
    pub fn once_in(&mut self, times: usize) -> bool
        ensures one { times ≡ 1 → result ≡ true }
        ensures value { 0 < times → Decides result ((pcg32 self.old.0).0 % times ≡ 0) }
        ensures after { self.new.0 ≡ (pcg32 self.old.0).1 }
    {
        self.below(times) == 0
    }

    /// One of the items, if there are any.
    pub fn pick<T: Copy>(&mut self, items: &[T]) -> Option<T>
        ensures some { IsSome result ↔ (0 < length items.now) }
        ensures one { IfSome result (λ item. (k : ℕ) × slice_get items.now k ≡ Some item) }
        ensures drawn { 0 < length items.now → result ≡ slice_get items.now ((pcg32 self.old.0).0 % length items.now) }
        ensures after { self.new.0 ≡ (pcg32 self.old.0).1 }
    {
        let at = self.below(items.len());
        items.get(at).copied()
    }
}
