// Sets of numbers below 128, as words: bit n stands for n. A value is the set of it alone.
ghost use Rattle.std.specs.Iterator.{at_most};

// The value of this number; the empty set where it is too large.
pub(crate) fn value(number: u32) -> u128 {
    if number < u128::BITS { 1 << number } else { 0 }
}

// Goes over the values of a set.
#[derive(Clone, Copy)]
pub struct Values(pub u128);

impl Iterator for Values {
    type Item = u128;

    ghost remaining = { λ s. at_most s.0 };

    fn next(&mut self) -> Option<u128> {
        let set = self.0;
        let others = set & set.checked_sub(1)?;
        self.0 = others;
        Some(set ^ others)
    }
}
