// What calls are drawn with, besides what all programs draw with.
use crate::judge::Values;
use chance::Random;

pub(crate) trait Drawing {
    // A number below the count, now and then the one just past the edge.
    fn number(&mut self, count: usize) -> usize;

    // One of the values of a set, if there are any.
    fn value(&mut self, set: u128) -> Option<u128>;
}

impl Drawing for Random {
    fn number(&mut self, count: usize) -> usize {
        if self.once_in(32) {
            count
        } else {
            self.below(count)
        }
    }

    fn value(&mut self, set: u128) -> Option<u128> {
        let place = self.below(set.count_ones() as usize);
        Values(set).nth(place)
    }
}
