// What addresses, or rests, are drawn from: a whole, and regions inside it and outside.
use crate::draws::both::{Known, Member};
use crate::draws::random::Drawing;
use crate::judge::{Region, value};
use chance::Random;
use kinds::Kind;
use std::alloc::{AllocError, Global};

// Which values a region holds is asked of these alone. The pool's maker sees to it that each region
// outside the whole holds one of them that is outside.
#[derive(Drop)]
pub struct Pool<K: Kind> {
    pub whole: Known<K>,
    values: Vec<Member<K::Value>>,
    inside: Vec<Known<K>>,
    outside: Vec<Known<K>>,
}

// The values with the set of each: those of the whole are numbered, and those outside are the empty set.
fn number<K: Kind>(
    heap: Global,
    whole: K,
    values: &[K::Value],
) -> Result<Vec<Member<K::Value>>, AllocError> {
    let mut members = Vec::new(heap);
    let mut next: u32 = 0;
    for typed in values {
        let mut plain = 0;
        if whole.has(*typed) {
            plain = value(next);
            next = next.saturating_add(1);
        }
        members.push(Member {
            typed: *typed,
            plain,
        })?;
    }
    Ok(members)
}

// Asks a region of each value.
fn know<K: Kind>(region: K, values: &[Member<K::Value>]) -> Known<K> {
    let mut plain = Region {
        values: 0,
        inside: true,
    };
    for member in values {
        if region.has(member.typed) {
            plain.values |= member.plain;
            plain.inside &= member.plain != 0;
        }
    }
    Known {
        typed: region,
        plain,
    }
}

impl<K: Kind> Pool<K> {
    pub(crate) fn new(
        heap: Global,
        whole: K,
        values: &[K::Value],
        regions: &[K],
    ) -> Result<Pool<K>, AllocError> {
        let values = number(heap, whole, values)?;
        let mut pool = Pool {
            whole: know(whole, &values),
            values,
            inside: Vec::new(heap),
            outside: Vec::new(heap),
        };
        for region in regions {
            let known = know(*region, &pool.values);
            if known.plain.inside {
                pool.inside.push(known)?;
            } else {
                pool.outside.push(known)?;
            }
        }
        Ok(pool)
    }

    // Some region inside the whole, mostly a small one.
    pub(crate) fn inside(&self, random: &mut Random) -> Known<K> {
        random.pick(&self.inside).unwrap_or(self.whole)
    }

    // Some region, now and then one that is not inside the whole.
    pub(crate) fn any(&self, random: &mut Random) -> Known<K> {
        if random.once_in(32) {
            random.pick(&self.outside).unwrap_or(self.whole)
        } else if random.once_in(8) {
            self.whole
        } else {
            self.inside(random)
        }
    }

    // Some value of the whole, now and then one outside.
    pub(crate) fn member(&self, random: &mut Random) -> Option<Member<K::Value>> {
        if random.once_in(48) {
            return random.pick(&self.values);
        }
        let wanted = random.value(self.whole.plain.values)?;
        self.values
            .iter()
            .find(|member| member.plain == wanted)
            .copied()
    }

    // The region of one value of a set; nothing where the set is empty.
    pub(crate) fn single(&self, random: &mut Random, set: u128) -> Option<Known<K>> {
        let wanted = random.value(set)?;
        self.inside
            .iter()
            .find(|known| known.plain.values == wanted)
            .copied()
    }

    // The region of one value.
    pub(crate) fn one(&self, random: &mut Random) -> Known<K> {
        self.single(random, self.whole.plain.values)
            .unwrap_or(self.whole)
    }

    // The region at a place among those that hold the first value.
    pub(crate) fn nested(&self, place: usize) -> Known<K> {
        self.inside
            .iter()
            .filter(|known| known.plain.values & 1 == 1)
            .nth(place)
            .copied()
            .unwrap_or(self.whole)
    }

    // A region inside a set; any where the set is empty.
    pub(crate) fn within(&self, random: &mut Random, set: u128) -> Known<K> {
        let wide = self.inside(random);
        if wide.plain.values & !set == 0 {
            return wide;
        }
        self.single(random, set).unwrap_or_else(|| self.any(random))
    }

    // The set of one value, of those of the whole; empty for any other.
    pub(crate) fn set_of(&self, shown: K::Value) -> u128 {
        self.inside
            .iter()
            .find(|known| known.plain.values.count_ones() == 1 && known.typed.has(shown))
            .map_or(0, |known| known.plain.values)
    }
}
