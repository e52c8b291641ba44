// How each kind is judged.
use super::{Judged, Part, Place};
use chance::Random;
use forms::{Prefix, PrefixRow, Range, RangeRow};
use kinds::{Pair, Set, SetRow};
use std::alloc::{AllocError, Global};

// Small addresses are the four from 10.0.0.0 on.
const BASE: u32 = 0x0a00_0000;

// Small numbers are 0 to 3, and small members of a set 0 and 1.
const NUMBERS: u32 = 4;

const MEMBERS: u8 = 2;

// Of so many forms of a row, the first two or three are unusual, and the others alike.
const FORMS: u32 = 32;

// The part of the only field.
fn only(parts: &[Part]) -> Part {
    parts.first().copied().unwrap_or(Part::All)
}

impl Judged for Range {
    fn draw(random: &mut Random, place: Place) -> RangeRow {
        let form = random.below_u32(FORMS);
        let a = random.below_u32(NUMBERS);
        let b = random.below_u32(NUMBERS);
        match (place, form) {
            (Place::Entry, 0) => RangeRow {
                lo: 0,
                hi: u32::MAX,
            },
            (Place::Entry, 1) => RangeRow {
                lo: a.max(b) + 1,
                hi: a.min(b),
            },
            _ => RangeRow {
                lo: a.min(b),
                hi: a.max(b),
            },
        }
    }

    fn fields() -> usize {
        1
    }

    fn of_parts(parts: &[Part]) -> RangeRow {
        match only(parts) {
            Part::All => RangeRow { lo: 0, hi: 3 },
            Part::One(number) => RangeRow {
                lo: number % NUMBERS,
                hi: number % NUMBERS,
            },
            Part::Half { upper: false } => RangeRow { lo: 0, hi: 1 },
            Part::Half { upper: true } => RangeRow { lo: 2, hi: 3 },
            Part::UpTo(number) => RangeRow {
                lo: 0,
                hi: number % NUMBERS,
            },
        }
    }

    fn row_has_number(row: RangeRow, value: u32) -> bool {
        (row.lo..=row.hi).contains(&value)
    }

    fn small_values(heap: Global) -> Result<Vec<u32>, AllocError> {
        (0..NUMBERS).collect(heap)
    }
}

impl Judged for Prefix {
    fn draw(random: &mut Random, place: Place) -> PrefixRow {
        let form = random.below_u32(FORMS);
        let host_bits = random.below_u32(3);
        let offset = random.below_u32(NUMBERS);
        match (place, form) {
            (Place::Entry, 0) => PrefixRow {
                address: 0,
                length: 0,
            },
            (Place::Entry, 1) => PrefixRow {
                address: BASE | 1,
                length: 30,
            },
            (Place::Entry, 2) => PrefixRow {
                address: BASE,
                length: 33,
            },
            _ => PrefixRow {
                address: BASE | ((offset >> host_bits) << host_bits),
                length: (32 - host_bits) as u8,
            },
        }
    }

    fn fields() -> usize {
        1
    }

    fn of_parts(parts: &[Part]) -> PrefixRow {
        let (offset, length) = match only(parts) {
            Part::All => (0, 30),
            Part::One(number) => (number % NUMBERS, 32),
            Part::Half { upper: false } => (0, 31),
            Part::Half { upper: true } => (2, 31),
            Part::UpTo(number) => match number % NUMBERS {
                0 => (0, 32),
                1 => (0, 31),
                _ => (0, 30),
            },
        };
        PrefixRow {
            address: BASE | offset,
            length,
        }
    }

    // The same first bits; none where the length is above 32 or the address has a bit past it.
    fn row_has_number(row: PrefixRow, value: u32) -> bool {
        if row.length > 32 {
            return false;
        }
        let host_bits = 32 - row.length;
        let address = u64::from(row.address);
        let first = address >> host_bits;
        first << host_bits == address && u64::from(value) >> host_bits == first
    }

    fn small_values(heap: Global) -> Result<Vec<u32>, AllocError> {
        (0..NUMBERS).map(|offset| BASE | offset).collect(heap)
    }
}

impl Judged for Set {
    fn draw(random: &mut Random, place: Place) -> SetRow {
        let form = random.below_u32(FORMS);
        let mask = 1 + random.below_u32(3);
        match (place, form) {
            (Place::Entry, 0) => SetRow { mask: u32::MAX },
            (Place::Entry, 1) => SetRow { mask: 0 },
            _ => SetRow { mask },
        }
    }

    fn fields() -> usize {
        1
    }

    fn of_parts(parts: &[Part]) -> SetRow {
        let mask = match only(parts) {
            Part::All => 3,
            Part::One(number) => 1 << (number % 2),
            Part::Half { upper: false } => 1,
            Part::Half { upper: true } => 2,
            Part::UpTo(number) => { if number % 2 == 0 { 1 } else { 3 } }
        };
        SetRow { mask }
    }

    fn row_has_number(row: SetRow, value: u8) -> bool {
        value < 32 && row.mask & (1 << value) != 0
    }

    fn small_values(heap: Global) -> Result<Vec<u8>, AllocError> {
        (0..MEMBERS).collect(heap)
    }
}

impl<L: Judged, R: Judged> Judged for Pair<L, R> {
    fn draw(random: &mut Random, place: Place) -> Pair<L::Row, R::Row> {
        let left = L::draw(random, place);
        let right = R::draw(random, place);
        Pair { left, right }
    }

    fn fields() -> usize {
        L::fields().saturating_add(R::fields())
    }

    // The left side takes the first of the parts.
    fn of_parts(parts: &[Part]) -> Pair<L::Row, R::Row> {
        let (left, right) = parts.split_at(L::fields().min(parts.len()));
        Pair {
            left: L::of_parts(left),
            right: R::of_parts(right),
        }
    }

    fn row_has_number(row: Pair<L::Row, R::Row>, value: Pair<L::Value, R::Value>) -> bool {
        L::row_has_number(row.left, value.left) && R::row_has_number(row.right, value.right)
    }

    // Each small value of the left side with each of the right side.
    fn small_values(heap: Global) -> Result<Vec<Pair<L::Value, R::Value>>, AllocError> {
        let lefts = L::small_values(heap)?;
        let rights = R::small_values(heap)?;
        lefts
            .iter()
            .flat_map(|left| {
                rights.iter().map(|right| Pair {
                    left: *left,
                    right: *right,
                })
            })
            .collect(heap)
    }
}
