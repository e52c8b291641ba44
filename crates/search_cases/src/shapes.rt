// Lists of several shapes: any entries, and some that a search may take long over.
use crate::judged::{Judged, Part, Place};
use chance::Random;
use search::Entry;

pub(crate) const OUTCOMES: u32 = 3;

// Fields that parts are drawn for, no fewer than either form has.
const FIELDS: usize = 6;

// How the entries of a list are drawn. Where it has a count, that is of the entries, and the last holds all
// small values, with an outcome that no other has.
#[derive(Clone, Copy)]
pub enum Shape {
    // Any entries.
    Any,
    // Thin slabs in one field.
    Slabs {
        field: usize,
        count: u32,
    },
    // Thin slabs in several fields, and behind them two halves of one field, which hold all.
    Covered {
        field: usize,
        count: u32,
    },
    // Stairs: the further an entry goes in one field, the less far it goes in the other.
    Stairs {
        one: usize,
        other: usize,
        count: u32,
    },
}

pub(crate) fn draw_shape<K: Judged>(random: &mut Random, count: u32) -> Shape {
    let field = random.below(K::fields());
    match random.below(6) {
        0 => Shape::Slabs { field, count },
        1 => Shape::Covered { field, count },
        2 => Shape::Stairs {
            one: field,
            other: random.below(K::fields()),
            count,
        },
        _ => Shape::Any,
    }
}

// All small values, but in one field.
fn in_field<K: Judged>(field: usize, part: Part) -> K::Row {
    let mut parts = [Part::All; FIELDS];
    if let Some(place) = parts.get_mut(field) {
        *place = part;
    }
    K::of_parts(&parts)
}

// One value of a field.
fn slab<K: Judged>(random: &mut Random, field: usize) -> K::Row {
    in_field::<K>(field, Part::One(random.word()))
}

// A step of a stair in two fields.
fn step<K: Judged>(one: usize, other: usize, place: u32, count: u32) -> K::Row {
    let mut parts = [Part::All; FIELDS];
    if let Some(part) = parts.get_mut(one) {
        *part = Part::UpTo(place);
    }
    if let Some(part) = parts.get_mut(other) {
        *part = Part::UpTo(count.saturating_sub(place));
    }
    K::of_parts(&parts)
}

impl Shape {
    // The entry at a place.
    pub(crate) fn entry<K: Judged>(self, random: &mut Random, place: u32) -> Entry<K::Row> {
        let all = K::of_parts(&[]);
        match self {
            Shape::Any => Entry {
                row: K::draw(random, Place::Entry),
                outcome: random.below_u32(OUTCOMES),
            },
            Shape::Slabs { count, .. } | Shape::Covered { count, .. } | Shape::Stairs { count, .. }
                if place.saturating_add(1) == count => {
                Entry {
                    row: all,
                    outcome: 0,
                }
            }
            Shape::Slabs { field, .. } => Entry {
                row: slab::<K>(random, field),
                outcome: 1 + random.below_u32(2),
            },
            Shape::Covered { field, count } => Entry {
                row: covered::<K>(random, field, count.saturating_sub(place)),
                outcome: 1,
            },
            Shape::Stairs { one, other, count } => Entry {
                row: step::<K>(one, other, place, count),
                outcome: 1,
            },
        }
    }
}

// A slab in some field; or one of two halves, where so few entries are left.
fn covered<K: Judged>(random: &mut Random, field: usize, left: u32) -> K::Row {
    match left {
        2 => in_field::<K>(field, Part::Half { upper: true }),
        3 => in_field::<K>(field, Part::Half { upper: false }),
        _ => {
            let field = random.below(K::fields());
            slab::<K>(random, field)
        }
    }
}
