// Kinds whose rows can be compared, by their numbers.
use forms::{Prefix, PrefixRow, Range, RangeRow};
use kinds::{Kind, Pair, Set, SetRow};

pub trait RowKind: Kind {
    fn is_same_row(one: Self::Row, other: Self::Row) -> bool;
}

impl RowKind for Prefix {
    fn is_same_row(one: PrefixRow, other: PrefixRow) -> bool {
        one.address == other.address && one.length == other.length
    }
}

impl RowKind for Range {
    fn is_same_row(one: RangeRow, other: RangeRow) -> bool {
        one.lo == other.lo && one.hi == other.hi
    }
}

impl RowKind for Set {
    fn is_same_row(one: SetRow, other: SetRow) -> bool {
        one.mask == other.mask
    }
}

impl<L: RowKind, R: RowKind> RowKind for Pair<L, R> {
    fn is_same_row(one: Pair<L::Row, R::Row>, other: Pair<L::Row, R::Row>) -> bool {
        L::is_same_row(one.left, other.left) && R::is_same_row(one.right, other.right)
    }
}
