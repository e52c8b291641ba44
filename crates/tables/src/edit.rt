// The rows of a lent table: the first `used` of them are in use, what lies past them is junk. A table is
// memory that is lent for one call, so the count stays with the borrower and no struct has both.
ghost use Rattle.std.specs.Prelude.{◌≡◌, ◌+◌, ◌-◌, ◌<◌, ◌≤◌, ◌↔◌, Some, length, take, drop, if◌then◌else◌, is_some, IsSome, IfSome, IfNone, OnSome, slice_set};
ghost use Rattle.std.specs.List.{slice_get, insert, remove};
ghost use Rattle.tables.specs.Rows.{row_in, row_out};

use std::mem::replace;

// The used row at a position; nothing exactly where there is none, or fewer rows are lent than are
// said to be used.
fn used_row<T: Copy>(rows: &[T], used: usize, at: usize) -> Option<T>
    ensures there { IsSome result ↔ ((at < used) × (used ≤ length rows.now)) }
    ensures row { IfSome result (λ row. slice_get rows.now at ≡ Some row) }
{
    rows.get(..used)?.get(at).copied()
}

/// Puts a row in at a position among the used ones, and moves those behind it on by one. The row
/// behind the used ones is used up, and is answered; nothing, and nothing is done, exactly when the
/// position is past the used rows or there is no row left.
pub fn insert_row<T: Copy>(rows: &mut [T], used: usize, at: usize, row: T) -> Option<T>
    ensures room { IsSome result ↔ ((at ≤ used) × (used < length rows.old)) }
    ensures behind { IfSome result (λ behind. slice_get rows.old used ≡ Some behind) }
    ensures same { IfNone result (rows.new ≡ rows.old) }
    ensures used { OnSome result (take (used + 1) rows.new ≡ insert (take used rows.old) at row) }
    ensures past { OnSome result (drop (used + 1) rows.new ≡ drop (used + 1) rows.old) }
    ensures after { rows.new ≡ (if is_some result then row_in used at row rows.old else rows.old) }
{
    if at > used || used >= rows.len() {
        return None;
    }
    let behind = replace(&mut rows[used], row);
    rows[at..used + 1].rotate_right(1);
    Some(behind)
}

/// Takes the row at a position out from among the used ones, and moves those behind it back by one;
/// the row goes behind them, and is answered. Nothing, and nothing is done, exactly when there is no
/// such row.
pub fn remove_row<T: Copy>(rows: &mut [T], used: usize, at: usize) -> Option<T>
    ensures there { IsSome result ↔ ((at < used) × (used ≤ length rows.old)) }
    ensures row { IfSome result (λ row. slice_get rows.old at ≡ Some row) }
    ensures same { IfNone result (rows.new ≡ rows.old) }
    ensures used { OnSome result (take (used - 1) rows.new ≡ remove (take used rows.old) at) }
    ensures last { OnSome result (slice_get rows.new (used - 1) ≡ slice_get rows.old at) }
    ensures past { OnSome result (drop used rows.new ≡ drop used rows.old) }
    ensures after { rows.new ≡ (if is_some result then row_out used at rows.old else rows.old) }
{
    let row = used_row(rows, used, at)?;
    rows[at..used].rotate_left(1);
    Some(row)
}

/// Puts another row in the place of a used one, which is answered. Nothing, and nothing is done,
/// exactly when there is no such row.
pub fn replace_row<T: Copy>(rows: &mut [T], used: usize, at: usize, row: T) -> Option<T>
    ensures there { IsSome result ↔ ((at < used) × (used ≤ length rows.old)) }
    ensures before { IfSome result (λ before. slice_get rows.old at ≡ Some before) }
    ensures after { rows.new ≡ (if is_some result then slice_set rows.old at row else rows.old) }
{
    let before = used_row(rows, used, at)?;
    rows[at] = row;
    Some(before)
}
