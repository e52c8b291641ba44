// Parts of a table.
ghost use Rattle.std.specs.Prelude.{◌≡◌, take, drop};

/// So many rows from a place on, cut to those that there are.
pub fn rows_from<T: Copy>(rows: &[T], start: usize, length: usize) -> &[T]
    ensures { result.now ≡ take length (drop start rows.now) }
{
    let (_, rest) = rows.split_at(start.min(rows.len()));
    let (part, _) = rest.split_at(length.min(rest.len()));
    part
}

/// The used rows, the first `used`; all of them where fewer are lent.
pub fn used_rows<T: Copy>(rows: &[T], used: usize) -> &[T]
    ensures { result.now ≡ take used rows.now }
{
    rows_from(rows, 0, used)
}
