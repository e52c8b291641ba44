// A buffer with its length beside it.
ghost use Rattle.std.specs.Prelude.{◌≡◌, ◌≤◌, length, take};

use crate::full::Full;
use crate::part::used_rows;
use std::alloc::AllocError;

/// Up to `N` things in place, without a heap: the first `count` items are in use, what lies past them
/// is junk.
pub struct FixedVec<T, const N: usize> {
    items: [T; N],
    count: usize,
    pub ghost long: { length items ≡ N },
    pub ghost few: { count ≤ N },
    pub ghost counted: { length (take count items) ≡ count },
}

// By hand: beside ghost fields a derive of `Clone` is refused.
impl<T: Copy, const N: usize> Clone for FixedVec<T, N> {
    ghost use Rattle.std.specs.Prelude.{⊤};

    ghost is_clone = { λ v w. w ≡ v };

    ghost is_infallible = { λ _. ⊤ };

    fn clone(&self) -> Result<Self, AllocError> {
        Ok(*self)
    }
}

impl<T: Copy, const N: usize> Copy for FixedVec<T, N> {}

impl<T: Copy, const N: usize> FixedVec<T, N> {
    ghost use Rattle.std.specs.Prelude.{◌<◌, ◌↔◌, [], ◌∷◌, ◌++◌, IsOk, OnOk, OnErr, IfNone, slice_get, slice_set};
    ghost use Rattle.tables.specs.FixedVec.{used};

    /// No item yet; `blank` stands where no item is.
    pub fn new(blank: T) -> Self
        ensures { used result ≡ [] }
    {
        FixedVec {
            items: [blank; N],
            count: 0,
        }
    }

    /// How many items are in use.
    pub fn len(&self) -> usize
        ensures len { result ≡ length (used self.now) }
        ensures within { result ≤ N }
    {
        self.as_slice().len()
    }

    /// The items in use, in order.
    pub fn as_slice(&self) -> &[T]
        ensures { result.now ≡ used self.now }
    {
        used_rows(&self.items, self.count)
    }

    /// The item at a position; nothing where there is none.
    pub fn get(&self, index: usize) -> Option<T>
        ensures { result ≡ slice_get (used self.now) index }
    {
        self.as_slice().get(index).copied()
    }

    /// Puts an item behind the others. Where there is no room nothing is done.
    pub fn push(&mut self, item: T) -> Result<(), Full>
        ensures room { IsOk result ↔ (length (used self.old) < N) }
        ensures after { OnOk result (used self.new ≡ used self.old ++ item ∷ []) }
        ensures same { OnErr result (self.new ≡ self.old) }
    {
        if self.count >= N {
            return Err(Full);
        }
        self.items[self.count] = item;
        self.count += 1;
        Ok(())
    }

    /// Puts another item in the place of one; the item that was there. Where there is none nothing is
    /// done.
    pub fn set(&mut self, index: usize, item: T) -> Option<T>
        ensures old { result ≡ slice_get (used self.old) index }
        ensures after { used self.new ≡ slice_set (used self.old) index item }
        ensures same { IfNone result (self.new ≡ self.old) }
    {
        if index >= self.count {
            return None;
        }
        let old = self.items[index];
        self.items[index] = item;
        Some(old)
    }
}
