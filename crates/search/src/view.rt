// What a question sees of a list.
ghost use Rattle.std.specs.Prelude.{◌≡◌, ◌<◌, Bool, List, Some, length, map};
ghost use Rattle.std.specs.List.{slice_get};
ghost use Rattle.search.specs.View.{sights_of, end_of};
ghost use Rattle.search.specs.declared.sight.Sight.{Sight as SightOf};

use crate::list::{Entry, Wish};
use crate::sight::Sight;
use kinds::Kind;

/// A list as a question sees it: each entry is good or bad, or is passed over, and so is the end,
/// for the values that no entry holds. A value is wished when the first entry that holds it is
/// good, or none holds it and the end is good.
pub trait View {
    /// The kind of the entries.
    type Region: Kind;

    // The entries, in order.
    ghost sights: { Self → List (SightOf Self.Region) };

    // Whether the end is good.
    ghost end: { Self → Bool };

    /// How many entries there are.
    fn len(&self) -> usize
        ensures { result ≡ length (sights self.now) };

    /// The entry at a position.
    fn sight(&self, position: usize) -> Sight<Self::Region>
        requires { position < length (sights self.now) }
        ensures { slice_get (sights self.now) position ≡ Some result };

    /// Whether the end is good.
    fn is_end_good(&self) -> bool
        ensures { result ≡ end self.now };
}

/// A list with what is wished of its outcomes: an entry is good whose outcome is as wished, and a
/// row that reads as nothing is passed over.
#[derive(Drop)]
pub struct Wished<'a, K: Kind> {
    pub list: &'a [Entry<K::Row>],
    pub wish: Wish,
}

impl<K: Kind> View for Wished<'_, K> {
    type Region = K;

    ghost sights = { λ w. sights_of K.Kind.region w.wish w.list.now };

    ghost end = { λ w. end_of w.wish };

    fn len(&self) -> usize {
        self.list.len()
    }

    fn sight(&self, position: usize) -> Sight<K> {
        let entry = self.list[position];
        match K::read(entry.row) {
            None => Sight::Passed,
            Some(region) => {
                if self.wish.wants(Some(entry.outcome)) {
                    Sight::Good(region)
                } else {
                    Sight::Bad(region)
                }
            }
        }
    }

    fn is_end_good(&self) -> bool {
        self.wish.wants(None)
    }
}
