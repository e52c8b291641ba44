// Lists and what is asked of them.
ghost use Rattle.std.specs.Prelude.{◌≡◌, Option, Decides};
ghost use Rattle.search.specs.List.{Meets};
ghost use Rattle.search.specs.View.{is_wanted};

/// A region, as a row of its kind, and the outcome number of the values that it is the first to hold.
#[derive(Clone, Copy)]
pub struct Entry<R> {
    pub row: R,
    pub outcome: u32,
}

/// The entry that decides a value: the first that holds it, by position and outcome number.
#[derive(Clone, Copy, PartialEq, Debug)]
pub struct Match {
    pub position: usize,
    pub outcome: u32,
}

/// What is wished of an outcome. A value that no entry holds is unmatched: its outcome is `None`.
#[derive(Clone, Copy)]
pub enum Wish {
    /// The outcome is this one.
    Is(Option<u32>),
    /// The outcome is another than this one.
    IsNot(Option<u32>),
}

impl Wish {
    // Whether an outcome is as wished.
    pub(crate) fn wants(self, outcome: Option<u32>) -> bool
        ensures { result ≡ is_wanted self outcome }
    {
        match self {
            Wish::Is(wished) => outcome == wished,
            Wish::IsNot(wished) => outcome != wished,
        }
    }

    /// Whether this match, or that there is none, has an outcome as wished.
    pub fn met_by(self, found: Option<Match>) -> bool
        ensures { Decides result (Meets self found) }
    {
        self.wants(found.map(|entry| entry.outcome))
    }
}
