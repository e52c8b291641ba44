// What a search is asked: which values are wished, and what a look at a region tells.
ghost use Rattle.std.specs.Prelude.{List};
ghost use Rattle.kinds.specs.Words.{Inside};
ghost use Rattle.search.specs.Question.{Looked};

use kinds::Kind;

/// What a look at a region tells.
#[derive(Clone, Copy)]
pub enum Look<K, V> {
    /// No value of this region, which holds the one looked at, is wished.
    Drop(K),
    /// This value of the region is wished.
    Found(V),
    /// This entry shares a value with the region and does not hold all of it.
    Cut(K),
}

/// A question about the values of a kind, for [`explore`](crate::explore) to answer.
pub trait Question {
    /// The kind whose values are asked about.
    type Region: Kind;

    // Which values are wished.
    ghost wished: { Self → Self.Region.Value → Type 0 };

    // The values that are asked about.
    ghost scope: { Self → Self.Region.Value → Type 0 };

    // The regions along which a look may cut.
    ghost entries: { Self → List Self.Region };

    /// Looks at a region of values that are asked about.
    fn look(&self, region: Self::Region) -> Look<Self::Region, <Self::Region as Kind>::Value>
        requires { Inside (Self.Region.holds region) (scope self.now) }
        ensures { Looked Self.Region.holds (wished self.now) (entries self.now) region result };
}
