// The trait of a field kind.
ghost use Rattle.std.specs.Prelude.{◌≡◌, Some, Decides, Option};
ghost use Rattle.kinds.specs.Words.{MeetOf, SplitOf, Finite, Inhabited, Decided, Disjoint, Inside, Covered};
ghost use Rattle.kinds.specs.Related.{Related};

use crate::relation::Relation;

/// A field kind, implemented by the type of its regions. No region is empty, and each has finitely
/// many values; a kind is known by nothing but which values its regions hold.
pub trait Kind: Copy {
    /// What a region holds.
    type Value: Copy;

    /// How a region lies in a table: plain data, which is read to have the region again.
    type Row: Copy;

    // The meaning: which values a region holds.
    ghost holds: { Self → Self.Value → Type 0 };

    // A region's own row, and the region that a row stands for, if it stands for one.
    ghost plain: { Self → Self.Row };

    ghost region: { Self.Row → Option Self };

    /// Whether the region holds the value.
    fn has(self, value: Self::Value) -> bool
        ensures { Decides result (holds self value) };

    /// The region of the common values; nothing exactly when there are none.
    fn meet(self, other: Self) -> Option<Self>
        ensures { MeetOf holds (holds self) (holds other) result };

    /// Cuts this region along the other; nothing exactly when there is no common value, or no other
    /// one in this region. Which part comes first is left open.
    fn split(self, other: Self) -> Option<(Self, Self)>
        ensures { SplitOf holds (holds self) (holds other) result };

    /// Some value that the region holds.
    fn pick(self) -> Self::Value
        ensures { holds self result };

    /// How this region lies to the other. The body asks for what they have in common and for a
    /// cut; a kind that can tell at once says so.
    fn relation(self, other: Self) -> Relation
        ensures { Related (holds self) (holds other) result }
    {
        let Some(_) = self.meet(other) else {
            return Relation::Apart;
        };
        match self.split(other) {
            None => Relation::Inside,
            Some(_) => Relation::Crossing,
        }
    }

    /// A region that holds this one, and nothing that neither of two others holds, which hold this
    /// one between them. The larger it is the less a search has to look at; the body answers this
    /// one itself.
    fn resolve(self, one: Self, other: Self) -> Self
        requires { Covered (holds self) (holds one) (holds other) }
        ensures holds { Inside (holds self) (holds result) }
        ensures within { Covered (holds result) (holds one) (holds other) }
    {
        self
    }

    /// A region that holds this one, inside `wide` and apart from `other`. The larger it is the
    /// less a search has to look at; the body answers this one itself.
    fn separate(self, wide: Self, other: Self) -> Self
        requires inside { Inside (holds self) (holds wide) }
        requires apart { Disjoint (holds self) (holds other) }
        ensures holds { Inside (holds self) (holds result) }
        ensures within { Inside (holds result) (holds wide) }
        ensures clear { Disjoint (holds result) (holds other) }
    {
        self
    }

    /// The region as it lies in a table.
    fn row(self) -> Self::Row
        ensures { result ≡ plain self };

    /// The region that a row stands for; nothing where it stands for none.
    fn read(row: Self::Row) -> Option<Self>
        ensures { result ≡ region row };

    ghost inhabited: { (x : Self) → Inhabited (holds x) };

    ghost finite: { (x : Self) → Finite (holds x) };

    ghost decided: { (x : Self) → Decided (holds x) };

    ghost rereads: { (x : Self) → region (plain x) ≡ Some x };

    ghost faithful: { (row : Self.Row) (x : Self) → region row ≡ Some x → plain x ≡ row };
}
