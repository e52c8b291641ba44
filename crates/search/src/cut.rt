// What a search learns from a barren region, and where it looks next.
ghost use Rattle.kinds.specs.Words.{Covered, Inside};
ghost use Rattle.kinds.specs.Related.{Related};
ghost use Rattle.kinds.specs.declared.relation.Relation.TheVariants.{Crossing};
ghost use Rattle.search.specs.Cut.{Kept, PartsOf, Learned, SettledAs};

use kinds::{Kind, lies_inside, share_a_value};

// A region that was cut, while a part of it is looked at.
#[derive(Clone, Copy)]
pub(crate) struct Cut<K> {
    // All of it.
    pub region: K,
    // Where nothing is wished; while the first part is looked at, that part.
    pub barren: K,
    // The part looked at, and what of the region is barren.
    pub joint: K,
}

// What becomes of a cut region when the part looked at lies in a barren region.
#[derive(Clone, Copy)]
pub(crate) enum Settled<K> {
    // All of it lies in this region, in which nothing is wished.
    Whole(K),
    // This part of it is looked at next.
    Rest { cut: Cut<K>, part: K },
}

// The part of a region to look at next, apart from a region that crosses it, and the two joined.
#[derive(Clone, Copy)]
pub(crate) struct Parts<K> {
    pub joint: K,
    pub part: K,
}

// The two parts of a region that another crosses, first the one that shares values with the other.
fn split_along<K: Kind>(region: K, along: K) -> (K, K)
    requires { Related (K.Kind.holds region) (K.Kind.holds along) Crossing }
    ensures { Kept (K.Kind.holds region) (K.Kind.holds along) (K.Kind.holds result.0) (K.Kind.holds result.1) }
{
    let Some((a, b)) = region.split(along) else {
        unreachable()
    };
    if share_a_value(a, along) {
        (a, b)
    } else {
        (b, a)
    }
}

// Cuts a region along another until what they share lies in the other, and answers the last cut.
pub(crate) fn cut_along<K: Kind>(region: K, along: K) -> Parts<K>
    requires { Related (K.Kind.holds region) (K.Kind.holds along) Crossing }
    ensures { PartsOf K.Kind.holds (K.Kind.holds region) (K.Kind.holds along) result }
{
    let mut joint = region;
    loop {
        let (kept, part) = split_along(joint, along);
        if lies_inside(kept, along) {
            return Parts { joint, part };
        }
        joint = kept;
    }
}

// A region around what is joined, with nothing wished in it.
fn learn<K: Kind>(cut: Cut<K>, barren: K) -> K
    requires { Covered (K.Kind.holds cut.joint) (K.Kind.holds barren) (K.Kind.holds cut.barren) }
    ensures { Learned (K.Kind.holds cut.joint) (K.Kind.holds barren) (K.Kind.holds cut.barren) (K.Kind.holds result) }
{
    if lies_inside(cut.joint, barren) {
        barren
    } else {
        cut.joint.resolve(barren, cut.barren)
    }
}

// Takes note that the part looked at lies in a barren region.
pub(crate) fn settle<K: Kind>(cut: Cut<K>, barren: K) -> Settled<K>
    requires within { Inside (K.Kind.holds cut.joint) (K.Kind.holds cut.region) }
    requires covered { Covered (K.Kind.holds cut.joint) (K.Kind.holds barren) (K.Kind.holds cut.barren) }
    ensures { SettledAs K.Kind.holds cut (K.Kind.holds barren) result }
{
    let learned = learn(cut, barren);
    if lies_inside(cut.region, learned) {
        return Settled::Whole(learned);
    }
    let Parts { joint, part } = cut_along(cut.region, learned);
    let cut = Cut {
        region: cut.region,
        barren: learned,
        joint,
    };
    Settled::Rest { cut, part }
}
