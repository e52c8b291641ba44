// The search: one walk over frames, for every question.
ghost use Rattle.std.specs.Prelude.{◌≤◌, length, MatchOption};
ghost use Rattle.kinds.specs.Words.{Inside, Disjoint};
ghost use Rattle.kinds.specs.Related.{Related};
ghost use Rattle.kinds.specs.declared.relation.Relation.TheVariants.{Crossing};
ghost use Rattle.search.specs.Cut.{Begun};

use crate::cut::{Cut, Settled, settle};
use crate::frames::{Frame, keep, kept};
use crate::question::{Look, Question};
use kinds::Kind;

// What is known of the region that was looked at last, or is looked at next.
#[derive(Clone, Copy)]
enum Focus<K> {
    // It is looked at next.
    Open(K),
    // It lies in this region, in which nothing is wished.
    Barren(K),
}

// Cuts a region along an entry that crosses it; first the part inside the entry is looked at.
fn begin<K: Kind>(region: K, entry: K) -> Cut<K>
    requires { Related (K.Kind.holds region) (K.Kind.holds entry) Crossing }
    ensures { Begun K.Kind.holds region (K.Kind.holds entry) result }
{
    let Some(common) = region.meet(entry) else {
        unreachable()
    };
    Cut {
        region,
        barren: common,
        joint: common,
    }
}

/// Looks for a wished value of the target, in as many frames as the question has entries.
///
/// A frame keeps a region that was cut while a part of it is looked at. Once nothing is wished in
/// some region around that part, what was learned is resolved with what is known of the frame: then
/// all of the frame's region is settled, or its next part comes up.
pub fn explore<Q: Question>(
    question: &Q,
    target: Q::Region,
    frames: &mut [Frame<<Q::Region as Kind>::Row>],
) -> Option<<Q::Region as Kind>::Value>
    requires room { length (Q.entries question.now) ≤ length frames.old }
    requires asked { Inside (Q.Region.holds target) (Q.scope question.now) }
    ensures { MatchOption result (Disjoint (Q.Region.holds target) (Q.wished question.now)) (λ v. Q.Region.holds target v × Q.wished question.now v) }
{
    let mut depth = 0;
    let mut focus = Focus::Open(target);
    loop {
        match focus {
            Focus::Open(region) => match question.look(region) {
                Look::Found(value) => return Some(value),
                Look::Drop(barren) => focus = Focus::Barren(barren),
                Look::Cut(entry) => {
                    let cut = begin(region, entry);
                    keep(frames, depth, cut);
                    depth += 1;
                    focus = Focus::Open(cut.joint);
                }
            },
            Focus::Barren(barren) => {
                if depth == 0 {
                    return None;
                }
                match settle(kept(frames, depth - 1), barren) {
                    Settled::Whole(barren) => {
                        depth -= 1;
                        focus = Focus::Barren(barren);
                    }
                    Settled::Rest { cut, part } => {
                        keep(frames, depth - 1, cut);
                        focus = Focus::Open(part);
                    }
                }
            }
        }
    }
}
