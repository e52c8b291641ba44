// The search of a list for a value with a wished outcome.
ghost use Rattle.std.specs.Prelude.{◌<◌, length};
ghost use Rattle.search.specs.Answer.{Answered, Searched};
ghost use Rattle.search.specs.List.{row_holds};

use crate::engine::explore;
use crate::frames::Frame;
use crate::list::{Entry, Match, Wish};
use crate::look::Viewed;
use crate::lookup::outcome_of;
use crate::view::Wished;
use kinds::Kind;
use thiserror::Error;

/// A value with an outcome as wished, and the entry that decides it, if one does.
#[derive(Clone, Copy)]
pub struct Found<V> {
    pub value: V,
    pub decided: Option<Match>,
}

/// There are fewer frames than entries plus one.
#[derive(Clone, Copy, Debug, PartialEq, Error)]
#[error("fewer frames than entries plus one")]
pub struct TooShort;

/// A value of the target whose outcome in the list is as wished; nothing exactly where no value of
/// the target has such an outcome. Which of these values it is, is left open.
#[tactic(auto, using(crate::proofs::Views::met_well, crate::proofs::Views::well_met))]
pub fn find<K: Kind>(
    list: &[Entry<K::Row>],
    target: K,
    wish: Wish,
    frames: &mut [Frame<K::Row>],
) -> Option<Found<K::Value>>
    requires { length list.now < length frames.old }
    ensures { Answered (row_holds K.Kind.holds K.Kind.region) list.now (K.Kind.holds target) wish result }
{
    let view = Wished::<K> { list, wish };
    let question = Viewed {
        view: &view,
        target,
    };
    let value = explore(&question, target, frames)?;
    let decided = outcome_of::<K>(list, value);
    Some(Found { value, decided })
}

/// Looks for a value of the target whose outcome in the list is as wished, as [`find`] does, and
/// tests first whether the frames are more than the entries: for who has not counted them.
pub fn search<K: Kind>(
    list: &[Entry<K::Row>],
    target: K,
    wish: Wish,
    frames: &mut [Frame<K::Row>],
) -> Result<Option<Found<K::Value>>, TooShort>
    ensures { Searched (row_holds K.Kind.holds K.Kind.region) list.now (K.Kind.holds target) wish (length frames.old) result }
{
    if frames.len() <= list.len() {
        return Err(TooShort);
    }
    Ok(find(list, target, wish, frames))
}
