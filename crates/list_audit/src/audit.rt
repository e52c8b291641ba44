// Asking one question of a list.
ghost use Rattle.std.specs.Prelude.{◌≡◌, length};
ghost use Rattle.list_audit.specs.Asked.{Asked, FirstUnread, ReadAll};
ghost use Rattle.list_audit.specs.declared.audit.Mistake.TheVariants.{FewFrames};

use kinds::Kind;
use search::{Entry, Found, Frame, TooShort, Wish, search};
use std::error::Error;
use std::fmt;

// Why there is no answer.
#[derive(Clone, Copy, Debug)]
pub enum Mistake {
    // No region has the row that it is about.
    NoRegion,
    // No region has the row of the rule at this position.
    NoRule(usize),
    // There are fewer frames than rules plus one.
    FewFrames,
}

impl fmt::Display for Mistake {
    fn fmt<W: fmt::Write>(&self, f: &mut fmt::Formatter<W>) -> fmt::Result {
        match self {
            Mistake::NoRegion => write!(f, "a question is about no region"),
            Mistake::NoRule(position) => write!(f, "the rule at position {position} has no region"),
            Mistake::FewFrames => write!(f, "too few frames for the list"),
        }
    }
}

impl Error for Mistake {}

impl From<TooShort> for Mistake {
    ghost from_gives = { λ short mistake. mistake ≡ FewFrames };

    fn from(_short: TooShort) -> Mistake {
        Self::FewFrames
    }
}

// The first entry whose row no region has, if there is one.
fn first_unread<K: Kind>(list: &[Entry<K::Row>]) -> Option<usize>
    ensures { FirstUnread K.Kind.region list.now result }
{
    list.iter().position(|entry| K::read(entry.row).is_none())
}

// How many rules the list has, if each has a region. One that has none would hold nothing.
pub fn read_all<K: Kind>(list: &[Entry<K::Row>]) -> Result<usize, Mistake>
    ensures { ReadAll K.Kind.region list.now result }
{
    match first_unread::<K>(list) {
        Some(position) => Err(Mistake::NoRule(position)),
        None => Ok(list.len()),
    }
}

// Looks for a value of the target that breaks what is asked: one with this match.
pub fn ask<K: Kind>(
    list: &[Entry<K::Row>],
    target: K::Row,
    breaks: Wish,
    frames: &mut [Frame<K::Row>],
) -> Result<Option<Found<K::Value>>, Mistake>
    ensures { Asked K.Kind.holds K.Kind.region list.now target breaks (length frames.old) result }
{
    let region = K::read(target).ok_or(Mistake::NoRegion)?;
    Ok(search(list, region, breaks, frames)?)
}
