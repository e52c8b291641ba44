// Cases: lists and questions at random, and what the search answers held to the judge.
ghost use Rattle.std.specs.Prelude.{◌≡◌, ◌<◌, ◌≤◌, true, false, IfOk, vec_len, Decides};
ghost use Rattle.search.specs.List.{Meets};

use crate::judged::{Judged, Place};
use crate::shapes::{OUTCOMES, draw_shape};
use chance::Random;
use search::{Entry, Found, Frame, Match, TooShort, Wish, outcome_of, search};
use std::alloc::{AllocError, Global};

// What was done, and how often an answer was wrong.
#[derive(Clone, Copy, Default)]
pub struct Tally {
    pub lists: u32,
    pub questions: u32,
    pub found: u32,
    pub none: u32,
    pub wrong: u32,
}

impl Tally {
    // Counts an answer that is not right.
    fn hold(&mut self, right: bool)
        ensures kept { right ≡ true → self.new ≡ self.old }
        ensures counted { right ≡ false → 0 < self.new.wrong }
    {
        if !right {
            self.wrong = self.wrong.saturating_add(1);
        }
    }
}

const MOST_ENTRIES: u32 = 24;

const QUESTIONS: u32 = 4;

// The first entry that has the value by its numbers.
fn judge<K: Judged>(list: &[Entry<K::Row>], value: K::Value) -> Option<Match> {
    list.iter()
        .enumerate()
        .find(|(_, entry)| K::row_has_number(entry.row, value))
        .map(|(position, entry)| Match {
            position,
            outcome: entry.outcome,
        })
}

// Whether a match is as wished, told case by case: it judges `Wish::met_by`, so does not call it.
fn is_wished(wish: Wish, found: Option<Match>) -> bool
    ensures { Decides result (Meets wish found) }
{
    match (wish, found) {
        (Wish::Is(Some(wished)), Some(entry)) => entry.outcome == wished,
        (Wish::IsNot(Some(unwished)), Some(entry)) => entry.outcome != unwished,
        (Wish::Is(None), None) => true,
        (Wish::IsNot(Some(_)), None) => true,
        (Wish::IsNot(None), Some(_)) => true,
        _ => false,
    }
}

fn draw_wish(random: &mut Random) -> Wish {
    let outcome = random.below_u32(OUTCOMES);
    match random.below_u32(4) {
        0 => Wish::Is(Some(outcome)),
        1 => Wish::IsNot(Some(outcome)),
        2 => Wish::Is(None),
        _ => Wish::IsNot(None),
    }
}

fn draw_list<K: Judged>(heap: Global, random: &mut Random) -> Result<Vec<Entry<K::Row>>, AllocError>
    ensures { IfOk result (λ list. vec_len list ≤ 24) }
{
    let count = random.below_u32(MOST_ENTRIES + 1);
    let shape = draw_shape::<K>(random, count);
    (0..count)
        .map(|place| shape.entry::<K>(random, place))
        .collect(heap)
}

// Whether a value of the row, among these, has a match as wished.
fn any_wished<K: Judged>(
    list: &[Entry<K::Row>],
    target: K::Row,
    wish: Wish,
    values: &[K::Value],
) -> bool {
    values.iter().any(|value| {
        K::row_has_number(target, *value) && is_wished(wish, judge::<K>(list, *value))
    })
}

// Whether a found value is of the target, with the match that the judge gives, as wished.
fn is_witness<K: Judged>(
    list: &[Entry<K::Row>],
    target: K::Row,
    wish: Wish,
    found: Found<K::Value>,
) -> bool {
    let match_of = judge::<K>(list, found.value);
    K::row_has_number(target, found.value) && match_of == found.decided && is_wished(wish, match_of)
}

// One question: with a frame too few the search has to say so, and with enough to answer rightly.
// The frames are full of junk.
fn ask<K: Judged>(
    heap: Global,
    random: &mut Random,
    list: &[Entry<K::Row>],
    values: &[K::Value],
    tally: &mut Tally,
) -> Result<(), AllocError> {
    let row = K::draw(random, Place::Target);
    let wish = draw_wish(random);
    let junk = Frame::filled(K::draw(random, Place::Entry));
    tally.questions = tally.questions.saturating_add(1);
    let Some(target) = K::read(row) else {
        tally.hold(false);
        return Ok(());
    };
    let mut frames = vec![in heap; junk; list.len()]?;
    tally.hold(search(list, target, wish, frames.as_mut_slice()).is_err());
    frames.push(junk)?;
    match search(list, target, wish, frames.as_mut_slice()) {
        Err(TooShort) => tally.hold(false),
        Ok(None) => {
            tally.none = tally.none.saturating_add(1);
            tally.hold(!any_wished::<K>(list, row, wish, values));
        }
        Ok(Some(found)) => {
            tally.found = tally.found.saturating_add(1);
            tally.hold(is_witness::<K>(list, row, wish, found));
        }
    }
    Ok(())
}

// Makes so many lists, looks up every small value in each, and asks a few questions of it.
pub(crate) fn run<K: Judged>(heap: Global, seed: u64, lists: u32) -> Result<Tally, AllocError> {
    let mut random = Random::new(seed);
    let mut tally = Tally::default();
    let values = K::small_values(heap)?;
    for _ in 0..lists {
        let list = draw_list::<K>(heap, &mut random)?;
        tally.lists = tally.lists.saturating_add(1);
        for value in &values {
            let found = outcome_of::<K>(&list, *value);
            tally.hold(found == judge::<K>(&list, *value));
        }
        for _ in 0..QUESTIONS {
            ask::<K>(heap, &mut random, &list, &values, &mut tally)?;
        }
    }
    Ok(tally)
}
