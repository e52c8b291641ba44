// The lists that are asked.
use crate::cost::{Case, entries};
use crate::draft::Draft;
use crate::families::Named;
use crate::packets::{target, whole};
use chance::Random;
use search::Wish;
use std::alloc::{AllocError, Global};

// The number that the draws start from.
pub(crate) const SEED: u64 = 20_261;

// Lists of a family.
pub(crate) const LISTS: u32 = 8;

// A list that is yet empty.
fn blank(heap: Global, random: &mut Random, count: u32, turn: u32) -> Draft<'_> {
    Draft {
        heap,
        random,
        items: Vec::new(heap),
        entries: count,
        turn,
    }
}

// The lists of a family with about so many entries, each asked with this wish.
pub(crate) fn lists(
    heap: Global,
    random: &mut Random,
    named: Named,
    count: u32,
) -> Result<Vec<Case>, AllocError> {
    let mut cases = Vec::new(heap);
    for turn in 0..LISTS {
        let mut draft = blank(heap, random, count, turn);
        draft.draw(named.family)?;
        cases.push(Case {
            heap,
            list: entries(heap, &draft.items)?,
            target: target(turn),
            wish: Wish::Is(Some(named.wished)),
        })?;
    }
    Ok(cases)
}

// Thin packets and two entries that hold all, and what is asked of all packets.
pub(crate) fn covered(heap: Global, random: &mut Random) -> Result<Case, AllocError> {
    let mut draft = blank(heap, random, 0, 0);
    draft.draw_covered()?;
    Ok(Case {
        heap,
        list: entries(heap, &draft.items)?,
        target: whole(),
        wish: Wish::Is(Some(0)),
    })
}

pub(crate) fn matched(heap: Global, random: &mut Random) -> Result<Case, AllocError> {
    let mut draft = blank(heap, random, 0, 0);
    draft.draw_matched()?;
    Ok(Case {
        heap,
        list: entries(heap, &draft.items)?,
        target: whole(),
        wish: Wish::Is(None),
    })
}
