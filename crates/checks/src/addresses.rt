// Of which domain addresses are.
ghost use Rattle.std.specs.Prelude.{◌≡◌, ◌<◌, ◌≤◌, Decides, MatchOption, map, length};
ghost use Rattle.std.specs.List.{slice_get};
ghost use Rattle.search.specs.First.{Before};
ghost use Rattle.search.specs.declared.list.Entry.{Entry};
ghost use Rattle.checks.specs.Addresses.{BlocksAre, AstrayFound, Covers, CoversAt, MeetsRow, Home, domain_in};
ghost use Rattle.checks.specs.Rows.{block_entry};
ghost use Rattle.model.specs.Properties.{Of};
ghost use Rattle.model.specs.Tree.{Tree};

use crate::rows::BlockRow;
use kinds::{Kind, lies_inside, share_a_value};
use search::{Frame, Match, Wish, find, outcome_of};

/// The domain of an address: that of the block that holds it, or 0.
pub fn domain_of<A: Kind, R: Kind>(blocks: &[BlockRow<A::Row>], address: A::Value) -> u32
    ensures { (t : Tree A R) → blocks.now ≡ map (block_entry A.Kind.plain) t.blocks → Of A.Kind.holds R.Kind.holds t address result }
{
    domain_in(outcome_of::<A>(blocks, address))
}

// The domain that a match in the blocks means.
fn domain_in(found: Option<Match>) -> u32
    ensures { result ≡ domain_in found }
{
    found.map_or(0, |block| block.outcome)
}

// The outcome of the addresses of a domain: no block holds those of domain 0.
fn home_of(domain: u32) -> Option<u32>
    ensures { Home domain result }
{
    if domain == 0 { None } else { Some(domain) }
}

// Whether the region of a row holds all of this one.
fn row_covers<A: Kind>(row: A::Row, region: A) -> bool
    ensures { Decides result (Covers A.Kind.holds A.Kind.region row region) }
{
    A::read(row).is_some_and(|around| lies_inside(region, around))
}

// Whether the block at a position holds all of the region.
fn covers_at<A: Kind>(blocks: &[BlockRow<A::Row>], position: usize, region: A) -> bool
    ensures { Decides result (CoversAt A.Kind.holds A.Kind.region blocks.now position region) }
{
    match blocks.get(position) {
        Some(block) => row_covers(block.row, region),
        None => false,
    }
}

// Whether the region of a row shares an address with this one.
fn row_meets<A: Kind>(row: A::Row, region: A) -> bool
    ensures { Decides result (MeetsRow A.Kind.holds A.Kind.region row region) }
{
    A::read(row).is_some_and(|other| share_a_value(region, other))
}

// The position of the first block that shares an address with the region; where none does, the end.
fn first_meeting<A: Kind>(blocks: &[BlockRow<A::Row>], region: A) -> usize
    ensures within { result ≤ length blocks.now }
    ensures before { Before (λ (block : Entry A.Row). MeetsRow A.Kind.holds A.Kind.region block.row region) blocks.now result }
    ensures here { result < length blocks.now → MatchOption (slice_get blocks.now result) ⊥ (λ block. MeetsRow A.Kind.holds A.Kind.region block.row region) }
{
    let first = blocks.iter().position(|block| row_meets(block.row, region));
    match first {
        Some(position) => position,
        None => blocks.len(),
    }
}

/// An address of the region that is not of the domain; nothing exactly when there is none.
///
/// It asks of one address first, since a number that no block can have is that of no domain. Where the
/// block of that address holds all of the region, as most often, no address of it needs to be searched.
/// Else the blocks before the first that meets the region are left out, since a search goes over its
/// list once for each piece.
pub fn find_astray<A: Kind, R: Kind>(
    blocks: &[BlockRow<A::Row>],
    region: A,
    domain: usize,
    frames: &mut [Frame<A::Row>],
) -> Option<A::Value>
    requires { length blocks.now < length frames.old }
    ensures { (t : Tree A R) → BlocksAre A.Kind blocks.now t → AstrayFound A.Kind.holds R.Kind.holds t region domain result }
{
    let address = region.pick();
    let found = outcome_of::<A>(blocks, address);
    let home = domain_in(found);
    if home as usize != domain {
        return Some(address);
    }
    if let Some(block) = found {
        if covers_at(blocks, block.position, region) {
            return None;
        }
    }
    let met = &blocks[first_meeting(blocks, region)..];
    find(met, region, Wish::IsNot(home_of(home)), frames).map(|found| found.value)
}
