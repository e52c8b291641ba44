// Which domain has which addresses. An edit is written, judged, and undone where it is refused, so that
// refusal is not passed up by `?`.
ghost use Rattle.std.specs.Prelude.{◌≡◌, ◌<◌, ◌≤◌, ◌⊎◌, List, map, length, take};
ghost use Rattle.model.specs.Shape.{Domain};
ghost use Rattle.model.specs.Tree.{Tree, Block};
ghost use Rattle.model.specs.declared.answers.Answer.TheVariants.{Done};
ghost use Rattle.model.specs.declared.answers.Refusal.TheVariants.{NoSuch};
ghost use Rattle.model.specs.declared.calls.Call.TheVariants.{Give, Take};
ghost use Rattle.tree.specs.Table.{shape_of};
ghost use Rattle.checks.specs.Addresses.{BlocksAre};
ghost use Rattle.checks.specs.Rows.{block_entry, PropertiesAre};
ghost use Rattle.state.specs.Memory.{SameMemory, lent_by, tables_of};
ghost use Rattle.state.specs.Order.{Refuses};
ghost use Rattle.state.specs.Picture.{Tried};
ghost use Rattle.growth.specs.Blocks.{ApartFrom, AllPlaced};

use checks::{BlockRow, PropertyRow, block_row};
use kinds::Kind;
use model::{MAX_BLOCKS, Refusal};
use search::Frame;
use state::{Memory, State, check_inside, check_number, check_room};
use tables::{insert_row, remove_row, replace_row, used_rows};
use tree::TreeTable;
use verdicts::{first_misplaced, first_overlap};

// 2: the domain exists, and can be given a block.
fn check_owner<V, W>(tree: &TreeTable, domain: usize) -> Result<(), Refusal<V, W>>
    ensures { Refuses result NoSuch ((domain ≡ 0) ⊎ (Domain (shape_of tree.now) domain → ⊥)) }
{
    if domain == 0 || domain >= tree.domain_count() {
        return Err(Refusal::NoSuch);
    }
    Ok(())
}

// The next two take a table with how much of it is used: tried with the used rows alone, lent by the
// caller, after which a proof of the caller does not know the table's rows.

// 6: no used block shares an address with the region.
fn check_apart<A: Kind, W>(
    blocks: &[BlockRow<A::Row>],
    used: usize,
    region: A,
) -> Result<(), Refusal<A::Value, W>>
    ensures { (bs : List (Block A)) → take used blocks.now ≡ map (block_entry A.Kind.plain) bs → ApartFrom A.Kind.holds bs region result }
{
    match first_overlap(used_rows(blocks, used), region) {
        Some(block) => Err(Refusal::Overlap { block }),
        None => Ok(()),
    }
}

// 11: the used blocks misplace no property that stands.
fn check_placed<A: Kind, R: Kind>(
    blocks: &[BlockRow<A::Row>],
    used: usize,
    properties: &[PropertyRow<A::Row, R::Row>],
    standing: usize,
    frames: &mut [Frame<A::Row>],
) -> Result<(), Refusal<A::Value, R::Value>>
    requires { used < length frames.old }
    ensures { (t : Tree A R) → BlocksAre A.Kind (take used blocks.now) t → PropertiesAre A.Kind R.Kind (take standing properties.now) t.properties → AllPlaced A.Kind.holds R.Kind.holds t result }
{
    let blocks = used_rows(blocks, used);
    let properties = used_rows(properties, standing);
    match first_misplaced::<A, R>(blocks, properties, frames) {
        Some(astray) => Err(Refusal::Misplaced {
            property: astray.property,
            address: astray.address,
        }),
        None => Ok(()),
    }
}

/// Gives a block of addresses to a domain.
pub fn give<A: Kind, R: Kind>(
    state: &mut State<A, R>,
    memory: &mut Memory<'_, A::Row, R::Row>,
    domain: usize,
    region: A,
) -> Result<(), Refusal<A::Value, R::Value>>
    ensures does { Tried A.Kind R.Kind state.old (tables_of memory.old) (Give domain region) (lent_by memory.old) (λ _. Done) result state.new (tables_of memory.new) }
    ensures same { SameMemory memory.old memory.new }
{
    memory.check_lengths()?;
    check_owner(&state.tree, domain)?;
    let used = state.block_count;
    check_room(used, MAX_BLOCKS)?;
    check_inside(region, state.addresses)?;
    let row = block_row(region, domain as u32);
    let blocks = &mut *memory.blocks;
    check_apart(blocks, used, region)?;
    let properties = &mut *memory.properties;
    let frames = &mut *memory.address_frames;
    let old = replace_row(blocks, used + 1, used, row).unwrap();
    match check_placed::<A, R>(blocks, used + 1, properties, state.property_count, frames) {
        Ok(()) => {
            state.block_count = used + 1;
            Ok(())
        }
        Err(refusal) => {
            replace_row(blocks, used + 1, used, old).unwrap();
            Err(refusal)
        }
    }
}

/// Takes a block from its domain.
pub fn take<A: Kind, R: Kind>(
    state: &mut State<A, R>,
    memory: &mut Memory<'_, A::Row, R::Row>,
    block: usize,
) -> Result<(), Refusal<A::Value, R::Value>>
    ensures does { Tried A.Kind R.Kind state.old (tables_of memory.old) (Take block) (lent_by memory.old) (λ _. Done) result state.new (tables_of memory.new) }
    ensures same { SameMemory memory.old memory.new }
{
    memory.check_lengths()?;
    let used = state.block_count;
    check_number(block, used)?;
    let blocks = &mut *memory.blocks;
    let properties = &mut *memory.properties;
    let frames = &mut *memory.address_frames;
    let row = remove_row(blocks, used, block).unwrap();
    match check_placed::<A, R>(blocks, used - 1, properties, state.property_count, frames) {
        Ok(()) => {
            state.block_count = used - 1;
            Ok(())
        }
        Err(refusal) => {
            insert_row(blocks, used - 1, block, row).unwrap();
            Err(refusal)
        }
    }
}
