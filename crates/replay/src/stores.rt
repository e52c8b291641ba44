// The memory of a replay, on the heap.
ghost use Rattle.std.specs.Prelude.{◌≡◌, ◌≤◌, IfOk, OnOk, vec_len};
ghost use Rattle.state.specs.Memory.{lent_by, tables_of};
ghost use Rattle.replay.specs.Replay.{Begins, Fits, Longer, Reaches, least, lengths_in, tables_in};

use checks::{BlockRow, PacketRow, PropertyRow, RuleRow};
use kinds::{Kind, whole_packets};
use model::{
    Decision, Lent, MAX_BLOCKS, MAX_PROPERTIES, MAX_RULES, MIN_ADDRESS_FRAMES, MIN_PACKET_FRAMES,
};
use register::Memory;
use search::{Entry, Frame};
use std::alloc::{AllocError, Global};

/// Tables and frames with any contents. `X` and `Y` are the rows of addresses and of rests.
#[derive(Drop)]
pub struct Stores<X, Y> {
    pub rules: Vec<RuleRow<X, Y>>,
    pub blocks: Vec<BlockRow<X>>,
    pub properties: Vec<PropertyRow<X, Y>>,
    pub packet_frames: Vec<Frame<PacketRow<X, Y>>>,
    pub address_frames: Vec<Frame<X>>,
}

impl<X, Y> Stores<X, Y> {
    /// All rows, as memory for calls. What they hold after the loan is not told.
    pub fn lend(&mut self) -> Memory<'_, X, Y>
        ensures tables { tables_of result ≡ tables_in self.old }
        ensures lengths { lent_by result ≡ lengths_in self.old }
    {
        Memory {
            rules: self.rules.as_mut_slice(),
            blocks: self.blocks.as_mut_slice(),
            properties: self.properties.as_mut_slice(),
            packet_frames: self.packet_frames.as_mut_slice(),
            address_frames: self.address_frames.as_mut_slice(),
        }
    }
}

// Makes the rows at least so many: where there are fewer, `filler` is added.
fn lengthen<T: Copy>(rows: &mut Vec<T>, count: usize, filler: T) -> Result<(), AllocError>
    ensures long { OnOk result (count ≤ vec_len rows.new) }
    ensures exact { OnOk result (vec_len rows.old ≤ count → vec_len rows.new ≡ count) }
    ensures kept { Begins rows.old.items rows.new.items }
{
    if rows.len() < count {
        rows.resize(count, filler)?;
    }
    Ok(())
}

// A property whose regions are wholes.
fn whole_property<A: Kind, R: Kind>(addresses: A, rests: R) -> PropertyRow<A::Row, R::Row> {
    let address = addresses.row();
    PropertyRow {
        sort: Decision::Discard,
        from: 0,
        to: 0,
        source: address,
        destination: address,
        rest: rests.row(),
    }
}

// Makes the stores at least as long as this. What is added are rows of the wholes, as good as any others.
pub(crate) fn lengthen_all<A: Kind, R: Kind>(
    stores: &mut Stores<A::Row, R::Row>,
    lent: Lent,
    addresses: A,
    rests: R,
) -> Result<(), AllocError>
    ensures long { OnOk result (Reaches stores.new lent) }
    ensures exact { OnOk result (Fits stores.old stores.new lent) }
    ensures kept { OnOk result (Longer stores.old stores.new) }
{
    let row = whole_packets(addresses, rests).row();
    let address = addresses.row();
    let property = whole_property(addresses, rests);
    lengthen(&mut stores.rules, lent.rules, Entry { row, outcome: 0 })?;
    lengthen(
        &mut stores.blocks,
        lent.blocks,
        Entry {
            row: address,
            outcome: 0,
        },
    )?;
    lengthen(&mut stores.properties, lent.properties, property)?;
    lengthen(
        &mut stores.packet_frames,
        lent.packet_frames,
        Frame::filled(row),
    )?;
    lengthen(
        &mut stores.address_frames,
        lent.address_frames,
        Frame::filled(address),
    )
}

/// Stores with exactly these lengths.
pub fn stores_with<A: Kind, R: Kind>(
    alloc: Global,
    lent: Lent,
    addresses: A,
    rests: R,
) -> Result<Stores<A::Row, R::Row>, AllocError>
    ensures { IfOk result (λ stores. lengths_in stores ≡ lent) }
{
    let mut stores = Stores {
        rules: Vec::new(alloc),
        blocks: Vec::new(alloc),
        properties: Vec::new(alloc),
        packet_frames: Vec::new(alloc),
        address_frames: Vec::new(alloc),
    };
    lengthen_all(&mut stores, lent, addresses, rests)?;
    Ok(stores)
}

/// The least lengths with which no call is refused for want of room.
pub fn least_lengths() -> Lent
    ensures { result ≡ least }
{
    Lent {
        rules: MAX_RULES,
        blocks: MAX_BLOCKS,
        properties: MAX_PROPERTIES,
        packet_frames: MIN_PACKET_FRAMES,
        address_frames: MIN_ADDRESS_FRAMES,
    }
}
