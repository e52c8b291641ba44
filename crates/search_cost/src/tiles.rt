// Tiles: packets that are apart in one field, and all in the others, and cover all of the field, or all but
// its last value.
use crate::packets::{
    Field, LAST_PORT, LAST_PROTOCOL, Packets, prefix, range, whole, with_destination,
    with_destination_ports, with_protocols, with_source, with_source_ports,
};
use forms::{Prefix, Range};
use std::alloc::{AllocError, Global};

// The packets with this source, or destination.
fn addressed(field: Field, addresses: Prefix) -> Packets {
    if field == Field::Source {
        with_source(whole(), addresses)
    } else {
        with_destination(whole(), addresses)
    }
}

// The packets with these ports or protocols.
fn numbered(field: Field, numbers: Range) -> Packets {
    match field {
        Field::SourcePort => with_source_ports(whole(), numbers),
        Field::DestinationPort => with_destination_ports(whole(), numbers),
        _ => with_protocols(whole(), numbers),
    }
}

// Prefixes of all addresses with so many first bits set, but the last address.
fn all_but_last(tiles: &mut Vec<Packets>, field: Field, bits: u32) -> Result<(), AllocError> {
    for length in bits.saturating_add(1)..33 {
        let last = u32::MAX << (32 - length);
        let sibling = last ^ (1 << (32 - length));
        tiles.push(addressed(field, prefix(sibling, length)))?;
    }
    Ok(())
}

// Tiles of addresses: at most so many, a power of two.
fn of_addresses(
    heap: Global,
    field: Field,
    count: u32,
    hole: bool,
) -> Result<Vec<Packets>, AllocError> {
    let mut tiles = Vec::new(heap);
    let bits = count.max(1).ilog2();
    let all = 1 << bits;
    for tile in 0..all {
        if hole && tile == all - 1 {
            all_but_last(&mut tiles, field, bits)?;
        } else {
            let address = if bits == 0 { 0 } else { tile << (32 - bits) };
            tiles.push(addressed(field, prefix(address, bits)))?;
        }
    }
    Ok(tiles)
}

// Tiles of numbers up to a last one.
fn of_numbers(
    heap: Global,
    field: Field,
    count: u32,
    hole: bool,
) -> Result<Vec<Packets>, AllocError> {
    let last = if field == Field::Protocol {
        LAST_PROTOCOL
    } else {
        LAST_PORT
    };
    let count = count.max(1);
    let width = (last + 1) / count;
    let mut tiles = Vec::new(heap);
    for tile in 0..count {
        let lo = tile.saturating_mul(width);
        let hi = if tile == count - 1 {
            last - u32::from(hole)
        } else {
            lo.saturating_add(width).saturating_sub(1)
        };
        tiles.push(numbered(field, range(lo, hi)))?;
    }
    Ok(tiles)
}

pub(crate) fn tiles(
    heap: Global,
    field: Field,
    count: u32,
    hole: bool,
) -> Result<Vec<Packets>, AllocError> {
    match field {
        Field::Source | Field::Destination => of_addresses(heap, field, count, hole),
        Field::SourcePort | Field::DestinationPort | Field::Protocol => {
            of_numbers(heap, field, count, hole)
        }
    }
}
