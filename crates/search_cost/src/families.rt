// Families of lists.
use crate::draft::Draft;
use crate::packets::{
    FIELDS, Field, LAST_PORT, LAST_PROTOCOL, Packets, any_field, boxy, prefix, range, some_prefix,
    some_range, thin, whole, with, with_destination, with_destination_ports, with_protocols,
    with_source, with_source_ports,
};
use crate::tiles::tiles;
use chance::Random;
use forms::Range;
use kinds::Kind;
use std::alloc::{AllocError, Global};

#[derive(Clone, Copy)]
pub enum Family {
    // Tiles of a field, with or without its last value, among thin packets in the other fields.
    Strips { tiled: Field, hole: bool },
    // Thin packets with either outcome.
    Mixed,
    // Tiles and thin packets with either outcome, and below them thin packets with the wished one.
    Shadowed,
    // Thin packets, tiles below them, and boxes below these.
    Tiled,
    // Packets that are thin in so many fields, among tiles.
    Slabs { fields: usize },
    // Boxes and two halves.
    Boxes,
    // Packets that are wide in so many fields, and two halves.
    Boxed { fields: usize },
    // Pairs of hosts, with the outcome of the last entry or another.
    Hosts { alike: bool },
    // Packets that are wide in some fields, with either outcome.
    MixedBoxes,
    // Tiles of two fields, and thin packets.
    Grid,
    // Parts of all packets, cut again and again, and thin packets.
    Partition,
    // Prefixes of one address.
    Nested,
    // Single sources, and two halves.
    Sources,
    // Cells of a grid, in some fields.
    Cells,
    // Stairs in two pairs of fields, and tiles.
    Stairs { mixed: bool },
    // Like those of an office.
    Office,
}

/// A family, and the outcome number that is wished.
#[derive(Clone, Copy)]
pub struct Named {
    pub name: &'static str,
    pub family: Family,
    pub wished: u32,
}

fn family_named(name: &'static str, family: Family, wished: u32) -> Named {
    Named {
        name,
        family,
        wished,
    }
}

fn strips(name: &'static str, tiled: Field, hole: bool) -> Named {
    family_named(name, Family::Strips { tiled, hole }, 0)
}

// All of them.
pub(crate) fn families() -> [Named; 23] {
    [
        strips("strips, source tiled", Field::Source, false),
        strips("strips, protocol tiled", Field::Protocol, false),
        strips("strips, hole in protocol", Field::Protocol, true),
        strips("strips, hole in destination", Field::Destination, true),
        family_named("mixed slabs shuffled", Family::Mixed, 0),
        family_named("mixed slabs, wished shadowed", Family::Shadowed, 2),
        family_named("mixed slabs then tiling", Family::Tiled, 0),
        family_named("slabs in two fields", Family::Slabs { fields: 2 }, 0),
        family_named("slabs in three fields", Family::Slabs { fields: 3 }, 0),
        family_named("boxes, halves at end", Family::Boxes, 0),
        family_named("two fields, halves at end", Family::Boxed { fields: 2 }, 0),
        family_named(
            "three fields, halves at end",
            Family::Boxed { fields: 3 },
            0,
        ),
        family_named("hosts, catch-all", Family::Hosts { alike: true }, 0),
        family_named("boxes mixed", Family::MixedBoxes, 0),
        family_named("grid and slabs", Family::Grid, 0),
        family_named("partition and slabs", Family::Partition, 0),
        family_named("nested prefixes", Family::Nested, 0),
        family_named("/32 sources, /0", Family::Sources, 0),
        family_named("cells of 8", Family::Cells, 0),
        family_named("two stairs and tiles", Family::Stairs { mixed: false }, 0),
        family_named(
            "two stairs, tiles, mixed",
            Family::Stairs { mixed: true },
            0,
        ),
        family_named("hosts, accept wished", Family::Hosts { alike: false }, 1),
        family_named("office-like, accept wished", Family::Office, 1),
    ]
}

// All fields, in any order.
fn fields_in_any_order(random: &mut Random) -> [Field; 5] {
    let mut fields = FIELDS;
    for count in 1..=fields.len() {
        let place = random.below(count);
        fields.swap(place, count - 1);
    }
    fields
}

// All packets, but in so many of the fields as these others.
fn in_some_fields(random: &mut Random, count: usize, others: Packets) -> Packets {
    fields_in_any_order(random)
        .iter()
        .take(count)
        .fold(whole(), |packets, field| with(packets, *field, others))
}

// Packets of one host to another.
fn hosts(random: &mut Random) -> Packets {
    let source = 0x0a00_0000 | random.below_u32(1 << 12);
    let destination = 0x0a10_0000 | random.below_u32(1 << 12);
    let port = if random.once_in(4) { 22 } else { 443 };
    let packets = with_source(whole(), prefix(source, 32));
    let packets = with_destination(packets, prefix(destination, 32));
    let packets = with_destination_ports(packets, range(port, port));
    with_protocols(packets, range(6, 6))
}

// Some of eight cells of the numbers up to a last one.
fn cells(random: &mut Random, last: u32) -> Range {
    let width = last.saturating_add(1) / 8;
    let first = random.below_u32(8);
    let end = first + 1 + random.below_u32(3);
    let lo = first.saturating_mul(width);
    let hi = end.saturating_mul(width).saturating_sub(1);
    range(lo, hi.min(last))
}

fn cell(random: &mut Random) -> Packets {
    let packets = with_source(whole(), some_prefix(random, 1, 3));
    let packets = with_destination(packets, some_prefix(random, 1, 3));
    let packets = with_source_ports(packets, cells(random, LAST_PORT));
    let packets = with_destination_ports(packets, cells(random, LAST_PORT));
    with_protocols(packets, cells(random, LAST_PROTOCOL))
}

// The length of a network's prefix: mostly long.
fn network_length(random: &mut Random, short: u32) -> u32 {
    if random.once_in(3) {
        short
    } else {
        24 + random.below_u32(9)
    }
}

const PORTS: [u32; 7] = [22, 25, 53, 80, 443, 3306, 8080];

// Packets of a rule of an office.
fn office(random: &mut Random) -> Packets {
    let mut packets = whole();
    let source_length = network_length(random, 16);
    let destination_length = network_length(random, 12);
    if !random.once_in(4) {
        let address = 0x0a00_0000 | random.below_u32(1 << 18);
        packets = with_source(packets, prefix(address, source_length));
    }
    if !random.once_in(4) {
        let address = 0xac10_0000 | random.below_u32(1 << 18);
        packets = with_destination(packets, prefix(address, destination_length));
    }
    let port = random.pick(&PORTS).unwrap_or(22);
    if !random.once_in(5) {
        packets = with_destination_ports(packets, range(port, port));
    }
    let protocol = if random.once_in(4) { 17 } else { 6 };
    with_protocols(packets, range(protocol, protocol))
}

// Packets of two prefixes, each of one address, and now and then of some ports.
fn nested(random: &mut Random) -> Packets {
    let address = 0x0a0b_0c0d;
    let packets = with_source(whole(), prefix(address, 1 + random.below_u32(32)));
    let other = address.wrapping_mul(7);
    let packets = with_destination(packets, prefix(other, 1 + random.below_u32(32)));
    with_some_ports(random, packets)
}

// The packets, or those of them with some destination ports.
fn with_some_ports(random: &mut Random, packets: Packets) -> Packets {
    if random.once_in(2) {
        return packets;
    }
    with_destination_ports(packets, some_range(random, LAST_PORT))
}

// Cuts all packets along wide ones again and again, until there are so many parts.
fn partition(heap: Global, random: &mut Random, count: usize) -> Result<Vec<Packets>, AllocError> {
    let mut parts = vec![in heap; whole(); 1]?;
    for _ in 0..100_000 {
        if parts.len() >= count {
            break;
        }
        let place = random.below(parts.len());
        let field = any_field(random);
        let along = with(whole(), field, boxy(random));
        if let Some(part) = parts.get_mut(place)
            && let Some((a, b)) = part.split(along)
        {
            *part = a;
            parts.push(b)?;
        }
    }
    Ok(parts)
}

// A stair of prefixes in the addresses, of so many steps, at most 31.
fn address_stair(heap: Global, steps: u32) -> Result<Vec<Packets>, AllocError> {
    let mut stair = Vec::new(heap);
    for step in 1..steps.min(31) + 1 {
        let packets = with_source(whole(), prefix(0, step));
        let rest = (steps.min(31) + 1).saturating_sub(step);
        stair.push(with_destination(packets, prefix(0, rest)))?;
    }
    Ok(stair)
}

// A stair of ranges in the ports, of so many steps.
fn port_stair(heap: Global, steps: u32) -> Result<Vec<Packets>, AllocError> {
    let width = LAST_PORT / steps.saturating_add(1).max(1);
    let mut stair = Vec::new(heap);
    for step in 1..steps.saturating_add(1) {
        let rest = steps.saturating_add(1).saturating_sub(step);
        let packets = with_source_ports(whole(), range(0, step.saturating_mul(width)));
        stair.push(with_destination_ports(packets, range(0, rest.saturating_mul(width))))?;
    }
    Ok(stair)
}

impl Draft<'_> {
    fn strips(&mut self, tiled: Field, hole: bool) -> Result<(), AllocError> {
        let all = tiles(self.heap, tiled, (self.entries / 6).max(4), hole)?;
        self.add_all(&all, 1)?;
        let place = FIELDS.iter().position(|field| *field == tiled).unwrap_or(0);
        for _ in 0..self.missing(1) {
            let other = place.saturating_add(1).saturating_add(self.random.below(4)) % 5;
            let field = FIELDS.get(other).copied().unwrap_or(tiled);
            let packets = thin(self.random, field);
            self.add(packets, 1)?;
        }
        self.mix();
        self.add(whole(), 0)
    }

    fn mixed(&mut self) -> Result<(), AllocError> {
        for _ in 0..self.missing(1) {
            let field = any_field(self.random);
            let packets = thin(self.random, field);
            let outcome = self.random.below_u32(2);
            self.add(packets, outcome)?;
        }
        self.mix();
        self.add(whole(), 1)
    }

    // Packets that are thin in a field but the protocol.
    fn thin_but_protocol(&mut self) -> Packets {
        let field = FIELDS
            .get(self.random.below(4))
            .copied()
            .unwrap_or(Field::Source);
        thin(self.random, field)
    }

    fn shadowed(&mut self) -> Result<(), AllocError> {
        let all = tiles(self.heap, Field::Protocol, self.entries / 6, false)?;
        for packets in &all {
            let outcome = self.random.below_u32(2);
            self.add(*packets, outcome)?;
        }
        for _ in 0..self.missing(self.entries.div_ceil(3)) {
            let packets = self.thin_but_protocol();
            let outcome = self.random.below_u32(2);
            self.add(packets, outcome)?;
        }
        self.mix();
        self.add_thin(0, 2)
    }

    fn tiled(&mut self) -> Result<(), AllocError> {
        for _ in 0..self.missing(self.entries.div_ceil(3)) {
            let packets = self.thin_but_protocol();
            let outcome = if self.random.once_in(3) { 2 } else { 1 };
            self.add(packets, outcome)?;
        }
        self.mix();
        let all = tiles(self.heap, Field::Protocol, self.entries / 6, false)?;
        self.add_all(&all, 1)?;
        self.add_boxes(1, 0)?;
        self.add(whole(), 1)
    }

    fn slabs(&mut self, fields: usize) -> Result<(), AllocError> {
        for _ in 0..self.missing(9) {
            let first = self.random.below(5);
            let mut packets = whole();
            for more in 0..fields {
                let place = first.saturating_add(more) % 5;
                let field = FIELDS.get(place).copied().unwrap_or(Field::Source);
                packets = with(packets, field, thin(self.random, field));
            }
            self.add(packets, 1)?;
        }
        let all = tiles(self.heap, Field::DestinationPort, 8, false)?;
        self.add_all(&all, 1)?;
        self.mix();
        self.add(whole(), 0)
    }

    // Two halves, in every other list among the others, and then all packets.
    fn end_with_halves(&mut self) -> Result<(), AllocError> {
        self.add_halves()?;
        if self.turn % 2 == 1 {
            self.mix();
        }
        self.add(whole(), 0)
    }

    fn boxed(&mut self, fields: usize) -> Result<(), AllocError> {
        for _ in 0..self.missing(3) {
            let others = boxy(self.random);
            let packets = in_some_fields(self.random, fields, others);
            self.add(packets, 1)?;
        }
        self.end_with_halves()
    }

    fn hosts(&mut self, alike: bool) -> Result<(), AllocError> {
        for _ in 0..self.missing(1) {
            let packets = hosts(self.random);
            self.add(packets, 1)?;
        }
        self.add(whole(), u32::from(alike && self.turn % 2 == 0))
    }

    fn mixed_boxes(&mut self) -> Result<(), AllocError> {
        for _ in 0..self.missing(1) {
            let others = boxy(self.random);
            let mut packets = whole();
            for field in &FIELDS {
                if self.random.once_in(2) {
                    packets = with(packets, *field, others);
                }
            }
            let outcome = self.random.below_u32(2);
            self.add(packets, outcome)?;
        }
        self.add(whole(), 1)
    }

    fn grid(&mut self) -> Result<(), AllocError> {
        let rows = tiles(self.heap, Field::SourcePort, 8, false)?;
        let columns = tiles(
            self.heap,
            Field::DestinationPort,
            (self.entries / 24).max(2),
            false,
        )?;
        for row in &rows {
            for column in &columns {
                self.add(with(*row, Field::DestinationPort, *column), 1)?;
            }
        }
        self.add_thin(1, 1)?;
        self.mix();
        self.add(whole(), 0)
    }

    fn partition(&mut self) -> Result<(), AllocError> {
        let parts = partition(self.heap, self.random, (self.entries / 2) as usize)?;
        self.add_all(&parts, 1)?;
        self.add_thin(1, 1)?;
        self.mix();
        self.add(whole(), 0)
    }

    fn nested(&mut self) -> Result<(), AllocError> {
        for _ in 0..self.missing(1) {
            let packets = nested(self.random);
            let outcome = self.random.below_u32(2);
            self.add(packets, outcome)?;
        }
        self.add(whole(), 1)
    }

    fn sources(&mut self) -> Result<(), AllocError> {
        for _ in 0..self.missing(2) {
            let packets = with_source(whole(), prefix(self.random.word(), 32));
            let packets = with_some_ports(self.random, packets);
            self.add(packets, 1)?;
        }
        self.end_with_halves()
    }

    fn cells(&mut self) -> Result<(), AllocError> {
        for _ in 0..self.missing(1) {
            let others = cell(self.random);
            let fields = 2 + self.random.below(3);
            let packets = in_some_fields(self.random, fields, others);
            self.add(packets, 1)?;
        }
        self.add(whole(), 0)
    }

    // Adds these with an outcome, or, where it is so asked, one of four of them with it and the others with 1.
    fn add_mixed(&mut self, all: &[Packets], outcome: u32, mixed: bool) -> Result<(), AllocError> {
        for packets in all {
            let outcome = if mixed && self.random.once_in(4) {
                outcome
            } else {
                1
            };
            self.add(*packets, outcome)?;
        }
        Ok(())
    }

    fn stairs(&mut self, mixed: bool) -> Result<(), AllocError> {
        let third = self.entries.saturating_sub(1) / 3;
        let tiled = tiles(self.heap, Field::Protocol, third, false)?;
        let addresses = address_stair(self.heap, third)?;
        let left = self
            .missing(1)
            .saturating_sub(tiled.len().saturating_add(addresses.len()));
        let ports = port_stair(self.heap, (left & 0xffff) as u32)?;
        if self.turn % 3 == 0 {
            self.add_all(&tiled, 1)?;
            self.add_mixed(&ports, 2, mixed)?;
            self.add_mixed(&addresses, 2, mixed)?;
        } else {
            self.add_mixed(&addresses, 2, mixed)?;
            self.add_mixed(&ports, 2, mixed)?;
            self.add_all(&tiled, 1)?;
        }
        if self.turn % 3 == 2 {
            self.mix();
        }
        self.add(whole(), 0)
    }

    fn office(&mut self) -> Result<(), AllocError> {
        for _ in 0..self.missing(1) {
            let packets = office(self.random);
            let outcome = u32::from(self.random.below_u32(10) < 6);
            self.add(packets, outcome)?;
        }
        self.add(whole(), 0)
    }

    // Draws the list.
    pub(crate) fn draw(&mut self, family: Family) -> Result<(), AllocError> {
        match family {
            Family::Strips { tiled, hole } => self.strips(tiled, hole),
            Family::Mixed => self.mixed(),
            Family::Shadowed => self.shadowed(),
            Family::Tiled => self.tiled(),
            Family::Slabs { fields } => self.slabs(fields),
            Family::Boxes => {
                self.add_boxes(3, 1)?;
                self.end_with_halves()
            }
            Family::Boxed { fields } => self.boxed(fields),
            Family::Hosts { alike } => self.hosts(alike),
            Family::MixedBoxes => self.mixed_boxes(),
            Family::Grid => self.grid(),
            Family::Partition => self.partition(),
            Family::Nested => self.nested(),
            Family::Sources => self.sources(),
            Family::Cells => self.cells(),
            Family::Stairs { mixed } => self.stairs(mixed),
            Family::Office => self.office(),
        }
    }
}
