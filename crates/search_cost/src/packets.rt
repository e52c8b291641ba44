// Packets of the Long form: all of them, and thin and wide parts of them.
use chance::Random;
use forms::{LongRest, Prefix, Range, long_addresses, long_rest};
use kinds::{PacketRegion, whole_packets};

pub type Packets = PacketRegion<Prefix, LongRest>;

/// A part of a packet that a rule may ask for.
#[derive(Clone, Copy, PartialEq)]
pub enum Field {
    Source,
    Destination,
    SourcePort,
    DestinationPort,
    Protocol,
}

pub const FIELDS: [Field; 5] = [
    Field::Source,
    Field::Destination,
    Field::SourcePort,
    Field::DestinationPort,
    Field::Protocol,
];

pub(crate) const LAST_PORT: u32 = 65_535;

pub(crate) const LAST_PROTOCOL: u32 = 255;

pub(crate) fn whole() -> Packets {
    whole_packets(long_addresses(), long_rest())
}

// The prefix of so many bits that has the address.
pub(crate) fn prefix(address: u32, length: u32) -> Prefix {
    let bits = match length.min(32) as u8 {
        0 => 0,
        length => address & (u32::MAX << (32 - length)),
    };
    Prefix::new(bits, length.min(32) as u8).unwrap_or_else(|| Prefix::all())
}

// The numbers from one to the other.
pub(crate) fn range(a: u32, b: u32) -> Range {
    Range::new(a.min(b), a.max(b)).unwrap_or_else(|| Range::up_to(a))
}

// These packets, with a field as the others have it.
pub(crate) fn with(packets: Packets, field: Field, others: Packets) -> Packets {
    let mut packets = packets;
    match field {
        Field::Source => packets.right.left = others.right.left,
        Field::Destination => packets.right.right.left = others.right.right.left,
        Field::SourcePort => packets.right.right.right.left = others.right.right.right.left,
        Field::DestinationPort => {
            packets.right.right.right.right.left = others.right.right.right.right.left
        }
        Field::Protocol => {
            packets.right.right.right.right.right = others.right.right.right.right.right
        }
    }
    packets
}

pub(crate) fn with_source(packets: Packets, source: Prefix) -> Packets {
    let mut packets = packets;
    packets.right.left = source;
    packets
}

pub(crate) fn with_destination(packets: Packets, destination: Prefix) -> Packets {
    let mut packets = packets;
    packets.right.right.left = destination;
    packets
}

pub(crate) fn with_source_ports(packets: Packets, ports: Range) -> Packets {
    let mut packets = packets;
    packets.right.right.right.left = ports;
    packets
}

pub(crate) fn with_destination_ports(packets: Packets, ports: Range) -> Packets {
    let mut packets = packets;
    packets.right.right.right.right.left = ports;
    packets
}

pub(crate) fn with_protocols(packets: Packets, protocols: Range) -> Packets {
    let mut packets = packets;
    packets.right.right.right.right.right = protocols;
    packets
}

// All packets with protocols from one to the other.
pub(crate) fn of_protocols(a: u32, b: u32) -> Packets {
    with_protocols(whole(), range(a, b))
}

// Some field.
pub(crate) fn any_field(random: &mut Random) -> Field {
    random.pick(&FIELDS).unwrap_or(Field::Source)
}

// The numbers between two below such a last one.
pub(crate) fn some_range(random: &mut Random, last: u32) -> Range {
    let count = last.saturating_add(1);
    range(random.below_u32(count), random.below_u32(count))
}

// A number and up to so many more, with the first below a bound.
fn short_range(random: &mut Random, first: u32, more: u32) -> Range {
    let a = random.below_u32(first);
    range(a, a.saturating_add(random.below_u32(more)))
}

// A prefix whose length is one of `count` from `least` on.
pub(crate) fn some_prefix(random: &mut Random, least: u32, count: u32) -> Prefix {
    let length = least.saturating_add(random.below_u32(count));
    prefix(random.word(), length)
}

// Packets that are wide in every field.
pub(crate) fn boxy(random: &mut Random) -> Packets {
    let packets = with_source(whole(), some_prefix(random, 1, 6));
    let packets = with_destination(packets, some_prefix(random, 1, 6));
    let packets = with_source_ports(packets, some_range(random, LAST_PORT));
    let packets = with_destination_ports(packets, some_range(random, LAST_PORT));
    with_protocols(packets, some_range(random, LAST_PROTOCOL))
}

// Packets that are thin in this field, and all in the others.
pub(crate) fn thin(random: &mut Random, field: Field) -> Packets {
    match field {
        Field::Source => with_source(whole(), some_prefix(random, 8, 9)),
        Field::Destination => with_destination(whole(), some_prefix(random, 8, 9)),
        Field::SourcePort => with_source_ports(whole(), short_range(random, 65_000, 400)),
        Field::DestinationPort => {
            with_destination_ports(whole(), short_range(random, 65_000, 400))
        }
        Field::Protocol => with_protocols(whole(), short_range(random, 250, 3)),
    }
}

// The target of the lists of this turn.
pub(crate) fn target(turn: u32) -> Packets {
    if turn == 0 {
        return whole();
    }
    let source = if turn % 2 == 1 {
        prefix(0x0a00_0000, 8)
    } else {
        prefix(0x8000_0000, 1)
    };
    with_destination(with_source(whole(), source), prefix(0, turn % 3))
}
