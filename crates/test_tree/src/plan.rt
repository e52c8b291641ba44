// What the walk needs of a packet form: the wholes, and the regions that its calls name.
use forms::{
    FlatRest, LongRest, Prefix, Range, flat_addresses, flat_rest, long_addresses, long_rest,
};
use kinds::{Kind, Pair, Set};

// The hosts and the one service are regions of a single value.
#[derive(Clone, Copy)]
pub struct Plan<A, R> {
    pub addresses: A,
    pub rests: R,
    // The interfaces: one above a firewall, the first below it, and more of them.
    pub upper: Set,
    pub lower: Set,
    pub all_interfaces: Set,
    pub all_but_interface_5: Set,
    pub office: A,
    pub lab: A,
    pub shop: A,
    // The lab and the shop together.
    pub branches: A,
    pub mail_host: A,
    pub lab_host: A,
    pub shop_host: A,
    pub street_host: A,
    pub mail: R,
    pub telnet: R,
    // Telnet, with only one value of what else it may have.
    pub one_telnet: R,
}

const TCP: u32 = 6;

fn one(number: u32) -> Option<Range> {
    Range::new(number, number)
}

// The rest of Long packets with these source ports, to one port over TCP.
fn tcp(sources: Range, port: u32) -> Option<LongRest> {
    Some(Pair {
        left: sources,
        right: Pair {
            left: one(port)?,
            right: one(TCP)?,
        },
    })
}

// The network of the bytes a, b and two that are 0.
fn net(a: u8, b: u8, length: u8) -> Option<Prefix> {
    Prefix::new(u32::from_be_bytes([a, b, 0, 0]), length)
}

fn host(a: u8, b: u8, d: u8) -> Option<Prefix> {
    Prefix::new(u32::from_be_bytes([a, b, 0, d]), 32)
}

pub(crate) fn long_plan() -> Option<Plan<Prefix, LongRest>> {
    let any_port = Range::new(0, 65535)?;
    let one_port = one(5000)?;
    Some(Plan {
        addresses: long_addresses(),
        rests: long_rest(),
        upper: Set::single(0)?,
        lower: Set::single(1)?,
        all_interfaces: Set::up_to(31),
        all_but_interface_5: Set::new(!(1 << 5))?,
        office: net(10, 1, 16)?,
        lab: net(10, 2, 16)?,
        shop: net(10, 3, 16)?,
        branches: net(10, 2, 15)?,
        mail_host: host(10, 1, 25)?,
        lab_host: host(10, 2, 7)?,
        shop_host: host(10, 3, 9)?,
        street_host: host(11, 0, 9)?,
        mail: tcp(one_port, 25)?,
        telnet: tcp(any_port, 23)?,
        one_telnet: tcp(one_port, 23)?,
    })
}

// The rest of Flat packets with this number and these flags.
fn flagged(number: u32, flags: Set) -> Option<FlatRest> {
    Some(Pair {
        left: one(number)?,
        right: flags,
    })
}

pub(crate) fn flat_plan() -> Option<Plan<Range, FlatRest>> {
    let unset = Set::single(0)?;
    Some(Plan {
        addresses: flat_addresses(),
        rests: flat_rest(),
        upper: Set::single(0)?,
        lower: Set::single(1)?,
        all_interfaces: Set::up_to(31),
        all_but_interface_5: Set::new(!(1 << 5))?,
        office: Range::new(100, 199)?,
        lab: Range::new(200, 299)?,
        shop: Range::new(300, 399)?,
        branches: Range::new(200, 399)?,
        mail_host: one(125)?,
        lab_host: one(207)?,
        shop_host: one(309)?,
        street_host: one(900)?,
        mail: flagged(25, unset)?,
        telnet: flagged(23, Set::up_to(1))?,
        one_telnet: flagged(23, unset)?,
    })
}
