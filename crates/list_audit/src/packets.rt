// Packets of the Long form, and the words that rules and questions about them are written with.
ghost use Rattle.std.specs.Prelude.{◌≡◌, ◌+◌, ◌*◌, ◌^◌};

use forms::{LongRest, Prefix, PrefixRow, RangeRow};
use kinds::{PacketRegion, Pair, SetRow};
use std::fmt;
use std::net::Ipv4Addr;

// The regions of packets, and what they are made again from.
pub type Packets = PacketRegion<Prefix, LongRest>;

pub type PacketsRow = Pair<SetRow, Pair<PrefixRow, Pair<PrefixRow, Service>>>;

// Source ports, destination ports and protocols.
pub type Service = Pair<RangeRow, Pair<RangeRow, RangeRow>>;

// A packet: its interface, both addresses, both ports (the source first each time) and its protocol.
pub type Packet = Pair<u8, Pair<u32, Pair<u32, Pair<u32, Pair<u32, u32>>>>>;

const TCP: u32 = 6;

const UDP: u32 = 17;

// The address a.b.c.d as a number.
pub fn ip(a: u8, b: u8, c: u8, d: u8) -> u32
    ensures { result ≡ a * 2 ^ 24 + b * 2 ^ 16 + c * 2 ^ 8 + d }
{
    u32::from_be_bytes([a, b, c, d])
}

// The network of this address and length.
pub fn net(address: u32, length: u8) -> PrefixRow
    ensures { result ≡ record { address = address; length = length } }
{
    PrefixRow { address, length }
}

// The network of one host.
pub fn host(address: u32) -> PrefixRow
    ensures { result ≡ record { address = address; length = 32 } }
{
    net(address, 32)
}

// A constant's value may not call a function, so networks and services are functions without arguments.

// Every address.
pub fn anywhere() -> PrefixRow
    ensures { result ≡ record { address = 0; length = 0 } }
{
    net(0, 0)
}

// The numbers from `lo` to `hi`.
fn span(lo: u32, hi: u32) -> RangeRow
    ensures { result ≡ record { lo = lo; hi = hi } }
{
    RangeRow { lo, hi }
}

// From any port to this port, over TCP.
pub fn tcp(port: u32) -> Service
    ensures { (result.left ≡ record { lo = 0; hi = 65535 }) × ((result.right.left ≡ record { lo = port; hi = port }) × (result.right.right ≡ record { lo = 6; hi = 6 })) }
{
    service(span(0, 65535), span(port, port), span(TCP, TCP))
}

// From this port to the same port, over UDP.
pub fn udp_both(port: u32) -> Service
    ensures { (result.left ≡ record { lo = port; hi = port }) × ((result.right.left ≡ record { lo = port; hi = port }) × (result.right.right ≡ record { lo = 17; hi = 17 })) }
{
    service(span(port, port), span(port, port), span(UDP, UDP))
}

// From any port to any port, over UDP.
pub fn all_udp() -> Service
    ensures { (result.left ≡ record { lo = 0; hi = 65535 }) × ((result.right.left ≡ record { lo = 0; hi = 65535 }) × (result.right.right ≡ record { lo = 17; hi = 17 })) }
{
    service(span(0, 65535), span(0, 65535), span(UDP, UDP))
}

// Every port and protocol.
pub fn all_services() -> Service
    ensures { (result.left ≡ record { lo = 0; hi = 65535 }) × ((result.right.left ≡ record { lo = 0; hi = 65535 }) × (result.right.right ≡ record { lo = 0; hi = 255 })) }
{
    service(span(0, 65535), span(0, 65535), span(0, 255))
}

fn service(source_ports: RangeRow, ports: RangeRow, protocols: RangeRow) -> Service
    ensures { result ≡ record { left = source_ports; right = record { left = ports; right = protocols } } }
{
    Pair {
        left: source_ports,
        right: Pair {
            left: ports,
            right: protocols,
        },
    }
}

// The packets on these interfaces, from and to these networks, of this service.
pub fn packets(interfaces: u32, from: PrefixRow, to: PrefixRow, service: Service) -> PacketsRow
    ensures { result ≡ record { left = record { mask = interfaces }; right = record { left = from; right = record { left = to; right = service } } } }
{
    Pair {
        left: SetRow { mask: interfaces },
        right: Pair {
            left: from,
            right: Pair {
                left: to,
                right: service,
            },
        },
    }
}

// A packet as it is printed.
#[derive(Clone, Copy)]
pub struct Shown(pub Packet);

impl fmt::Display for Shown {
    fn fmt<W: fmt::Write>(&self, f: &mut fmt::Formatter<W>) -> fmt::Result {
        let interface = self.0.left;
        let addresses = self.0.right;
        let ports = addresses.right.right;
        let from = Ipv4Addr::from(addresses.left);
        let to = Ipv4Addr::from(addresses.right.left);
        let from_port = ports.left;
        let to_port = ports.right.left;
        let protocol = ports.right.right;
        write!(
            f,
            "interface {interface}, from {from} port {from_port}, to {to} port {to_port}, protocol {protocol}"
        )
    }
}
