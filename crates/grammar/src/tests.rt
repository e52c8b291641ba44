// Lines with meanings and faults that were worked out by hand.
use super::*;
use forms::{LongRest, Prefix};
use model::{Call, Decision};
use spelling::{NumberFault, RegionFault};
use std::fmt::InlineText;

fn call(line: &[u8]) -> Option<LongCall> {
    match read_line(line) {
        Ok(Line::Call(call)) => Some(call),
        _ => None,
    }
}

fn fault(line: &[u8]) -> Option<LineFault> {
    read_line(line).err()
}

fn at(cause: Cause, field: usize, byte: usize) -> Option<LineFault> {
    Some(LineFault { cause, field, byte })
}

// The numbers of a region: of its prefixes, and of its ranges.
fn numbers(
    source: Prefix,
    destination: Prefix,
    rest: LongRest,
) -> ([(u32, u8); 2], [(u32, u32); 3]) {
    let prefixes = [source, destination].map(|net| (net.address(), net.length()));
    let ranges = [rest.left, rest.right.left, rest.right.right].map(|range| (
        range.lo(),
        range.hi(),
    ));
    (prefixes, ranges)
}

#[test]
fn lines_without_regions(rt: HostRuntime) {
    assert!(rt; matches!(read_line(b"T,1"), Ok(Line::Heading)));
    assert!(rt; matches!(read_line(b"M,65535"), Ok(Line::List { number: 65535 })));
    assert!(rt;
        matches!(
            call(b"A,3,1,2,d"),
            Some(Call::Attach {
                domain: 3,
                upper: 1,
                lower: 2,
                decision: Decision::Discard
            })
        )
    );
    assert!(rt;
        matches!(
            call(b"B,4,007"),
            Some(Call::Branch {
                firewall: 4,
                interface: 7
            })
        )
    );
    assert!(rt; matches!(call(b"K,0"), Some(Call::Take { block: 0 })));
    assert!(rt;
        matches!(
            call(b"L,5,6"),
            Some(Call::Lift {
                firewall: 5,
                position: 6
            })
        )
    );
    assert!(rt; matches!(call(b"W,9"), Some(Call::Withdraw { property: 9 })));
}

#[test]
fn lines_with_regions(rt: HostRuntime) {
    let given = match call(b"G,2,10.1.0.0/16") {
        Some(Call::Give { domain, region }) => Some((domain, region.address(), region.length())),
        _ => None,
    };
    assert!(rt; given == Some((2, 167837696, 16)));
    let region = ([(167772160, 8), (0, 0)], [(0, 65535), (80, 443), (6, 17)]);
    let placed = match call(b"P,1,2,a,0000000d,10.0.0.0/8,0.0.0.0/0,0-65535,80-443,6-17") {
        Some(
            Call::Place {
                firewall: 1,
                position: 2,
                rule,
            },
        ) if rule.decision == Decision::Accept && rule.interfaces.mask() == 13 => {
            Some(numbers(rule.source, rule.destination, rule.rest))
        }
        _ => None,
    };
    assert!(rt; placed == Some(region));
    let altered = match call(b"C,2,1,d,00000001,10.0.0.0/8,0.0.0.0/0,0-65535,80-443,6-17") {
        Some(
            Call::Alter {
                firewall: 2,
                position: 1,
                rule,
            },
        ) if rule.decision == Decision::Discard && rule.interfaces.mask() == 1 => {
            Some(numbers(rule.source, rule.destination, rule.rest))
        }
        _ => None,
    };
    assert!(rt; altered == Some(region));
}

#[test]
fn lines_with_properties_and_packets(rt: HostRuntime) {
    let region = ([(0, 0), (167772160, 8)], [(1, 2), (3, 4), (5, 6)]);
    let stands = match call(b"S,a,7,8,0.0.0.0/0,10.0.0.0/8,1-2,3-4,5-6") {
        Some(Call::Stand { property }) if property.sort == Decision::Accept => Some((
            property.from,
            property.to,
            numbers(property.source, property.destination, property.rest),
        )),
        _ => None,
    };
    assert!(rt; stands == Some((7, 8, region)));
    let asked = match call(b"Q,d,8,7,0.0.0.0/0,10.0.0.0/8,1-2,3-4,5-6") {
        Some(Call::Ask { property }) if property.sort == Decision::Discard => Some((
            property.from,
            property.to,
            numbers(property.source, property.destination, property.rest),
        )),
        _ => None,
    };
    assert!(rt; asked == Some((8, 7, region)));
    let sent = match call(b"X,10.0.0.1,10.0.0.2,1024,80,6") {
        Some(Call::Send { header }) => Some((
            [header.source, header.destination],
            [
                header.rest.left,
                header.rest.right.left,
                header.rest.right.right,
            ],
        )),
        _ => None,
    };
    assert!(rt; sent == Some(([167772161, 167772162], [1024, 80, 6])));
}

#[test]
fn bytes_letter_and_count_come_first(rt: HostRuntime) {
    let byte = Cause::Line(LineProblem::WrongByte);
    assert!(rt; fault(b"K,x\x1f") == at(byte, 0, 3));
    assert!(rt; fault(b"\x7f") == at(byte, 0, 0));
    let long = Cause::Line(LineProblem::TooLong);
    assert!(rt; fault(&[b'~'; 201]) == at(long, 0, 200));
    let mut line = [b' '; 202];
    line[200] = b'\n';
    assert!(rt; fault(&line) == at(long, 0, 200));
    let letter = Cause::Line(LineProblem::NoLetter);
    assert!(rt; fault(&[b'~'; 200]) == at(letter, 1, 0));
    for line in [
        b"".as_slice(),
        b",1".as_slice(),
        b"t,1".as_slice(),
        b"KK,1".as_slice(),
    ] {
        assert!(rt; fault(line) == at(letter, 1, 0));
    }
    let count = Cause::Line(LineProblem::WrongCount);
    for line in [b"K".as_slice(), b"K,x,y".as_slice(), b"B,1".as_slice()] {
        assert!(rt; fault(line) == at(count, 0, 0));
    }
}

#[test]
fn the_first_faulty_field_is_named(rt: HostRuntime) {
    let digit = Cause::Number(NumberFault::NoDigit);
    assert!(rt; fault(b"K,") == at(digit, 2, 2));
    assert!(rt; fault(b"B,17,x") == at(digit, 3, 5));
    assert!(rt; fault(b"A,1,,x,y") == at(digit, 3, 4));
    let many = Cause::Number(NumberFault::TooManyDigits);
    assert!(rt; fault(b"K,00000000001") == at(many, 2, 12));
    let large = Cause::Number(NumberFault::TooLarge);
    assert!(rt; fault(b"K,65536") == at(large, 2, 2));
    assert!(rt; fault(b"T,2") == at(large, 2, 2));
    assert!(rt; fault(b"X,10.0.0.1,10.0.0.2,1,2,256") == at(large, 6, 24));
    assert!(rt; fault(b"T,0") == at(Cause::Line(LineProblem::TooSmall), 2, 2));
    let decision = Cause::Line(LineProblem::NoDecision);
    assert!(rt; fault(b"A,1,2,3,x") == at(decision, 5, 8));
    assert!(rt; fault(b"A,1,2,3,ad") == at(decision, 5, 9));
    let unfit = Cause::Region(RegionFault::Unfit);
    assert!(rt; fault(b"W,12x") == at(unfit, 2, 4));
    let host = Cause::Region(RegionFault::HostBits);
    assert!(rt; fault(b"G,00,10.0.0.1/8") == at(host, 3, 5));
    let set = b"P,1,2,a,00000000,10.0.0.0/8,0.0.0.0/0,0-1,0-1,0-1";
    assert!(rt; fault(set) == at(Cause::Region(RegionFault::Empty), 5, 8));
    let turned = b"Q,d,8,7,0.0.0.0/0,10.0.0.0/8,1-2,4-3,5-6";
    assert!(rt; fault(turned) == at(Cause::Region(RegionFault::LoAboveHi), 8, 33));
    let protocol = b"Q,d,8,7,0.0.0.0/0,10.0.0.0/8,1-2,3-4,5-256";
    assert!(rt; fault(protocol) == at(large, 9, 37));
}

#[test]
fn a_fault_is_told_with_its_place(rt: HostRuntime) {
    let told = InlineText::<64>::of(LineFault {
        cause: Cause::Region(RegionFault::HostBits),
        field: 3,
        byte: 5,
    });
    assert_eq!(rt;
        told.as_str(),
        "bit set past the length of the prefix, in field 3 at byte 5"
    );
}
