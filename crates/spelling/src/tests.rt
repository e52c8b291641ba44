// Texts with values and faults that were worked out by hand.
use super::*;
use forms::{Prefix, Range};
use kinds::Set;
use model::Decision;
use std::fmt::InlineText;
use std::test::Fail;

fn form(byte: usize) -> Fault {
    Fault {
        problem: Problem::Region(RegionFault::Unfit),
        byte,
    }
}

fn number(fault: NumberFault, byte: usize) -> Fault {
    Fault {
        problem: Problem::Number(fault),
        byte,
    }
}

#[test]
fn numbers_and_addresses(rt: HostRuntime) {
    assert!(rt; read_number(b"0065535", 65535) == Ok(65535));
    assert!(rt; read_number(b"4294967296", 65535) == Err(number(NumberFault::TooLarge, 0)));
    assert!(rt; read_number(b"00000000001", 9) == Err(number(NumberFault::TooManyDigits, 10)));
    assert!(rt; read_number(b"", 9) == Err(number(NumberFault::NoDigit, 0)));
    assert!(rt; read_number(b"12x", 9) == Err(form(2)));
    assert!(rt; read_address(b"10.0.0.255") == Ok(167772415));
    assert!(rt; read_address(b"10.0.256.x") == Err(number(NumberFault::NoDigit, 9)));
    assert!(rt; read_address(b"10.0.256.1") == Err(number(NumberFault::TooLarge, 0)));
    assert!(rt; read_address(b"10.0.1") == Err(form(6)));
}

#[test]
fn prefixes_and_ranges(rt: HostRuntime) {
    let net = read_prefix(b"10.1.0.0/16").map(|net| (net.address(), net.length()));
    assert!(rt; net == Ok((167837696, 16)));
    for (text, fault) in [
        (
            b"10.1.0.1/16".as_slice(),
            Fault {
                problem: Problem::Region(RegionFault::HostBits),
                byte: 0,
            },
        ),
        (b"10.1.0.0/33".as_slice(), number(NumberFault::TooLarge, 0)),
        (b"10.1.0.0".as_slice(), form(8)),
        (b"10.1.0.0/".as_slice(), number(NumberFault::NoDigit, 9)),
    ] {
        assert!(rt; read_prefix(text).err() == Some(fault));
    }
    let ports = read_range(b"80-0443", 65535).map(|ports| (ports.lo(), ports.hi()));
    assert!(rt; ports == Ok((80, 443)));
    let turned = read_range(b"443-80", 65535).err();
    assert!(rt;
        turned
            == Some(Fault {
                problem: Problem::Region(RegionFault::LoAboveHi),
                byte: 0
            })
    );
    assert!(rt; read_range(b"80-443-", 65535).err() == Some(form(6)));
}

#[test]
fn sets_and_decisions(rt: HostRuntime) {
    assert!(rt; read_set(b"0000000d").map(Set::mask) == Ok(13));
    let empty = read_set(b"00000000").err();
    assert!(rt;
        empty
            == Some(Fault {
                problem: Problem::Region(RegionFault::Empty),
                byte: 0
            })
    );
    assert!(rt; read_set(b"0000000D").err() == Some(form(7)));
    assert!(rt; read_set(b"000000012").err() == Some(form(8)));
    assert!(rt; read_set(b"012").err() == Some(form(3)));
    assert!(rt; read_decision(b"d").ok() == Some(Decision::Discard));
    assert!(rt; read_decision(b"da").err() == Some(NoDecision { byte: 1 }));
    assert!(rt; read_decision(b"D").err() == Some(NoDecision { byte: 0 }));
}

#[test]
fn faults_are_told(rt: HostRuntime) {
    let told = InlineText::<64>::of(number(NumberFault::TooLarge, 3));
    assert_eq!(rt; told.as_str(), "number above its bound, at byte 3");
    let told = InlineText::<64>::of(NoDecision { byte: 1 });
    assert_eq!(rt; told.as_str(), "neither `a` nor `d`, at byte 1");
}

#[test]
fn fields_are_written(rt: HostRuntime) -> Result<(), Fail> {
    let mut buf = [b'_'; 40];
    let end = put_number(&mut buf, 1, 70)?;
    let end = put_address(&mut buf, end, 167772415)?;
    let net = Prefix::new(167837696, 16).ok_or("no prefix")?;
    let end = put_prefix(&mut buf, end, net)?;
    let end = put_set(&mut buf, end, Set::up_to(3))?;
    let end = put_decision(&mut buf, end, Decision::Accept)?;
    assert!(rt; end == 33);
    assert!(rt; buf.as_slice() == b"_7010.0.0.25510.1.0.0/160000000fa_______".as_slice());
    let ports = Range::new(80, 443).ok_or("no range")?;
    assert!(rt; put_range(&mut buf, 34, ports).ok() == Some(40));
    assert!(rt; buf.as_slice().ends_with(b"fa_80-443"));
    assert!(rt; put_range(&mut buf, 35, ports).is_err());
    assert!(rt; put_bytes(&mut buf, 38, b"ok").ok() == Some(40));
    assert!(rt; buf.as_slice().ends_with(b"fa_880-ok"));
    assert!(rt;
        buf.as_slice()
            .starts_with(b"_7010.0.0.25510.1.0.0/160000000fa_8")
    );
    Ok(())
}
