// Lines with texts that were worked out by hand.
use super::*;
use forms::{LongRest, Prefix, Range};
use kinds::{Pair, Set};
use model::{Call, Decision, Header, Property, Rule};
use std::test::Fail;

// Whether the line is written so.
fn is_written(line: Line, text: &[u8]) -> bool {
    let mut buf = [b'_'; 200];
    put_line(&mut buf, 0, &line).ok() == Some(text.len()) && buf.starts_with(text)
}

// Any source port, destination ports 80 to 443, protocol 6.
fn web() -> Option<LongRest> {
    Some(Pair {
        left: Range::new(0, 65535)?,
        right: Pair {
            left: Range::new(80, 443)?,
            right: Range::new(6, 6)?,
        },
    })
}

#[test]
fn short_lines(rt: HostRuntime) {
    assert!(rt; is_written(Line::Heading, b"T,1"));
    assert!(rt; is_written(Line::List { number: 65535 }, b"M,65535"));
    let attach = Call::Attach {
        domain: 0,
        upper: 10,
        lower: 2,
        decision: Decision::Accept,
    };
    assert!(rt; is_written(Line::Call(attach), b"A,0,10,2,a"));
    let branch = Call::Branch {
        firewall: 3,
        interface: 31,
    };
    assert!(rt; is_written(Line::Call(branch), b"B,3,31"));
    assert!(rt; is_written(Line::Call(Call::Take { block: 5 }), b"K,5"));
    let lift = Call::Lift {
        firewall: 1,
        position: 12,
    };
    assert!(rt; is_written(Line::Call(lift), b"L,1,12"));
    assert!(rt; is_written(Line::Call(Call::Withdraw { property: 4 }), b"W,4"));
}

#[test]
fn lines_with_regions(rt: HostRuntime) -> Result<(), Fail> {
    let net = Prefix::new(167837696, 16).ok_or("no prefix")?;
    let rest = web().ok_or("no ranges")?;
    let give = Call::Give {
        domain: 2,
        region: net,
    };
    assert!(rt; is_written(Line::Call(give), b"G,2,10.1.0.0/16"));
    let rule = Rule {
        interfaces: Set::up_to(3),
        source: net,
        destination: Prefix::all(),
        rest,
        decision: Decision::Discard,
    };
    let place = Call::Place {
        firewall: 7,
        position: 1,
        rule,
    };
    assert!(rt;
        is_written(
            Line::Call(place),
            b"P,7,1,d,0000000f,10.1.0.0/16,0.0.0.0/0,0-65535,80-443,6-6"
        )
    );
    let property = Property {
        sort: Decision::Accept,
        from: 1,
        to: 2,
        source: Prefix::all(),
        destination: net,
        rest,
    };
    assert!(rt;
        is_written(
            Line::Call(Call::Ask { property }),
            b"Q,a,1,2,0.0.0.0/0,10.1.0.0/16,0-65535,80-443,6-6"
        )
    );
    Ok(())
}

#[test]
fn packets_and_phrases(rt: HostRuntime) {
    let header = Header {
        source: 167772415,
        destination: 167837696,
        rest: Pair {
            left: 1024,
            right: Pair { left: 80, right: 6 },
        },
    };
    assert!(rt;
        is_written(
            Line::Call(Call::Send { header }),
            b"X,10.0.0.255,10.1.0.0,1024,80,6"
        )
    );
    let mut buf = [b'_'; 8];
    assert!(rt;
        put_phrase(
            &mut buf,
            1,
            b"ok",
            &[Value::Number(17), Value::Decision(Decision::Accept)]
        )
        .ok()
            == Some(8)
    );
    assert!(rt; buf.as_slice() == b"_ok,17,a".as_slice());
    assert!(rt; put_phrase(&mut buf, 2, b"ok", &[Value::Number(170)]).ok() == Some(8));
    assert!(rt; put_phrase(&mut buf, 3, b"ok", &[Value::Number(170)]).is_err());
}
