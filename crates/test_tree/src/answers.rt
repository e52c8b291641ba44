// Answers in words.
use crate::shown::Shown;
use model::{Answer, Packet, Refusal};
use std::alloc::{AllocError, Global};

// Interface, source, destination, rest.
fn packet<A: Shown, R: Shown>(
    alloc: Global,
    packet: Packet<A::Value, R::Value>,
) -> Result<String, AllocError> {
    let interface = packet.interface;
    let source = A::show(alloc, packet.source)?;
    let destination = A::show(alloc, packet.destination)?;
    let rest = R::show(alloc, packet.rest)?;
    format!(in alloc; "{interface},{source},{destination},{rest}")
}

// What a refusal shows.
fn refusal<A: Shown, R: Shown>(
    alloc: Global,
    refusal: Refusal<A::Value, R::Value>,
) -> Result<String, AllocError> {
    match refusal {
        Refusal::TooShort => format!(in alloc; "a slice is too short"),
        Refusal::NoSuch => format!(in alloc; "there is none"),
        Refusal::BadInterface => format!(in alloc; "the interface will not do"),
        Refusal::Full => format!(in alloc; "full"),
        Refusal::Outside => format!(in alloc; "outside the whole"),
        Refusal::Overlap { block } => format!(in alloc; "overlaps block {block}"),
        Refusal::Unjoined => format!(in alloc; "the domains are not joined so"),
        Refusal::SourceAstray { address } => {
            let address = A::show(alloc, address)?;
            format!(in alloc; "the source has {address}")
        }
        Refusal::DestinationAstray { address } => {
            let address = A::show(alloc, address)?;
            format!(in alloc; "the destination has {address}")
        }
        Refusal::Unmatched { packet: k } => {
            let k = packet::<A, R>(alloc, k)?;
            format!(in alloc; "no rule would match {k}")
        }
        Refusal::Misplaced { property, address } => {
            let address = A::show(alloc, address)?;
            format!(in alloc; "property {property} would have {address} astray")
        }
        Refusal::Breaks {
            property,
            firewall,
            packet: k,
        } => {
            let k = packet::<A, R>(alloc, k)?;
            format!(in alloc; "property {property} would be broken at firewall {firewall} by {k}")
        }
    }
}

pub(crate) fn answer<A: Shown, R: Shown>(
    alloc: Global,
    answer: Answer<A::Value, R::Value>,
) -> Result<String, AllocError> {
    match answer {
        Answer::Done => format!(in alloc; "done"),
        Answer::Attached { firewall, domain } => {
            format!(in alloc; "firewall {firewall}, domain {domain}")
        }
        Answer::Branched { domain } => format!(in alloc; "domain {domain}"),
        Answer::Kept => format!(in alloc; "kept"),
        Answer::Broken {
            firewall,
            packet: k,
        } => {
            let k = packet::<A, R>(alloc, k)?;
            format!(in alloc; "broken at firewall {firewall} by {k}")
        }
        Answer::Passed => format!(in alloc; "passed"),
        Answer::Stopped { firewall, position } => {
            format!(in alloc; "stopped at firewall {firewall} by rule {position}")
        }
        Answer::Refused { refusal: why } => {
            let number = why.number();
            let why = refusal::<A, R>(alloc, why)?;
            format!(in alloc; "no, {number}: {why}")
        }
    }
}
