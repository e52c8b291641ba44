// Answers as the judge takes them: what they show as sets of one value, or as the empty set where it is no
// value of the whole.
use crate::draws::small_forms::Form;
use crate::judge::PlainAnswer;
use kinds::Kind;
use model::{Answer, Packet, Refusal};

impl<A: Kind, R: Kind> Form<A, R> {
    pub(crate) fn plain_answer(&self, answer: Answer<A::Value, R::Value>) -> PlainAnswer {
        match answer {
            Answer::Done => Answer::Done,
            Answer::Attached { firewall, domain } => Answer::Attached { firewall, domain },
            Answer::Branched { domain } => Answer::Branched { domain },
            Answer::Kept => Answer::Kept,
            Answer::Broken { firewall, packet } => Answer::Broken {
                firewall,
                packet: self.plain_packet(packet),
            },
            Answer::Passed => Answer::Passed,
            Answer::Stopped { firewall, position } => Answer::Stopped { firewall, position },
            Answer::Refused { refusal } => Answer::Refused {
                refusal: self.plain_refusal(refusal),
            },
        }
    }

    fn plain_refusal(&self, refusal: Refusal<A::Value, R::Value>) -> Refusal<u128, u128> {
        match refusal {
            Refusal::TooShort => Refusal::TooShort,
            Refusal::NoSuch => Refusal::NoSuch,
            Refusal::BadInterface => Refusal::BadInterface,
            Refusal::Full => Refusal::Full,
            Refusal::Outside => Refusal::Outside,
            Refusal::Overlap { block } => Refusal::Overlap { block },
            Refusal::Unjoined => Refusal::Unjoined,
            Refusal::SourceAstray { address } => Refusal::SourceAstray {
                address: self.addresses.set_of(address),
            },
            Refusal::DestinationAstray { address } => Refusal::DestinationAstray {
                address: self.addresses.set_of(address),
            },
            Refusal::Unmatched { packet } => Refusal::Unmatched {
                packet: self.plain_packet(packet),
            },
            Refusal::Misplaced { property, address } => Refusal::Misplaced {
                property,
                address: self.addresses.set_of(address),
            },
            Refusal::Breaks {
                property,
                firewall,
                packet,
            } => Refusal::Breaks {
                property,
                firewall,
                packet: self.plain_packet(packet),
            },
        }
    }

    fn plain_packet(&self, packet: Packet<A::Value, R::Value>) -> Packet<u128, u128> {
        Packet {
            interface: packet.interface,
            source: self.addresses.set_of(packet.source),
            destination: self.addresses.set_of(packet.destination),
            rest: self.rests.set_of(packet.rest),
        }
    }
}
