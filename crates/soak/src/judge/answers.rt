// Answers, parted into what is fixed in them and what is free: the address or the packet that is shown.
use crate::judge::parts::{PlainAnswer, PlainPacket, PlainProperty};
use crate::judge::plain_tree::PlainTree;
use crate::judge::route::Entered;
use model::{Answer, Refusal};

// What is fixed in an answer.
#[derive(Clone, Copy, PartialEq, Debug)]
pub enum Fixed {
    Done,
    Attached { firewall: usize, domain: usize },
    Branched { domain: usize },
    Kept,
    Broken { firewall: usize },
    Passed,
    Stopped { firewall: usize, position: usize },
    // A refusal that names nothing but what is free, by its number.
    Refused { number: u8 },
    Overlap { block: usize },
    Misplaced { property: usize },
    Breaks { property: usize, firewall: usize },
}

// What an answer shows.
#[derive(Clone, Copy)]
enum Shown {
    Nothing,
    Address(u128),
    Packet(PlainPacket),
}

// What has to be shown.
#[derive(Clone, Copy)]
pub enum Proof {
    Nothing,
    // One of these addresses.
    Address(u128),
    // A packet of the whole that no rule of the firewall matches.
    Unmatched {
        firewall: usize,
    },
    // A packet that breaks the property at the firewall, entered so.
    Breaks {
        property: PlainProperty,
        entered: Entered,
    },
}

// What a call must answer.
#[derive(Clone, Copy)]
pub struct Judged {
    pub fixed: Fixed,
    pub proof: Proof,
}

fn part_refusal(refusal: Refusal<u128, u128>) -> (Fixed, Shown) {
    let number = refusal.number();
    match refusal {
        Refusal::Overlap { block } => (Fixed::Overlap { block }, Shown::Nothing),
        Refusal::SourceAstray { address } | Refusal::DestinationAstray { address } => {
            (Fixed::Refused { number }, Shown::Address(address))
        }
        Refusal::Unmatched { packet } => (
            Fixed::Refused { number },
            Shown::Packet(PlainPacket::new(packet)),
        ),
        Refusal::Misplaced { property, address } => {
            (Fixed::Misplaced { property }, Shown::Address(address))
        }
        Refusal::Breaks {
            property,
            firewall,
            packet,
        } => (
            Fixed::Breaks { property, firewall },
            Shown::Packet(PlainPacket::new(packet)),
        ),
        _ => (Fixed::Refused { number }, Shown::Nothing),
    }
}

fn part(answer: PlainAnswer) -> (Fixed, Shown) {
    match answer {
        Answer::Done => (Fixed::Done, Shown::Nothing),
        Answer::Attached { firewall, domain } => {
            (Fixed::Attached { firewall, domain }, Shown::Nothing)
        }
        Answer::Branched { domain } => (Fixed::Branched { domain }, Shown::Nothing),
        Answer::Kept => (Fixed::Kept, Shown::Nothing),
        Answer::Broken { firewall, packet } => (
            Fixed::Broken { firewall },
            Shown::Packet(PlainPacket::new(packet)),
        ),
        Answer::Passed => (Fixed::Passed, Shown::Nothing),
        Answer::Stopped { firewall, position } => {
            (Fixed::Stopped { firewall, position }, Shown::Nothing)
        }
        Answer::Refused { refusal } => part_refusal(refusal),
    }
}

impl Fixed {
    // What is fixed in an answer.
    pub(crate) fn of(answer: PlainAnswer) -> Fixed {
        part(answer).0
    }

    // The number of the refusal that it is, if it is one.
    pub(crate) fn refusal(self) -> Option<u8> {
        match self {
            Fixed::Refused { number } => Some(number),
            Fixed::Overlap { .. } => Some(6),
            Fixed::Misplaced { .. } => Some(11),
            Fixed::Breaks { .. } => Some(12),
            _ => None,
        }
    }

    // Whether a call that is answered so may change a table.
    pub(crate) fn changes(self) -> bool {
        matches!(self, Fixed::Done | Fixed::Attached { .. })
    }
}

impl Judged {
    // An answer that shows nothing.
    pub(crate) fn plain(fixed: Fixed) -> Judged {
        Judged {
            fixed,
            proof: Proof::Nothing,
        }
    }

    // A refusal that shows one of these addresses.
    pub(crate) fn astray(number: u8, addresses: u128) -> Judged {
        Judged {
            fixed: Fixed::Refused { number },
            proof: Proof::Address(addresses),
        }
    }

    // Whether the answer is this, and shows what proves it in the tree as the call would have left it.
    pub(crate) fn is_met(self, answer: PlainAnswer, after: &PlainTree) -> bool {
        let (fixed, shown) = part(answer);
        fixed == self.fixed && self.proof.is_shown(shown, after)
    }
}

impl Proof {
    fn is_shown(self, shown: Shown, after: &PlainTree) -> bool {
        match (self, shown) {
            (Proof::Nothing, Shown::Nothing) => true,
            (Proof::Address(astray), Shown::Address(address)) => astray & address != 0,
            (Proof::Unmatched { firewall }, Shown::Packet(packet)) => {
                after.leaves_unmatched(after.rules(firewall), packet)
            }
            (Proof::Breaks { property, entered }, Shown::Packet(packet)) => {
                after.is_broken_by(&property, entered, packet)
            }
            _ => false,
        }
    }
}
