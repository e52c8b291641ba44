// A register, the memory that it is lent, and all numbers of its answers so far.
use crate::numbered::Numbered;
use anyhow::ensure;
use kinds::{Kind, whole_packets};
use model::{Answer, Call, Lent, Packet, Refusal};
use register::{Memory, Register};
use replay::{Stores, least_lengths, stores_with};
use search::Frame;
use std::alloc::{AllocError, Global};

pub type CallOf<A, R> = Call<A, R, <A as Kind>::Value, <R as Kind>::Value>;

// How calls are made: as they are, with other junk in the frames, or each first with too little memory.
#[derive(Clone, Copy, PartialEq)]
pub enum Manner {
    Plain,
    Junk,
    Short,
}

#[derive(Drop)]
pub struct Session<A: Kind, R: Kind> {
    pub addresses: A,
    pub rests: R,
    register: Register<A, R>,
    stores: Stores<A::Row, R::Row>,
    manner: Manner,
    calls: usize,
    pub short_calls: u32,
    // Answers that showed an address or a packet.
    pub shown: u32,
    // Of each call its number, and then the numbers of its answer.
    pub log: Vec<u32>,
}

// The first of these rows, or all where there are fewer.
fn first<T>(rows: &mut [T], count: usize) -> &mut [T] {
    let count = count.min(rows.len());
    &mut rows[..count]
}

// Makes a call with so much memory.
fn lend<A: Kind, R: Kind>(
    register: &mut Register<A, R>,
    stores: &mut Stores<A::Row, R::Row>,
    lent: Lent,
    call: CallOf<A, R>,
) -> Answer<A::Value, R::Value> {
    let mut memory = Memory {
        rules: first(&mut stores.rules, lent.rules),
        blocks: first(&mut stores.blocks, lent.blocks),
        properties: first(&mut stores.properties, lent.properties),
        packet_frames: first(&mut stores.packet_frames, lent.packet_frames),
        address_frames: first(&mut stores.address_frames, lent.address_frames),
    };
    register.apply(&mut memory, call)
}

fn note_packet<A: Kind + Numbered, R: Kind + Numbered>(
    packet: Packet<A::Value, R::Value>,
    log: &mut Vec<u32>,
) -> Result<(), AllocError> {
    log.push(u32::from(packet.interface))?;
    A::note(packet.source, log)?;
    A::note(packet.destination, log)?;
    R::note(packet.rest, log)
}

fn note_all(numbers: &[usize], log: &mut Vec<u32>) -> Result<(), AllocError> {
    for number in numbers {
        log.push((*number & 0xffff) as u32)?;
    }
    Ok(())
}

fn note_refusal<A: Kind + Numbered, R: Kind + Numbered>(
    refusal: Refusal<A::Value, R::Value>,
    log: &mut Vec<u32>,
) -> Result<(), AllocError> {
    log.push(u32::from(refusal.number()))?;
    match refusal {
        Refusal::Overlap { block } => note_all(&[block], log),
        Refusal::SourceAstray { address } | Refusal::DestinationAstray { address } => {
            A::note(address, log)
        }
        Refusal::Unmatched { packet } => note_packet::<A, R>(packet, log),
        Refusal::Misplaced { property, address } => {
            note_all(&[property], log)?;
            A::note(address, log)
        }
        Refusal::Breaks {
            property,
            firewall,
            packet,
        } => {
            note_all(&[property, firewall], log)?;
            note_packet::<A, R>(packet, log)
        }
        _ => Ok(()),
    }
}

// Each answer begins with a number of its own, above those of refusals.
fn note<A: Kind + Numbered, R: Kind + Numbered>(
    answer: Answer<A::Value, R::Value>,
    log: &mut Vec<u32>,
) -> Result<(), AllocError> {
    match answer {
        Answer::Done => note_all(&[20], log),
        Answer::Attached { firewall, domain } => note_all(&[21, firewall, domain], log),
        Answer::Branched { domain } => note_all(&[22, domain], log),
        Answer::Kept => note_all(&[23], log),
        Answer::Broken { firewall, packet } => {
            note_all(&[24, firewall], log)?;
            note_packet::<A, R>(packet, log)
        }
        Answer::Passed => note_all(&[25], log),
        Answer::Stopped { firewall, position } => note_all(&[26, firewall, position], log),
        Answer::Refused { refusal } => note_refusal::<A, R>(refusal, log),
    }
}

// Whether an answer shows an address or a packet.
fn shows<V, W>(answer: &Answer<V, W>) -> bool {
    match answer {
        Answer::Broken { .. } => true,
        Answer::Refused { refusal } => matches!(
            refusal,
            Refusal::SourceAstray { .. }
                | Refusal::DestinationAstray { .. }
                | Refusal::Unmatched { .. }
                | Refusal::Misplaced { .. }
                | Refusal::Breaks { .. }
        ),
        _ => false,
    }
}

// The number of the refusal that an answer is, if it is one.
fn refused<V, W>(answer: &Answer<V, W>) -> Option<u8> {
    match answer {
        Answer::Refused { refusal } => Some(refusal.number()),
        _ => None,
    }
}

// One row less in one of the five slices.
fn shorter(slice: usize) -> Lent {
    let least = least_lengths();
    let less = |place: usize, length: usize| if place == slice { length - 1 } else { length };
    Lent {
        rules: less(0, least.rules),
        blocks: less(1, least.blocks),
        properties: less(2, least.properties),
        packet_frames: less(3, least.packet_frames),
        address_frames: less(4, least.address_frames),
    }
}

impl<A: Kind + Numbered, R: Kind + Numbered> Session<A, R> {
    pub(crate) fn new(
        alloc: Global,
        addresses: A,
        rests: R,
        manner: Manner,
    ) -> anyhow::Result<Self> {
        let stores = stores_with(alloc, least_lengths(), addresses, rests)?;
        Ok(Session {
            addresses,
            rests,
            register: Register::new(addresses, rests),
            stores,
            manner,
            calls: 0,
            short_calls: 0,
            shown: 0,
            log: Vec::new(alloc),
        })
    }

    // A new register, over tables and frames as the last one left them.
    pub(crate) fn restart(&mut self) {
        self.register = Register::new(self.addresses, self.rests);
    }

    // Fills all frames with other rows: in turn those of one value and those of the wholes.
    fn write_junk(&mut self) {
        let number = (self.calls & 0xff) as u32;
        let (address, rest) = match (A::single(number), R::single(number % 2)) {
            (Some(address), Some(rest)) if number % 3 != 0 => (address, rest),
            _ => (self.addresses, self.rests),
        };
        let packet_frame = Frame::filled(whole_packets(address, rest).row());
        for frame in self.stores.packet_frames.iter_mut() {
            *frame = packet_frame;
        }
        let address_frame = Frame::filled(address.row());
        for frame in self.stores.address_frames.iter_mut() {
            *frame = address_frame;
        }
    }

    // Makes the call with each of the five slices too short in turn.
    fn call_short(&mut self, call: CallOf<A, R>) -> anyhow::Result<()> {
        for slice in 0..5 {
            let answer = lend(&mut self.register, &mut self.stores, shorter(slice), call);
            ensure!(
                refused(&answer) == Some(1),
                "a slice that is too short does not get 1"
            );
            self.short_calls = self.short_calls.saturating_add(1);
        }
        Ok(())
    }

    // Makes the call, notes the answer, and answers the number of its refusal, if it is one.
    pub(crate) fn call(&mut self, call: CallOf<A, R>) -> anyhow::Result<Option<u8>> {
        match self.manner {
            Manner::Plain => (),
            Manner::Junk => self.write_junk(),
            Manner::Short => self.call_short(call)?,
        }
        let answer = lend(&mut self.register, &mut self.stores, least_lengths(), call);
        self.calls = self.calls.saturating_add(1);
        note_all(&[self.calls], &mut self.log)?;
        note::<A, R>(answer, &mut self.log)?;
        if shows(&answer) {
            self.shown = self.shown.saturating_add(1);
        }
        Ok(refused(&answer))
    }
}
