// The memory that lasts for a run, of which each call is lent a part.
use crate::draws::{ASKED, Form, MORE};
use crate::kept::Tables;
use chance::Random;
use checks::{PacketRow, PropertyRow, RuleRow, block_row, property_row, rule_row};
use kinds::{Kind, Set};
use model::{Answer, Call, Decision, Lent, Property, Rule};
use register::{Memory, Register};
use search::Frame;
use std::alloc::{AllocError, Global};

#[derive(Drop)]
pub struct Store<X, Y> {
    pub tables: Tables<X, Y>,
    packet_frames: Vec<Frame<PacketRow<X, Y>>>,
    address_frames: Vec<Frame<X>>,
}

// Rows that mean nothing to the register: those of some regions.
fn junk_rule<A: Kind, R: Kind>(form: &Form<A, R>, random: &mut Random) -> RuleRow<A::Row, R::Row> {
    rule_row(Rule {
        interfaces: Set::up_to(7),
        source: form.addresses.any(random).typed,
        destination: form.addresses.any(random).typed,
        rest: form.rests.any(random).typed,
        decision: Decision::Discard,
    })
}

fn junk_property<A: Kind, R: Kind>(
    form: &Form<A, R>,
    random: &mut Random,
) -> PropertyRow<A::Row, R::Row> {
    property_row(Property {
        sort: Decision::Accept,
        from: random.below(64),
        to: random.below(64),
        source: form.addresses.any(random).typed,
        destination: form.addresses.any(random).typed,
        rest: form.rests.any(random).typed,
    })
}

// A frame with a row that means nothing to the call.
fn junk_frame<T: Copy>(row: T) -> Frame<T> {
    Frame::filled(row)
}

// The first rows of these.
fn first<T>(rows: &mut [T], count: usize) -> &mut [T] {
    let count = count.min(rows.len());
    &mut rows[..count]
}

impl<X: Copy, Y: Copy> Store<X, Y> {
    // All of it junk.
    pub(crate) fn new<A: Kind<Row = X>, R: Kind<Row = Y>>(
        heap: Global,
        form: &Form<A, R>,
        random: &mut Random,
    ) -> Result<Store<X, Y>, AllocError> {
        let rule = junk_rule(form, random);
        let block = block_row(form.addresses.any(random).typed, 1);
        let property = junk_property(form, random);
        let packet_frame = junk_frame(rule.row);
        let address_frame = junk_frame(block.row);
        Ok(Store {
            tables: Tables {
                rules: vec![in heap; rule; ASKED.rules + MORE]?,
                blocks: vec![in heap; block; ASKED.blocks + MORE]?,
                properties: vec![in heap; property; ASKED.properties + MORE]?,
            },
            packet_frames: vec![in heap; packet_frame; ASKED.packet_frames + MORE]?,
            address_frames: vec![in heap; address_frame; ASKED.address_frames + MORE]?,
        })
    }

    // Makes all frames junk again.
    pub(crate) fn spoil<A: Kind<Row = X>, R: Kind<Row = Y>>(
        &mut self,
        form: &Form<A, R>,
        random: &mut Random,
    ) {
        let packets = junk_rule(form, random).row;
        let addresses = form.addresses.any(random).typed.row();
        let packet_frame = junk_frame(packets);
        let address_frame = junk_frame(addresses);
        for frame in self.packet_frames.iter_mut() {
            *frame = packet_frame;
        }
        for frame in self.address_frames.iter_mut() {
            *frame = address_frame;
        }
    }

    // Makes a call with so many rows of each lent to it.
    pub(crate) fn apply<A: Kind<Row = X>, R: Kind<Row = Y>>(
        &mut self,
        lent: Lent,
        register: &mut Register<A, R>,
        call: Call<A, R, A::Value, R::Value>,
    ) -> Answer<A::Value, R::Value> {
        let rules = first(self.tables.rules.as_mut_slice(), lent.rules);
        let blocks = first(self.tables.blocks.as_mut_slice(), lent.blocks);
        let properties = first(self.tables.properties.as_mut_slice(), lent.properties);
        let packet_frames = first(self.packet_frames.as_mut_slice(), lent.packet_frames);
        let address_frames = first(self.address_frames.as_mut_slice(), lent.address_frames);
        let mut memory = Memory {
            rules,
            blocks,
            properties,
            packet_frames,
            address_frames,
        };
        register.apply(&mut memory, call)
    }
}
