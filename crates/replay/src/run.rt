// The replay.
ghost use Rattle.std.specs.Prelude.{◌≡◌, [], ◌∷◌, ◌≤◌, length, IfOk};
ghost use Rattle.register.specs.Promise.{Promise};
ghost use Rattle.state.specs.Rows.{stored};
ghost use Rattle.replay.specs.Replay.{Continues, Reaches, Replayed, entry, lengths, tables_in};

use crate::step::Step;
use crate::stores::{Stores, lengthen_all};
use checks::{BlockRow, PacketRow, PropertyRow, RuleRow};
use kinds::Kind;
use model::{Answer, Call, Recorded};
use register::{Memory, Register};
use search::Frame;
use std::alloc::{AllocError, Global};

// Makes one call, with these slices lent to it.
fn lend_to_call<A: Kind, R: Kind>(
    register: &mut Register<A, R>,
    rules: &mut [RuleRow<A::Row, R::Row>],
    blocks: &mut [BlockRow<A::Row>],
    properties: &mut [PropertyRow<A::Row, R::Row>],
    packet_frames: &mut [Frame<PacketRow<A::Row, R::Row>>],
    address_frames: &mut [Frame<A::Row>],
    call: Call<A, R, A::Value, R::Value>,
) -> Answer<A::Value, R::Value>
    ensures promise { Promise A.Kind R.Kind register.old (stored rules.old blocks.old properties.old) call (lengths rules.old blocks.old properties.old packet_frames.old address_frames.old) result register.new (stored rules.new blocks.new properties.new) }
{
    let mut memory = Memory {
        rules,
        blocks,
        properties,
        packet_frames,
        address_frames,
    };
    register.apply(&mut memory, call)
}

// Makes one call, with the first rows of each table and of the frames lent to it.
fn lend_first_rows<A: Kind, R: Kind>(
    register: &mut Register<A, R>,
    rules: &mut [RuleRow<A::Row, R::Row>],
    blocks: &mut [BlockRow<A::Row>],
    properties: &mut [PropertyRow<A::Row, R::Row>],
    packet_frames: &mut [Frame<PacketRow<A::Row, R::Row>>],
    address_frames: &mut [Frame<A::Row>],
    step: Step<A, R, A::Value, R::Value>,
) -> Answer<A::Value, R::Value>
    requires rules { step.lent.rules ≤ length rules.old }
    requires blocks { step.lent.blocks ≤ length blocks.old }
    requires properties { step.lent.properties ≤ length properties.old }
    requires packet_frames { step.lent.packet_frames ≤ length packet_frames.old }
    requires address_frames { step.lent.address_frames ≤ length address_frames.old }
    ensures { Continues A.Kind R.Kind register.old (stored rules.old blocks.old properties.old) (entry step result ∷ []) register.new (stored rules.new blocks.new properties.new) }
{
    let lent = step.lent;
    lend_to_call(
        register,
        &mut rules[..lent.rules],
        &mut blocks[..lent.blocks],
        &mut properties[..lent.properties],
        &mut packet_frames[..lent.packet_frames],
        &mut address_frames[..lent.address_frames],
        step.call,
    )
}

// Makes one call out of the stores.
fn make_call<A: Kind, R: Kind>(
    register: &mut Register<A, R>,
    stores: &mut Stores<A::Row, R::Row>,
    step: Step<A, R, A::Value, R::Value>,
) -> Answer<A::Value, R::Value>
    requires { Reaches stores.old step.lent }
    ensures { Continues A.Kind R.Kind register.old (tables_in stores.old) (entry step result ∷ []) register.new (tables_in stores.new) }
{
    lend_first_rows(
        register,
        &mut stores.rules,
        &mut stores.blocks,
        &mut stores.properties,
        &mut stores.packet_frames,
        &mut stores.address_frames,
        step,
    )
}

/// Makes a register with these wholes, makes the calls in their order, and answers the record of it: each
/// call with the lengths that were lent to it and what was answered. The tables and frames may hold anything
/// at first; where a step is to be lent more than there is, they are made longer.
pub fn replay<A: Kind, R: Kind>(
    addresses: A,
    rests: R,
    mut stores: Stores<A::Row, R::Row>,
    steps: &[Step<A, R, A::Value, R::Value>],
    alloc: Global,
) -> Result<Vec<Recorded<A, R, A::Value, R::Value>>, AllocError>
    ensures { IfOk result (λ made. Replayed A.Kind.holds R.Kind.holds addresses rests steps.now made.items) }
{
    let mut register = Register::new(addresses, rests);
    let mut record = Vec::with_capacity(alloc, steps.len())?;
    for step in steps {
        lengthen_all(&mut stores, step.lent, addresses, rests)?;
        let answer = make_call(&mut register, &mut stores, *step);
        record.push(step.answered(answer))?;
    }
    Ok(record)
}
