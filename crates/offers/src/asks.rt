// What is asked of the state.
ghost use Rattle.std.specs.Prelude.{◌≡◌, ◌<◌, length};
ghost use Rattle.checks.specs.Rows.{rule_entry};
ghost use Rattle.lists.specs.Layout.{Laid};
ghost use Rattle.lists.specs.Lengths.{lengths_of};
ghost use Rattle.model.specs.Limits.{max_list};
ghost use Rattle.model.specs.Tree.{Tree};
ghost use Rattle.tree.specs.Table.{shape_of};
ghost use Rattle.verdicts.specs.Asked.{AskedFound};
ghost use Rattle.model.specs.declared.answers.Refusal.TheVariants.{Outside};
ghost use Rattle.model.specs.declared.calls.Call.TheVariants.{Ask, Send};
ghost use Rattle.verdicts.specs.Passage.{passage_answer};
ghost use Rattle.state.specs.Memory.{SameMemory, lent_by, tables_of};
ghost use Rattle.state.specs.Order.{Demands};
ghost use Rattle.state.specs.Picture.{Tried};
ghost use Rattle.offers.specs.Asked.{asked_as};

use crate::offers::{check_between, check_offer};
use checks::{PacketRow, RuleRow};
use kinds::Kind;
use model::{Header, Property, Refusal};
use search::Frame;
use state::{Memory, State};
use tables::used_rows;
use verdicts::{Break, Network, Stop};

// The firewalls with their lists, whose rules lie in this table.
fn network<'a, A: Kind, R: Kind>(
    state: &'a State<A, R>,
    rules: &'a [RuleRow<A::Row, R::Row>],
) -> Network<'a, A, R>
    ensures { (result.tree.now ≡ state.now.tree) × ((result.lists.now ≡ state.now.lists) × (result.rules.now ≡ rules.now)) }
{
    Network {
        tree: &state.tree,
        lists: &state.lists,
        rules,
    }
}

// The first break of a property on its route, if anything breaks it. A function of its own, since a
// network made of borrowed memory gets no proof where that memory is lent on.
pub(crate) fn first_break<A: Kind, R: Kind>(
    state: &State<A, R>,
    rules: &[RuleRow<A::Row, R::Row>],
    frames: &mut [Frame<PacketRow<A::Row, R::Row>>],
    property: Property<A, R>,
) -> Option<Break<A::Value, R::Value>>
    requires { max_list < length frames.old }
    ensures { (t : Tree A R) → shape_of state.now.tree ≡ t.shape → Laid (rule_entry A.Kind.plain R.Kind.plain) (lengths_of state.now.lists) rules.now t.lists → AskedFound A.Kind.holds R.Kind.holds t property result }
{
    network(state, rules).first_break(property, frames)
}

/// What breaks a property, if anything does.
pub fn ask<A: Kind, R: Kind>(
    state: &State<A, R>,
    memory: &mut Memory<'_, A::Row, R::Row>,
    property: Property<A, R>,
) -> Result<Option<Break<A::Value, R::Value>>, Refusal<A::Value, R::Value>>
    ensures does { Tried A.Kind R.Kind state.now (tables_of memory.old) (Ask property) (lent_by memory.old) asked_as result state.now (tables_of memory.new) }
    ensures same { SameMemory memory.old memory.new }
{
    memory.check_lengths()?;
    check_between(state, property)?;
    let rules = &mut *memory.rules;
    let blocks = &mut *memory.blocks;
    let packet_frames = &mut *memory.packet_frames;
    let address_frames = &mut *memory.address_frames;
    check_offer(state, blocks, address_frames, property)?;
    Ok(first_break(state, rules, packet_frames, property))
}

// 5: every part of the packet is in its whole.
fn check_header_inside<A: Kind, R: Kind>(
    state: &State<A, R>,
    header: Header<A::Value, R::Value>,
) -> Result<(), Refusal<A::Value, R::Value>>
    ensures { Demands result Outside (A.Kind.holds state.now.addresses header.source × (A.Kind.holds state.now.addresses header.destination × R.Kind.holds state.now.rests header.rest)) }
{
    if state.addresses.has(header.source)
        && state.addresses.has(header.destination)
        && state.rests.has(header.rest)
    {
        return Ok(());
    }
    Err(Refusal::Outside)
}

/// What becomes of a packet on its way.
pub fn send<A: Kind, R: Kind>(
    state: &State<A, R>,
    memory: &Memory<'_, A::Row, R::Row>,
    header: Header<A::Value, R::Value>,
) -> Result<Option<Stop>, Refusal<A::Value, R::Value>>
    ensures { Tried A.Kind R.Kind state.now (tables_of memory.now) (Send header) (lent_by memory.now) passage_answer result state.now (tables_of memory.now) }
{
    memory.check_lengths()?;
    check_header_inside(state, header)?;
    let used = used_rows(memory.blocks, state.block_count);
    Ok(network(state, memory.rules).first_stop(used, header))
}
