// Properties that stand.
ghost use Rattle.std.specs.Prelude.{◌≡◌, ◌<◌, length};
ghost use Rattle.checks.specs.Rows.{rule_entry};
ghost use Rattle.lists.specs.Layout.{Laid};
ghost use Rattle.lists.specs.Lengths.{lengths_of};
ghost use Rattle.model.specs.Limits.{max_list};
ghost use Rattle.model.specs.Tree.{Tree};
ghost use Rattle.model.specs.declared.answers.Answer.TheVariants.{Done};
ghost use Rattle.model.specs.declared.calls.Call.TheVariants.{Stand, Withdraw};
ghost use Rattle.tree.specs.Table.{shape_of};
ghost use Rattle.state.specs.Memory.{SameMemory, lent_by, tables_of};
ghost use Rattle.state.specs.Picture.{Tried};
ghost use Rattle.offers.specs.Offers.{KeptChecked};

use crate::asks::first_break;
use crate::offers::{check_between, check_offer};
use checks::{PacketRow, RuleRow, property_row};
use kinds::Kind;
use model::{MAX_PROPERTIES, Property, Refusal};
use search::Frame;
use state::{Memory, State, check_number, check_room};
use tables::{remove_row, replace_row};

// 12: no packet breaks the offered property, which has the present count for its number.
fn check_offer_kept<A: Kind, R: Kind>(
    state: &State<A, R>,
    rules: &[RuleRow<A::Row, R::Row>],
    frames: &mut [Frame<PacketRow<A::Row, R::Row>>],
    property: Property<A, R>,
) -> Result<(), Refusal<A::Value, R::Value>>
    requires { max_list < length frames.old }
    ensures { (t : Tree A R) → shape_of state.now.tree ≡ t.shape → Laid (rule_entry A.Kind.plain R.Kind.plain) (lengths_of state.now.lists) rules.now t.lists → KeptChecked A.Kind.holds R.Kind.holds t property state.now.property_count result }
{
    match first_break(state, rules, frames, property) {
        Some(found) => Err(Refusal::Breaks {
            property: state.property_count,
            firewall: found.firewall,
            packet: found.packet,
        }),
        None => Ok(()),
    }
}

/// Declares a property standing.
pub fn stand<A: Kind, R: Kind>(
    state: &mut State<A, R>,
    memory: &mut Memory<'_, A::Row, R::Row>,
    property: Property<A, R>,
) -> Result<(), Refusal<A::Value, R::Value>>
    ensures does { Tried A.Kind R.Kind state.old (tables_of memory.old) (Stand property) (lent_by memory.old) (λ _. Done) result state.new (tables_of memory.new) }
    ensures same { SameMemory memory.old memory.new }
{
    memory.check_lengths()?;
    check_between(state, property)?;
    check_room(state.property_count, MAX_PROPERTIES)?;
    let rules = &mut *memory.rules;
    let blocks = &mut *memory.blocks;
    let packet_frames = &mut *memory.packet_frames;
    let address_frames = &mut *memory.address_frames;
    check_offer(state, blocks, address_frames, property)?;
    check_offer_kept(state, rules, packet_frames, property)?;
    let used = state.property_count;
    replace_row(memory.properties, used + 1, used, property_row(property)).unwrap();
    state.property_count = used + 1;
    Ok(())
}

/// Takes a standing property away.
pub fn withdraw<A: Kind, R: Kind>(
    state: &mut State<A, R>,
    memory: &mut Memory<'_, A::Row, R::Row>,
    property: usize,
) -> Result<(), Refusal<A::Value, R::Value>>
    ensures does { Tried A.Kind R.Kind state.old (tables_of memory.old) (Withdraw property) (lent_by memory.old) (λ _. Done) result state.new (tables_of memory.new) }
    ensures same { SameMemory memory.old memory.new }
{
    memory.check_lengths()?;
    check_number(property, state.property_count)?;
    remove_row(memory.properties, state.property_count, property).unwrap();
    state.property_count -= 1;
    Ok(())
}
