// The checks of a property that is offered, by stand or by ask.
ghost use Rattle.std.specs.Prelude.{◌≡◌, ◌<◌, ◌⊎◌, map, length, take};
ghost use Rattle.checks.specs.Addresses.{BlocksAre};
ghost use Rattle.model.specs.Limits.{max_blocks};
ghost use Rattle.model.specs.Refusals.{Misjoined};
ghost use Rattle.model.specs.Shape.{Domain};
ghost use Rattle.model.specs.Tree.{Tree};
ghost use Rattle.model.specs.declared.answers.Refusal.TheVariants.{NoSuch, Unjoined};
ghost use Rattle.tree.specs.Table.{shape_of};
ghost use Rattle.state.specs.Order.{Refuses};
ghost use Rattle.offers.specs.Offers.{SourceChecked, DestinationChecked, OfferChecked};

use checks::{BlockRow, find_astray};
use kinds::Kind;
use model::{Decision, Property, Refusal};
use search::Frame;
use state::State;
use tables::used_rows;
use verdicts::source_astray;

// 8: every address of the source is of its domain. The source of discard is free.
fn check_source<A: Kind, R: Kind>(
    blocks: &[BlockRow<A::Row>],
    frames: &mut [Frame<A::Row>],
    property: Property<A, R>,
) -> Result<(), Refusal<A::Value, R::Value>>
    requires { length blocks.now < length frames.old }
    ensures { (t : Tree A R) → BlocksAre A.Kind blocks.now t → SourceChecked A.Kind.holds R.Kind.holds t property result }
{
    match source_astray(blocks, property, frames) {
        Some(address) => Err(Refusal::SourceAstray { address }),
        None => Ok(()),
    }
}

// 9: every address of the destination is of its domain.
fn check_destination<A: Kind, R: Kind>(
    blocks: &[BlockRow<A::Row>],
    frames: &mut [Frame<A::Row>],
    property: Property<A, R>,
) -> Result<(), Refusal<A::Value, R::Value>>
    requires { length blocks.now < length frames.old }
    ensures { (t : Tree A R) → BlocksAre A.Kind blocks.now t → DestinationChecked A.Kind.holds R.Kind.holds t property result }
{
    match find_astray::<A, R>(blocks, property.destination, property.to, frames) {
        Some(address) => Err(Refusal::DestinationAstray { address }),
        None => Ok(()),
    }
}

// 2: both domains of the property exist.
pub(crate) fn check_between<A: Kind, R: Kind>(
    state: &State<A, R>,
    property: Property<A, R>,
) -> Result<(), Refusal<A::Value, R::Value>>
    ensures { Refuses result NoSuch ((Domain (shape_of state.now.tree) property.from → ⊥) ⊎ (Domain (shape_of state.now.tree) property.to → ⊥)) }
{
    state.check_domain(property.from)?;
    state.check_domain(property.to)
}

// 7: its domains differ and, for discard, share a firewall.
fn check_joined<A: Kind, R: Kind>(
    state: &State<A, R>,
    property: Property<A, R>,
) -> Result<(), Refusal<A::Value, R::Value>>
    ensures { Refuses result Unjoined (Misjoined (shape_of state.now.tree) property) }
{
    if property.from == property.to {
        return Err(Refusal::Unjoined);
    }
    match property.sort {
        Decision::Accept => Ok(()),
        // `ok_or` is no plainer, since the firewall itself is dropped.
        Decision::Discard => match state.tree.shared_firewall(property.from, property.to) {
            Some(_) => Ok(()),
            None => Err(Refusal::Unjoined),
        },
    }
}

// 5, 7, 8 and 9, in this order, over the used blocks.
pub(crate) fn check_offer<A: Kind, R: Kind>(
    state: &State<A, R>,
    blocks: &[BlockRow<A::Row>],
    frames: &mut [Frame<A::Row>],
    property: Property<A, R>,
) -> Result<(), Refusal<A::Value, R::Value>>
    requires { max_blocks < length frames.old }
    ensures { (t : Tree A R) → state.now.addresses ≡ t.addresses → state.now.rests ≡ t.rests → shape_of state.now.tree ≡ t.shape → BlocksAre A.Kind (take state.now.block_count blocks.now) t → OfferChecked A.Kind.holds R.Kind.holds t property result }
{
    state.check_regions_inside(property.source, property.destination, property.rest)?;
    check_joined(state, property)?;
    let used = used_rows(blocks, state.block_count);
    check_source(used, frames, property)?;
    check_destination(used, frames, property)
}
