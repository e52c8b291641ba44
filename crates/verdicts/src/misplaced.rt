// Standing properties that the blocks misplace.
ghost use Rattle.std.specs.Prelude.{◌≡◌, ◌<◌, map, length};
ghost use Rattle.checks.specs.Addresses.{BlocksAre};
ghost use Rattle.checks.specs.Rows.{PropertiesAre};
ghost use Rattle.model.specs.Tree.{Tree};
ghost use Rattle.verdicts.specs.Misplaced.{SourceFound, AstrayIn, MisplacedFound};

use checks::{BlockRow, PropertyRow, find_astray, read_property};
use kinds::Kind;
use model::{Decision, Property};
use search::Frame;

/// A property, by its number, and an address that is astray in it.
#[derive(Clone, Copy)]
pub struct Astray<V> {
    pub property: usize,
    pub address: V,
}

/// The first property that the blocks misplace, with an address that shows it; nothing exactly when
/// all are placed well. A row that reads as nothing is passed over.
pub fn first_misplaced<A: Kind, R: Kind>(
    blocks: &[BlockRow<A::Row>],
    properties: &[PropertyRow<A::Row, R::Row>],
    frames: &mut [Frame<A::Row>],
) -> Option<Astray<A::Value>>
    requires { length blocks.now < length frames.old }
    ensures { (t : Tree A R) → BlocksAre A.Kind blocks.now t → PropertiesAre A.Kind R.Kind properties.now t.properties → MisplacedFound A.Kind.holds R.Kind.holds t result }
{
    for (index, row) in properties.iter().enumerate() {
        if let Some(property) = read_property::<A, R>(*row) {
            if let Some(address) = astray_in(blocks, property, frames) {
                return Some(Astray {
                    property: index,
                    address,
                });
            }
        }
    }
    None
}

// An address that is astray in the property: in its source if one is, else in its destination.
fn astray_in<A: Kind, R: Kind>(
    blocks: &[BlockRow<A::Row>],
    property: Property<A, R>,
    frames: &mut [Frame<A::Row>],
) -> Option<A::Value>
    requires { length blocks.now < length frames.old }
    ensures { (t : Tree A R) → BlocksAre A.Kind blocks.now t → AstrayIn A.Kind.holds R.Kind.holds t property result }
{
    match source_astray(blocks, property, frames) {
        Some(address) => Some(address),
        None => find_astray::<A, R>(blocks, property.destination, property.to, frames),
    }
}

/// An address of the source that is not of its domain; nothing exactly when there is none. The source
/// of discard is free.
#[tactic(auto, using(crate::proofs::Strays::accept_source, crate::proofs::Strays::discard_source))]
pub fn source_astray<A: Kind, R: Kind>(
    blocks: &[BlockRow<A::Row>],
    property: Property<A, R>,
    frames: &mut [Frame<A::Row>],
) -> Option<A::Value>
    requires { length blocks.now < length frames.old }
    ensures { (t : Tree A R) → BlocksAre A.Kind blocks.now t → SourceFound A.Kind.holds R.Kind.holds t property result }
{
    match property.sort {
        Decision::Accept => find_astray::<A, R>(blocks, property.source, property.from, frames),
        Decision::Discard => None,
    }
}
