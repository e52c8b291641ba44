// Standing properties that an edit of one firewall's list would break.
ghost use Rattle.std.specs.Prelude.{◌≡◌, ℕ, ◌<◌, List, map, length, Some as Just};
ghost use Rattle.std.specs.List.{slice_get};
ghost use Rattle.checks.specs.Rows.{RulesAre, PropertiesAre};
ghost use Rattle.model.specs.Properties.{Kept};
ghost use Rattle.model.specs.Tree.{Tree};
ghost use Rattle.model.specs.declared.rules.Property.{Property as PropertyOf};
ghost use Rattle.model.specs.declared.rules.Rule.{Rule as RuleOf};
ghost use Rattle.tree.specs.Table.{shape_of};
ghost use Rattle.verdicts.specs.Edited.{BreakAtFound, EditFound};

use checks::{PacketRow, PropertyRow, RuleRow, find_break, read_property};
use kinds::Kind;
use model::{Packet, Property};
use search::Frame;
use tree::TreeTable;

/// A property, by its number, and a packet that breaks it.
#[derive(Clone, Copy)]
pub struct Broken<V, W> {
    pub property: usize,
    pub packet: Packet<V, W>,
}

/// The first property that would be broken once the firewall has this list, with a packet that breaks
/// it there; nothing exactly when all would be kept. So far all are kept, so nothing else is searched.
/// A row that reads as nothing is passed over.
pub fn first_broken<A: Kind, R: Kind>(
    tree: &TreeTable,
    properties: &[PropertyRow<A::Row, R::Row>],
    firewall: usize,
    list: &[RuleRow<A::Row, R::Row>],
    frames: &mut [Frame<PacketRow<A::Row, R::Row>>],
) -> Option<Broken<A::Value, R::Value>>
    requires { length list.now < length frames.old }
    ensures { (t : Tree A R) (rs : List (RuleOf A R)) → shape_of tree.now ≡ t.shape → firewall < length t.lists → RulesAre A.Kind R.Kind list.now rs → PropertiesAre A.Kind R.Kind properties.now t.properties → ((n : ℕ) (p : PropertyOf A R) → slice_get t.properties n ≡ Just p → Kept A.Kind.holds R.Kind.holds t p) → EditFound A.Kind.holds R.Kind.holds t firewall rs result }
{
    // This loop is `first_misplaced`'s too: a shared one would take a closure over frames, and be no shorter.
    for (index, row) in properties.iter().enumerate() {
        if let Some(property) = read_property::<A, R>(*row) {
            if let Some(packet) = break_at(tree, property, firewall, list, frames) {
                return Some(Broken {
                    property: index,
                    packet,
                });
            }
        }
    }
    None
}

// A packet that breaks a property, so far kept, once the firewall has this list.
fn break_at<A: Kind, R: Kind>(
    tree: &TreeTable,
    property: Property<A, R>,
    firewall: usize,
    list: &[RuleRow<A::Row, R::Row>],
    frames: &mut [Frame<PacketRow<A::Row, R::Row>>],
) -> Option<Packet<A::Value, R::Value>>
    requires { length list.now < length frames.old }
    ensures { (t : Tree A R) (rs : List (RuleOf A R)) → shape_of tree.now ≡ t.shape → firewall < length t.lists → RulesAre A.Kind R.Kind list.now rs → Kept A.Kind.holds R.Kind.holds t property → BreakAtFound A.Kind.holds R.Kind.holds t firewall rs property result }
{
    let hop = tree.hop_through(property.from, property.to, firewall)?;
    find_break(list, property, hop.entered, frames)
}
