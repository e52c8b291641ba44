// Properties that a firewall on their route breaks.
ghost use Rattle.std.specs.Prelude.{◌≡◌, ◌<◌, length};
ghost use Rattle.model.specs.Limits.{max_list};
ghost use Rattle.model.specs.Tree.{Tree};
ghost use Rattle.verdicts.specs.Asked.{HopFound, AskedFound};
ghost use Rattle.verdicts.specs.Network.{Draws};

use crate::network::Network;
use checks::{PacketRow, find_break};
use kinds::Kind;
use model::{Hop, Packet, Property};
use search::Frame;

/// A packet that breaks a property, and the firewall at which it does.
#[derive(Drop)]
pub struct Break<V, W> {
    pub firewall: usize,
    pub packet: Packet<V, W>,
}

impl<A: Kind, R: Kind> Network<'_, A, R> {
    /// The first firewall on the route of the property at which a packet breaks it, with such a
    /// packet; nothing exactly when the property is kept.
    pub fn first_break(
        &self,
        property: Property<A, R>,
        frames: &mut [Frame<PacketRow<A::Row, R::Row>>],
    ) -> Option<Break<A::Value, R::Value>>
        requires { max_list < length frames.old }
        ensures { (t : Tree A R) → Draws A.Kind.plain R.Kind.plain self.now t → AskedFound A.Kind.holds R.Kind.holds t property result }
    {
        let mut at = property.from;
        while let Some(hop) = self.tree.next_hop(at, property.to) {
            if let Some(packet) = self.break_in(hop, property, frames) {
                return Some(Break {
                    firewall: hop.firewall,
                    packet,
                });
            }
            at = hop.reached;
        }
        None
    }

    // A packet that breaks the property in one hop, if one does.
    fn break_in(
        &self,
        hop: Hop,
        property: Property<A, R>,
        frames: &mut [Frame<PacketRow<A::Row, R::Row>>],
    ) -> Option<Packet<A::Value, R::Value>>
        requires { max_list < length frames.old }
        ensures { (t : Tree A R) → Draws A.Kind.plain R.Kind.plain self.now t → HopFound A.Kind.holds R.Kind.holds t property hop result }
    {
        let list = self.lists.rows_of(self.rules, hop.firewall);
        find_break::<A, R>(list, property, hop.entered, frames)
    }
}
