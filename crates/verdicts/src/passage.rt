// What becomes of a packet on its way.
ghost use Rattle.std.specs.Prelude.{◌≡◌, ℕ, List, map, Some};
ghost use Rattle.std.specs.List.{slice_get};
ghost use Rattle.model.specs.Packets.{entering};
ghost use Rattle.model.specs.Record.{Sent};
ghost use Rattle.model.specs.Shape.{Domain};
ghost use Rattle.model.specs.Tree.{Tree, Block, rules_of};
ghost use Rattle.model.specs.declared.rules.Rule.{Rule as RuleOf};
ghost use Rattle.checks.specs.Rows.{block_entry, RulesAre};
ghost use Rattle.verdicts.specs.Network.{Draws};
ghost use Rattle.verdicts.specs.Passage.{passage_answer, DiscardFound};

use crate::network::Network;
use checks::{BlockRow, RuleRow, domain_of};
use kinds::{Kind, PacketRegion};
use model::{Decision, Header, Hop, Packet};
use search::outcome_of;

/// The rule that stops a packet: its firewall, and its position in the list there.
#[derive(Clone, Copy)]
pub struct Stop {
    pub firewall: usize,
    pub position: usize,
}

impl<A: Kind, R: Kind> Network<'_, A, R> {
    /// The first stop of a packet on the way from the domain of its source to that of its
    /// destination; nothing exactly when it passes every firewall.
    pub fn first_stop(
        &self,
        blocks: &[BlockRow<A::Row>],
        header: Header<A::Value, R::Value>,
    ) -> Option<Stop>
        ensures { (t : Tree A R) → Draws A.Kind.plain R.Kind.plain self.now t → blocks.now ≡ map (block_entry A.Kind.plain) t.blocks → ((k : ℕ) (b : Block A) → slice_get t.blocks k ≡ Some b → Domain t.shape b.domain) → Sent A.Kind.holds R.Kind.holds t header (passage_answer result) }
    {
        let mut at = domain_of::<A, R>(blocks, header.source) as usize;
        let to = domain_of::<A, R>(blocks, header.destination) as usize;
        while let Some(hop) = self.tree.next_hop(at, to) {
            if let Some(position) = self.stop_in(hop, header) {
                return Some(Stop {
                    firewall: hop.firewall,
                    position,
                });
            }
            at = hop.reached;
        }
        None
    }

    // The position of the rule that discards a packet in one hop, if one does.
    fn stop_in(&self, hop: Hop, header: Header<A::Value, R::Value>) -> Option<usize>
        ensures { (t : Tree A R) → Draws A.Kind.plain R.Kind.plain self.now t → DiscardFound A.Kind.holds R.Kind.holds (rules_of t hop.firewall) (entering header hop.entered) result }
    {
        let list = self.lists.rows_of(self.rules, hop.firewall);
        discarded_at::<A, R>(list, header.entering(hop.entered))
    }
}

// The position of the rule that discards a packet; nothing exactly when the list does not.
fn discarded_at<A: Kind, R: Kind>(
    list: &[RuleRow<A::Row, R::Row>],
    packet: Packet<A::Value, R::Value>,
) -> Option<usize>
    ensures { (rs : List (RuleOf A R)) → RulesAre A.Kind R.Kind list.now rs → DiscardFound A.Kind.holds R.Kind.holds rs packet result }
{
    let decided = outcome_of::<PacketRegion<A, R>>(list, packet.into())?;
    if decided.outcome == u32::from(Decision::Discard) {
        Some(decided.position)
    } else {
        None
    }
}
