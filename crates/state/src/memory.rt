// The memory that is lent to a call.
ghost use Rattle.std.specs.Prelude.{◌≡◌};
ghost use Rattle.model.specs.Refusals.{IsTooShort};
ghost use Rattle.model.specs.declared.answers.Refusal.TheVariants.{TooShort};
ghost use Rattle.state.specs.Memory.{lent_by};
ghost use Rattle.state.specs.Order.{Refuses};

use checks::{BlockRow, PacketRow, PropertyRow, RuleRow};
use model::{
    Lent, MAX_BLOCKS, MAX_PROPERTIES, MAX_RULES, MIN_ADDRESS_FRAMES, MIN_PACKET_FRAMES, Refusal,
};
use search::Frame;

/// Three tables, which are the same at every call, and frames to work in. `X` and `Y` are the rows of
/// addresses and of rests. A function that lends two of the slices to one call names them first, as
/// `let rules = &mut *memory.rules;`: lent from the struct in the call itself they get no proof.
#[derive(Drop)]
pub struct Memory<'a, X, Y> {
    pub rules: &'a mut [RuleRow<X, Y>],
    pub blocks: &'a mut [BlockRow<X>],
    pub properties: &'a mut [PropertyRow<X, Y>],
    pub packet_frames: &'a mut [Frame<PacketRow<X, Y>>],
    pub address_frames: &'a mut [Frame<X>],
}

impl<X, Y> Memory<'_, X, Y> {
    /// The lengths of the five slices.
    pub fn lent(&self) -> Lent
        ensures { result ≡ lent_by self.now }
    {
        Lent {
            rules: self.rules.len(),
            blocks: self.blocks.len(),
            properties: self.properties.len(),
            packet_frames: self.packet_frames.len(),
            address_frames: self.address_frames.len(),
        }
    }

    /// 1: the slices are long enough.
    pub fn check_lengths<V, W>(&self) -> Result<(), Refusal<V, W>>
        ensures { Refuses result TooShort (IsTooShort (lent_by self.now)) }
    {
        let lent = self.lent();
        if lent.rules < MAX_RULES
            || lent.blocks < MAX_BLOCKS
            || lent.properties < MAX_PROPERTIES
            || lent.packet_frames < MIN_PACKET_FRAMES
            || lent.address_frames < MIN_ADDRESS_FRAMES
        {
            return Err(Refusal::TooShort);
        }
        Ok(())
    }
}
