// How much memory is lent to a call.
use chance::Random;
use model::{Lent, MAX_BLOCKS, MAX_PROPERTIES, MAX_RULES, MIN_ADDRESS_FRAMES, MIN_PACKET_FRAMES};

// What every call asks for.
pub const ASKED: Lent = Lent {
    rules: MAX_RULES,
    blocks: MAX_BLOCKS,
    properties: MAX_PROPERTIES,
    packet_frames: MIN_PACKET_FRAMES,
    address_frames: MIN_ADDRESS_FRAMES,
};

// Rows that may be lent beyond that.
pub const MORE: usize = 2;

// What is asked for, or some rows more, or now and then one row too few in one of the slices.
pub(crate) fn draw_lent(random: &mut Random) -> Lent {
    let more = random.below(MORE + 1);
    let mut lent = Lent {
        rules: ASKED.rules + more,
        blocks: ASKED.blocks + more,
        properties: ASKED.properties + more,
        packet_frames: ASKED.packet_frames + more,
        address_frames: ASKED.address_frames + more,
    };
    if random.once_in(50) {
        match random.below(5) {
            0 => lent.rules = ASKED.rules - 1,
            1 => lent.blocks = ASKED.blocks - 1,
            2 => lent.properties = ASKED.properties - 1,
            3 => lent.packet_frames = ASKED.packet_frames - 1,
            _ => lent.address_frames = ASKED.address_frames - 1,
        }
    }
    lent
}
