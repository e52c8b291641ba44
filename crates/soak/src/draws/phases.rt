// How often each call is made: the weights change, so that the tree grows to its limits and shrinks.
use crate::draws::names::{NAMES, Name};
use chance::Random;

// Calls of one phase. After the last phase comes the first again.
const LENGTH: usize = 625;

// The weights of attach, branch, give, take, place, alter, lift, stand, withdraw, ask and send.
const PHASES: [[usize; 11]; 8] = [
    // Domains, and blocks in them.
    [5, 5, 24, 4, 12, 4, 4, 12, 2, 14, 14],
    // Long lists.
    [3, 3, 4, 2, 70, 6, 2, 4, 1, 2, 3],
    // Edits of them.
    [1, 2, 2, 2, 30, 26, 24, 4, 1, 4, 4],
    // Properties go.
    [1, 1, 8, 8, 6, 8, 30, 4, 20, 7, 7],
    // Blocks, to the last address.
    [1, 1, 70, 8, 2, 2, 4, 0, 6, 3, 3],
    // Properties.
    [1, 1, 4, 2, 4, 4, 8, 66, 0, 5, 5],
    // Edits under all that stands.
    [1, 1, 6, 10, 18, 20, 18, 10, 2, 7, 7],
    // All shrinks.
    [1, 1, 2, 24, 2, 8, 40, 2, 12, 4, 4],
];

// Draws which call is made, as the weights of its phase are.
pub(crate) fn draw_name(random: &mut Random, call_number: usize) -> Name {
    let weights = PHASES[call_number / LENGTH % PHASES.len()];
    let all = weights
        .iter()
        .fold(0, |sum: usize, weight| sum.saturating_add(*weight));
    let mut left = random.below(all);
    for (name, weight) in NAMES.iter().zip(weights.iter()) {
        if left < *weight {
            return *name;
        }
        left -= *weight;
    }
    Name::Send
}
