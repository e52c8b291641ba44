// Lines of all sorts.
use crate::mutate::mutate;
use crate::random::Drawing;
use crate::words::well_formed;
use chance::Random;
use std::alloc::{AllocError, Global};

// A little longer than a line may be.
const LONG: usize = 220;

fn random_bytes(heap: Global, random: &mut Random) -> Result<Vec<u8>, AllocError> {
    let mut line = Vec::new(heap);
    for _ in 0..random.below(LONG) {
        line.push(random.byte())?;
    }
    Ok(line)
}

fn random_text(heap: Global, random: &mut Random) -> Result<Vec<u8>, AllocError> {
    let mut line = Vec::new(heap);
    for _ in 0..random.below(LONG) {
        line.push(random.printed())?;
    }
    Ok(line)
}

// A right line that is spoiled in so many ways.
fn spoiled(heap: Global, random: &mut Random, times: usize) -> Result<Vec<u8>, AllocError> {
    let text = well_formed(heap, random)?;
    let mut line = text.as_bytes().to_vec(heap)?;
    for _ in 0..times {
        mutate(heap, random, &mut line)?;
    }
    Ok(line)
}

pub(crate) fn draw(heap: Global, random: &mut Random) -> Result<Vec<u8>, AllocError> {
    match random.below(20) {
        0 => random_bytes(heap, random),
        1 => random_text(heap, random),
        2 | 3 | 4 | 5 => spoiled(heap, random, 1),
        6 => spoiled(heap, random, 2),
        7 => spoiled(heap, random, 5),
        _ => spoiled(heap, random, 0),
    }
}
