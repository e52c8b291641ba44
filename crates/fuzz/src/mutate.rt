// Lines that are spoiled.
use crate::random::Drawing;
use chance::Random;
use std::alloc::{AllocError, Global};

const COMMA: u8 = b',';

// Bytes that fields are made of, and others.
fn byte(random: &mut Random) -> u8 {
    match random.below(4) {
        0 => random.byte(),
        1 => random.printed(),
        _ => random.pick(b"0123456789,.-/adfTx ").unwrap_or(b'0'),
    }
}

fn change(random: &mut Random, line: &mut Vec<u8>) {
    let at = random.below(line.len());
    let other = byte(random);
    if let Some(place) = line.get_mut(at) {
        *place = other;
    }
}

fn insert(random: &mut Random, line: &mut Vec<u8>) -> Result<(), AllocError> {
    let at = random.below(line.len().saturating_add(1));
    let other = byte(random);
    if at <= line.len() {
        line.insert(at, other)?;
    }
    Ok(())
}

fn remove(random: &mut Random, line: &mut Vec<u8>) {
    let at = random.below(line.len());
    if at < line.len() {
        line.remove(at);
    }
}

// Two fields change places, or one stands for the other too.
fn move_field(heap: Global, random: &mut Random, line: &mut Vec<u8>) -> Result<(), AllocError> {
    let old = line.clone()?;
    let mut fields: Vec<&[u8]> = old.split(|byte| *byte == COMMA).collect(heap)?;
    let one = random.below(fields.len());
    let other = random.below(fields.len());
    if one < fields.len() && other < fields.len() {
        if random.once_in(2) {
            fields.swap(one, other);
        } else {
            fields[one] = fields[other];
        }
    }
    line.clear();
    for (at, field) in fields.iter().enumerate() {
        if at > 0 {
            line.push(COMMA)?;
        }
        line.extend_from_slice(field)?;
    }
    Ok(())
}

fn cut(random: &mut Random, line: &mut Vec<u8>) {
    let length = random.below(line.len());
    line.truncate(length);
}

// About as long as a line may be, or far longer.
fn lengthen(random: &mut Random, line: &mut Vec<u8>) -> Result<(), AllocError> {
    let length = if random.once_in(8) {
        5000
    } else {
        195 + random.below(10)
    };
    for _ in line.len()..length {
        line.push(byte(random))?;
    }
    Ok(())
}

pub(crate) fn mutate(
    heap: Global,
    random: &mut Random,
    line: &mut Vec<u8>,
) -> Result<(), AllocError> {
    match random.below(12) {
        0 | 1 | 2 => change(random, line),
        3 | 4 => insert(random, line)?,
        5 | 6 => remove(random, line),
        7 | 8 => move_field(heap, random, line)?,
        9 | 10 => cut(random, line),
        _ => lengthen(random, line)?,
    }
    Ok(())
}
