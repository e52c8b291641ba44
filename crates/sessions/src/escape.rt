// Lines of any bytes, as they are written in a file: `\xHH` is a byte, and `\\` a backslash.
use anyhow::{Context, ensure};
use std::alloc::Global;

// What the byte that comes next belongs to.
#[derive(Clone, Copy)]
enum Place {
    Text,
    Escape,
    High,
    Low { high: u8 },
}

fn digit(byte: u8) -> anyhow::Result<u8> {
    let value = match byte {
        b'0'..=b'9' => Some(byte - b'0'),
        b'a'..=b'f' => Some(byte - b'a' + 10),
        _ => None,
    };
    value.context("no digit behind a backslash and x")
}

// Reads a byte of the file, and answers where the next one stands.
fn take(place: Place, byte: u8, bytes: &mut Vec<u8>) -> anyhow::Result<Place> {
    match place {
        Place::Text if byte == b'\\' => return Ok(Place::Escape),
        Place::Text => bytes.push(byte)?,
        Place::Escape if byte == b'x' => return Ok(Place::High),
        Place::Escape => {
            ensure!(
                byte == b'\\',
                "neither x nor a backslash behind a backslash"
            );
            bytes.push(byte)?;
        }
        Place::High => {
            return Ok(Place::Low { high: digit(byte)? });
        }
        Place::Low { high } => bytes.push(high << 4 | digit(byte)?)?,
    }
    Ok(Place::Text)
}

// The bytes that a text stands for.
pub(crate) fn unescape(alloc: Global, text: &str) -> anyhow::Result<Vec<u8>> {
    let mut bytes = Vec::new(alloc);
    let mut place = Place::Text;
    for byte in text.bytes() {
        place = take(place, byte, &mut bytes)?;
    }
    ensure!(
        matches!(place, Place::Text),
        "a backslash, and too little behind it"
    );
    Ok(bytes)
}
