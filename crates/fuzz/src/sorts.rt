// The forms of replies.
use crate::fields::Field;
use std::alloc::{AllocError, Global};
use std::str;

const NODE: Field = Field::Number { most: 63 };

const INTERFACE: Field = Field::Number { most: 31 };

// A position, a block or a property.
const ROW: Field = Field::Number { most: 127 };

const PORT: Field = Field::Number { most: 65_535 };

const PROTOCOL: Field = Field::Number { most: 255 };

const PORTS: Field = Field::Range { most: 65_535 };

const PROTOCOLS: Field = Field::Range { most: 255 };

const PACKET: [Field; 6] = [
    INTERFACE,
    Field::Address,
    Field::Address,
    PORT,
    PORT,
    PROTOCOL,
];

const REGIONS: [Field; 5] = [Field::Prefix, Field::Prefix, PORTS, PORTS, PROTOCOLS];

// What a reply is.
#[derive(Clone, Copy, PartialEq)]
pub(crate) enum Sort {
    Done,
    Listed,
    Refused,
    Fault,
}

fn are(texts: &[&str], fields: &[Field]) -> bool {
    texts.len() == fields.len()
        && texts
            .iter()
            .zip(fields.iter())
            .all(|(text, field)| field.is_met(text))
}

// Whether the texts are these fields, and then those.
fn are_both(texts: &[&str], first: &[Field], then: &[Field]) -> bool {
    match texts.split_at_checked(first.len()) {
        Some((front, back)) => are(front, first) && are(back, then),
        None => false,
    }
}

fn is_refusal(shown: &[&str], number: &str) -> bool {
    match number {
        "2" | "3" | "4" | "7" => shown.is_empty(),
        "6" => are(shown, &[ROW]),
        "8" | "9" => are(shown, &[Field::Address]),
        "10" => are(shown, &PACKET),
        "11" => are(shown, &[ROW, Field::Address]),
        "12" => are_both(shown, &[ROW, NODE], &PACKET),
        _ => false,
    }
}

// The number of a field, and a byte of the line.
fn is_fault(shown: &[&str], number: &str) -> bool {
    match number {
        "13" => are(
            shown,
            &[Field::Number { most: 0 }, Field::Number { most: 200 }],
        ),
        "14" => are(
            shown,
            &[Field::Number { most: 1 }, Field::Number { most: 0 }],
        ),
        "15" | "16" => are(
            shown,
            &[Field::Number { most: 10 }, Field::Number { most: 200 }],
        ),
        _ => false,
    }
}

fn is_line(letter: &str, shown: &[&str]) -> bool {
    match letter {
        "T" => shown == ["1"].as_slice(),
        "A" => are(shown, &[NODE, INTERFACE, INTERFACE, Field::Decision]),
        "B" => are(shown, &[NODE, INTERFACE]),
        "G" => are(shown, &[NODE, Field::Prefix]),
        "P" | "C" => are_both(shown, &[NODE, ROW, Field::Decision, Field::Set], &REGIONS),
        "S" => are_both(shown, &[Field::Decision, NODE, NODE], &REGIONS),
        _ => false,
    }
}

fn is_done(word: &str, shown: &[&str]) -> bool {
    match word {
        "ok" => are(shown, &[]) || are(shown, &[NODE]) || are(shown, &[NODE, NODE]),
        "kept" | "passed" | "none" => shown.is_empty(),
        "broken" => are_both(shown, &[NODE], &PACKET),
        "stopped" => are(shown, &[NODE, ROW]),
        _ => false,
    }
}

fn sort_of_fields(fields: &[&str]) -> Option<Sort> {
    let (word, shown) = fields.split_first()?;
    if *word == "no" {
        let (number, shown) = shown.split_first()?;
        if is_fault(shown, number) {
            return Some(Sort::Fault);
        }
        return if is_refusal(shown, number) {
            Some(Sort::Refused)
        } else {
            None
        };
    }
    if is_line(word, shown) {
        return Some(Sort::Listed);
    }
    if is_done(word, shown) {
        Some(Sort::Done)
    } else {
        None
    }
}

// What a reply is, if it has the form of one, and one line feed at its end.
pub(crate) fn sort_of(heap: Global, reply: &[u8]) -> Result<Option<Sort>, AllocError> {
    let text = str::from_utf8(reply)
        .ok()
        .and_then(|text| text.strip_suffix('\n'));
    let Some(text) = text else {
        return Ok(None);
    };
    let fields: Vec<&str> = text.split(',').collect(heap)?;
    Ok(sort_of_fields(&fields))
}
