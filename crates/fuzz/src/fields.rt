// The fields of replies, as they have to be written.

#[derive(Clone, Copy)]
pub(crate) enum Field {
    Number { most: u32 },
    Address,
    Prefix,
    Range { most: u32 },
    Set,
    Decision,
}

// The number that a text is, if it has no zero that it does not need.
fn number(text: &str) -> Option<u32> {
    let needed = text == "0" || !text.starts_with('0');
    if needed && text.bytes().all(|byte| byte.is_ascii_digit()) {
        text.parse::<u32>().ok()
    } else {
        None
    }
}

fn is_number(text: &str, most: u32) -> bool {
    number(text).is_some_and(|number| number <= most)
}

fn part(text: Option<&str>) -> Option<u8> {
    u8::try_from(number(text?)?).ok()
}

fn address(text: &str) -> Option<u32> {
    let mut parts = text.split('.');
    let address = u32::from_be_bytes([
        part(parts.next())?,
        part(parts.next())?,
        part(parts.next())?,
        part(parts.next())?,
    ]);
    if parts.next().is_none() {
        Some(address)
    } else {
        None
    }
}

// An address, and a length: the bits past it are zero.
fn is_prefix(first: &str, length: &str) -> Option<bool> {
    let free = 32u32.checked_sub(number(length)?)?;
    let first = u64::from(address(first)?);
    Some((first >> free) << free == first)
}

fn is_range(lo: &str, hi: &str, most: u32) -> Option<bool> {
    let last = number(hi)?;
    Some(number(lo)? <= last && last <= most)
}

fn is_set(text: &str) -> bool {
    let mut bytes = text.bytes();
    text.len() == 8
        && text != "00000000"
        && bytes.all(|byte| matches!(byte, b'0'..=b'9' | b'a'..=b'f'))
}

impl Field {
    pub(crate) fn is_met(self, text: &str) -> bool {
        match self {
            Field::Number { most } => is_number(text, most),
            Field::Address => address(text).is_some(),
            Field::Prefix => match text.split_once('/') {
                Some((first, length)) => is_prefix(first, length).unwrap_or(false),
                None => false,
            },
            Field::Range { most } => match text.split_once('-') {
                Some((lo, hi)) => is_range(lo, hi, most).unwrap_or(false),
                None => false,
            },
            Field::Set => is_set(text),
            Field::Decision => text == "a" || text == "d",
        }
    }
}
