// Replies in which a field that is free is written as a region: `[10.0.0.0/8]` or `[0-31]`.

// The number that a text is, if it has no zero that it does not need.
fn number(text: &str) -> Option<u32> {
    let needed = text == "0" || !text.starts_with('0');
    if needed && text.bytes().all(|byte| byte.is_ascii_digit()) {
        text.parse::<u32>().ok()
    } else {
        None
    }
}

fn part(text: Option<&str>) -> Option<u8> {
    u8::try_from(number(text?)?).ok()
}

fn address(text: &str) -> Option<u32> {
    let mut parts = text.split('.');
    let address = u32::from_be_bytes([
        part(parts.next())?,
        part(parts.next())?,
        part(parts.next())?,
        part(parts.next())?,
    ]);
    if parts.next().is_none() {
        Some(address)
    } else {
        None
    }
}

// Whether the text is an address of the prefix.
fn is_address_in(first: &str, length: &str, text: &str) -> Option<bool> {
    let free = 32u32.checked_sub(number(length)?)?;
    let other = u64::from(address(first)? ^ address(text)?);
    Some(other >> free == 0)
}

// Whether the text is a number of the range.
fn is_number_in(lo: &str, hi: &str, text: &str) -> Option<bool> {
    let inner = number(text)?;
    Some(number(lo)? <= inner && inner <= number(hi)?)
}

fn is_in_region(region: &str, text: &str) -> bool {
    let found = if let Some((first, length)) = region.split_once('/') {
        is_address_in(first, length, text)
    } else if let Some((lo, hi)) = region.split_once('-') {
        is_number_in(lo, hi, text)
    } else {
        None
    };
    found.unwrap_or(false)
}

// The region that a field is, where it is free.
fn region_of(field: &str) -> Option<&str> {
    field.strip_prefix('[')?.strip_suffix(']')
}

fn is_field_met(expected: &str, field: &str) -> bool {
    match region_of(expected) {
        Some(region) => is_in_region(region, field),
        None => expected == field,
    }
}

// Whether the reply is one of those that are expected.
pub(crate) fn is_met(expected: &str, reply: &str) -> bool {
    expected.split(',').count() == reply.split(',').count()
        && expected
            .split(',')
            .zip(reply.split(','))
            .all(|(one, other)| is_field_met(one, other))
}
