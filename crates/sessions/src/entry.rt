// The lines of a file of sessions.

#[derive(Clone, Copy)]
pub(crate) enum Entry<'a> {
    Name(&'a str),
    Sent(&'a str),
    Reply(&'a str),
}

// What a line of the file is, by its first two bytes.
pub(crate) fn parse(line: &str) -> Option<Entry<'_>> {
    if let Some(name) = line.strip_prefix("# ") {
        return Some(Entry::Name(name));
    }
    if let Some(sent) = line.strip_prefix("> ") {
        return Some(Entry::Sent(sent));
    }
    line.strip_prefix("< ").map(Entry::Reply)
}
