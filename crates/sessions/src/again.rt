// A console built again from its listing.
use crate::ask::ask;
use anyhow::{Context, bail, ensure};
use lines::{Console, LongMemory};
use replies::MIN_ANSWER;
use restore::restore;
use std::alloc::Global;

// More lines than a listing can have.
const MANY: usize = 1000;

// All lines of the listing, each with its line feed.
fn listing(
    alloc: Global,
    console: &mut Console,
    memory: &mut LongMemory<'_>,
) -> anyhow::Result<Vec<u8>> {
    let mut lines = Vec::new(alloc);
    for number in 0..MANY {
        let mut buf = [0; MIN_ANSWER];
        let request = format!(in alloc; "M,{number}")?;
        let reply = ask(console, memory, request.as_bytes(), &mut buf);
        if reply == b"none\n".as_slice() {
            return Ok(lines);
        }
        lines.extend_from_slice(reply)?;
    }
    bail!("the listing has {MANY} lines and more")
}

// Gives the lines to the console, which must refuse none.
fn read(console: &mut Console, memory: &mut LongMemory<'_>, lines: &[u8]) -> anyhow::Result<()> {
    for line in lines.split(|byte| *byte == b'\n') {
        let mut buf = [0; MIN_ANSWER];
        let reply = ask(console, memory, line, &mut buf);
        ensure!(
            line.is_empty() || reply.starts_with(b"ok"),
            "a line of the listing is refused"
        );
    }
    Ok(())
}

// Reads the listing into a new console, whose listing must be the same; and so must that of the restored one.
pub(crate) fn check(
    alloc: Global,
    console: &mut Console,
    memory: &mut LongMemory<'_>,
    spare: &mut LongMemory<'_>,
) -> anyhow::Result<()> {
    let lines = listing(alloc, console, memory)?;
    let mut again = Console::new();
    read(&mut again, spare, &lines)?;
    ensure!(
        listing(alloc, &mut again, spare)? == lines,
        "the console that has read the listing lists something else"
    );
    let mut restored = restore(console, memory, spare)
        .ok()
        .context("restore gives up")?;
    ensure!(
        listing(alloc, &mut restored, spare)? == lines,
        "the restored console lists something else"
    );
    Ok(())
}
