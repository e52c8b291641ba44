// A console restored from its listing.
use anyhow::{Context, bail, ensure};
use lines::{Console, LongMemory};
use replies::MIN_ANSWER;
use restore::restore;
use std::alloc::Global;

// More lines than a listing can have.
const MANY: usize = 1000;

// All lines of the listing, each with its line feed.
fn listing(
    heap: Global,
    console: &mut Console,
    memory: &mut LongMemory<'_>,
) -> anyhow::Result<Vec<u8>> {
    let mut lines = Vec::new(heap);
    for number in 0..MANY {
        let mut buf = [0; MIN_ANSWER];
        let request = format!(in heap; "M,{number}")?;
        let length = console.answer(request.as_bytes(), memory, &mut buf);
        let reply = &buf[..length.min(MIN_ANSWER)];
        if reply == b"none\n".as_slice() {
            return Ok(lines);
        }
        lines.extend_from_slice(reply)?;
    }
    bail!("the listing has {MANY} lines and more")
}

// The console restored from the listing of this one, which must have the same listing.
pub(crate) fn restored(
    heap: Global,
    console: &mut Console,
    memory: &mut LongMemory<'_>,
    spare: &mut LongMemory<'_>,
) -> anyhow::Result<Console> {
    let mut again = restore(console, memory, spare)
        .ok()
        .context("restore gives up")?;
    let before = listing(heap, console, memory)?;
    let after = listing(heap, &mut again, spare)?;
    ensure!(before == after, "the restored console lists something else");
    Ok(again)
}
