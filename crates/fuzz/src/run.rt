// A run: lines drawn and given to a console, each reply looked at.
use crate::again::restored;
use crate::counts::Counts;
use crate::draw::draw;
use crate::random::Drawing;
use crate::sorts::sort_of;
use anyhow::{Context, bail, ensure};
use chance::Random;
use forms::{long_addresses, long_rest};
use lines::{Console, LongMemory};
use replay::{least_lengths, stores_with};
use replies::MIN_ANSWER;
use std::alloc::Global;

// Bytes of the buffer for replies: more than the longest has.
const BUFFER: usize = MIN_ANSWER + 100;

// So many lines, and the console is restored; so many, and a new one is begun.
const RESTORED: usize = 1_000;

const BEGUN: usize = 10_000;

// Gives the line to the console, and looks at the reply and at what is behind it in the buffer.
fn give(
    heap: Global,
    console: &mut Console,
    memory: &mut LongMemory<'_>,
    line: &[u8],
    mark: u8,
    counts: &mut Counts,
) -> anyhow::Result<()> {
    let mut buf = [mark; BUFFER];
    let length = console.answer(line, memory, &mut buf);
    ensure!(length <= MIN_ANSWER, "a reply of {length} bytes");
    let (reply, behind) = buf.split_at(length);
    ensure!(
        behind.iter().all(|byte| *byte == mark),
        "a byte behind the reply is changed"
    );
    match sort_of(heap, reply)? {
        Some(sort) => counts.add(sort),
        None => bail!("{reply:?} is no reply"),
    }
    Ok(())
}

// Gives so many lines to consoles.
pub(crate) fn run(heap: Global, random: &mut Random, lines: usize) -> anyhow::Result<Counts> {
    let mut first = stores_with(heap, least_lengths(), long_addresses(), long_rest())?;
    let mut second = stores_with(heap, least_lengths(), long_addresses(), long_rest())?;
    let mut memory = first.lend();
    let mut spare = second.lend();
    let mut console = Console::new();
    let mut counts = Counts::new();
    for number in 0..lines {
        let line = draw(heap, random)?;
        let mark = random.byte();
        give(heap, &mut console, &mut memory, &line, mark, &mut counts).context(format_args!(
            "line {number}: {line:?}"
        ))?;
        if number % RESTORED == RESTORED - 1 {
            restored(heap, &mut console, &mut memory, &mut spare)?;
            counts.add_restored();
        }
        if number % BEGUN == BEGUN - 1 {
            console = Console::new();
        }
    }
    Ok(counts)
}
