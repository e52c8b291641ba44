// The console program: lines from standard input, a reply to each on standard output.
#![tactic(auto)]

mod desk;

use desk::Desk;
use std::io::{self, BufWriter, Read, Write};

// Bytes that are read at once. A person's line comes alone, and is replied to before the next is read.
const CHUNK: usize = 4096;

fn main(rt: HostRuntime) -> anyhow::Result<()> {
    let mut input = rt.reader();
    let mut out = BufWriter::new(rt.alloc(), io::writer(&rt))?;
    let mut desk = Desk::new(rt.alloc())?;
    let mut chunk = [0; CHUNK];
    for _ in 0..u64::MAX {
        let count = input.read(&mut chunk)?;
        if count == 0 {
            break;
        }
        desk.take(&chunk[..count], &mut out)?;
        out.flush()?;
    }
    desk.end(&mut out)?;
    out.flush()?;
    Ok(())
}
