// Gives a console lines of all sorts, and looks at each reply: it has the form of one, ends with a line feed,
// and leaves the rest of the buffer as it was. Now and then the console is restored.
// Its argument is how many lines. With `print N` it prints N lines, and gives them to no console.
#![tactic(auto)]

mod again;
mod counts;
mod draw;
mod fields;
mod mutate;
mod random;
mod run;
mod sorts;
mod words;

use anyhow::{Context, ensure};
use chance::Random;
use draw::draw;
use run::run;
use std::alloc::Global;
use std::env;
use std::io::{self, BufWriter, Write};
use std::rt::Env;

const SEED: u64 = 20_231;

const LINES: usize = 200_000;

// What the program is asked for.
#[derive(Clone, Copy)]
enum Asked {
    Give { lines: usize },
    Print { lines: usize },
}

fn count(text: &str) -> anyhow::Result<usize> {
    text.parse::<usize>()
        .context(format_args!("{text:?} is no number of lines"))
}

fn read_arguments(rt: &(impl Env + Alloc)) -> anyhow::Result<Asked> {
    let mut args = env::args(rt)?.skip(1);
    let Some(first) = args.next() else {
        return Ok(Asked::Give { lines: LINES });
    };
    let second = args.next();
    ensure!(args.next().is_none(), "that is an argument too many");
    match second {
        Some(lines) => {
            ensure!(
                first.as_str() == "print",
                "it takes print, and how many lines"
            );
            Ok(Asked::Print {
                lines: count(lines.as_str())?,
            })
        }
        None => Ok(Asked::Give {
            lines: count(first.as_str())?,
        }),
    }
}

// Prints so many lines.
fn print(rt: &impl Print, heap: Global, random: &mut Random, lines: usize) -> anyhow::Result<()> {
    let mut out = BufWriter::new(heap, io::writer(rt))?;
    for _ in 0..lines {
        out.write_all(&draw(heap, random)?)?;
        out.write_all(b"\n")?;
    }
    out.flush()?;
    Ok(())
}

fn main(rt: HostRuntime) -> anyhow::Result<()> {
    let heap = rt.alloc();
    let mut random = Random::new(SEED);
    match read_arguments(&rt)? {
        Asked::Print { lines } => print(&rt, heap, &mut random, lines),
        Asked::Give { lines } => {
            let counts = run(heap, &mut random, lines)?;
            counts.print(&rt)?;
            println!(&rt; "{lines} lines, each with a reply")?;
            Ok(())
        }
    }
}
