// Holds stored sessions of the console to the replies that are written with them. A session begins with a
// line `# name`; then come pairs of lines, `> line` and `< reply`. At its end the console is built again
// from its listing.
#![tactic(auto)]

mod again;
mod ask;
mod entry;
mod escape;
mod expected;
mod session;

use anyhow::Context;
use entry::{Entry, parse};
use forms::{long_addresses, long_rest};
use lines::LongMemory;
use replay::{least_lengths, stores_with};
use session::Session;
use std::alloc::Global;
use std::io::{BufRead, BufReader};

// The sessions of a file, and how many there have been.
#[derive(Drop)]
struct Sessions<'a> {
    alloc: Global,
    memory: LongMemory<'a>,
    spare: LongMemory<'a>,
    current: Option<Session>,
    sessions: usize,
    lines: usize,
}

impl Sessions<'_> {
    // Ends the current session, if there is one.
    fn finish(&mut self, rt: &impl Print) -> anyhow::Result<()> {
        if let Some(session) = &mut self.current {
            let lines = session.finish(rt, &mut self.memory, &mut self.spare)?;
            self.sessions = self.sessions.saturating_add(1);
            self.lines = self.lines.saturating_add(lines);
        }
        Ok(())
    }

    fn begin(&mut self, rt: &impl Print, name: &str) -> anyhow::Result<()> {
        self.finish(rt)?;
        self.current = Some(Session::new(self.alloc, name)?);
        Ok(())
    }

    // Does what a line of the file says.
    fn read(&mut self, rt: &(impl Print + Eprint), line: &str) -> anyhow::Result<()> {
        match parse(line).context("a line that begins with none of # and > and <")? {
            Entry::Name(name) => self.begin(rt, name),
            Entry::Sent(sent) => {
                let session = self.current.as_mut().context("no session has begun")?;
                session.send(sent)
            }
            Entry::Reply(expected) => {
                let session = self.current.as_mut().context("no session has begun")?;
                session.compare(rt, &mut self.memory, expected)
            }
        }
    }
}

fn main(rt: HostRuntime) -> anyhow::Result<()> {
    let alloc = rt.alloc();
    let mut told = stores_with(alloc, least_lengths(), long_addresses(), long_rest())?;
    let mut again = stores_with(alloc, least_lengths(), long_addresses(), long_rest())?;
    let mut sessions = Sessions {
        alloc,
        memory: told.lend(),
        spare: again.lend(),
        current: None,
        sessions: 0,
        lines: 0,
    };
    for (number, line) in BufReader::new(alloc, rt.reader())?.lines(alloc).enumerate() {
        let place = number.saturating_add(1);
        sessions
            .read(&rt, &line?)
            .context(format_args!("line {place} of the file"))?;
    }
    sessions.finish(&rt)?;
    let count = sessions.sessions;
    let lines = sessions.lines;
    println!(&rt; "{count} sessions, {lines} lines")?;
    Ok(())
}
