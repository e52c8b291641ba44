// A session as far as it has been read.
use crate::again;
use crate::ask::ask;
use crate::escape::unescape;
use crate::expected::is_met;
use anyhow::{Context, bail, ensure};
use lines::{Console, LongMemory};
use replies::MIN_ANSWER;
use std::alloc::Global;
use std::str;

#[derive(Drop)]
pub(crate) struct Session {
    alloc: Global,
    name: String,
    console: Console,
    // The line that waits for its reply, as the file has it.
    sent: Option<String>,
    lines: usize,
}

// The text of a reply, without its line feed.
fn text(reply: &[u8]) -> Option<&str> {
    str::from_utf8(reply).ok()?.strip_suffix('\n')
}

impl Session {
    pub(crate) fn new(alloc: Global, name: &str) -> anyhow::Result<Session> {
        Ok(Session {
            alloc,
            name: String::from_str(alloc, name)?,
            console: Console::new(),
            sent: None,
            lines: 0,
        })
    }

    pub(crate) fn send(&mut self, line: &str) -> anyhow::Result<()> {
        ensure!(self.sent.is_none(), "a line without a reply");
        self.sent = Some(String::from_str(self.alloc, line)?);
        Ok(())
    }

    // Gives the line that waits to the console.
    pub(crate) fn compare(
        &mut self,
        rt: &impl Eprint,
        memory: &mut LongMemory<'_>,
        expected: &str,
    ) -> anyhow::Result<()> {
        let sent = self.sent.take().context("a reply without a line")?;
        let line = unescape(self.alloc, &sent)?;
        let mut buf = [0; MIN_ANSWER];
        let reply = ask(&mut self.console, memory, &line, &mut buf);
        let got = text(reply).context("a reply that is no text with a line feed")?;
        if !is_met(expected, got) {
            let name = self.name.as_str();
            eprintln!(rt; "session  {name}")?;
            eprintln!(rt; "line     {sent}")?;
            eprintln!(rt; "expected {expected}")?;
            eprintln!(rt; "got      {got}")?;
            bail!("a reply is not the expected one");
        }
        self.lines = self.lines.saturating_add(1);
        Ok(())
    }

    // The session ends: its console is built again.
    pub(crate) fn finish(
        &mut self,
        rt: &impl Print,
        memory: &mut LongMemory<'_>,
        spare: &mut LongMemory<'_>,
    ) -> anyhow::Result<usize> {
        ensure!(self.sent.is_none(), "a line without a reply");
        let name = self.name.as_str();
        again::check(self.alloc, &mut self.console, memory, spare).context(format_args!(
            "session {name}"
        ))?;
        let lines = self.lines;
        println!(rt; "{name}: {lines} lines")?;
        Ok(lines)
    }
}
