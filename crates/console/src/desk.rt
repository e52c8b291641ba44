// The console with its memory, and the line that is coming in.
use anyhow::ensure;
use forms::{LongRest, Prefix, long_addresses, long_rest};
use kinds::Kind;
use lines::{Console, Intake};
use replay::{Stores, least_lengths, stores_with};
use replies::MIN_ANSWER;
use std::alloc::{AllocError, Global};
use std::io::Write;

#[derive(Drop)]
pub(crate) struct Desk {
    console: Console,
    stores: Stores<<Prefix as Kind>::Row, <LongRest as Kind>::Row>,
    intake: Intake,
}

impl Desk {
    pub(crate) fn new(alloc: Global) -> Result<Desk, AllocError> {
        Ok(Desk {
            console: Console::new(),
            stores: stores_with(alloc, least_lengths(), long_addresses(), long_rest())?,
            intake: Intake::new(),
        })
    }

    // Writes the reply to the line that has come in.
    fn reply<W: Write>(&mut self, out: &mut W) -> anyhow::Result<()> {
        let mut buf = [0; MIN_ANSWER];
        let mut memory = self.stores.lend();
        let length = self
            .console
            .answer(self.intake.line(), &mut memory, &mut buf);
        self.intake = Intake::new();
        ensure!(length <= buf.len(), "a reply is longer than its buffer");
        out.write_all(&buf[..length])?;
        Ok(())
    }

    // Takes bytes that have come in, and replies to each line that ends among them.
    pub(crate) fn take<W: Write>(&mut self, bytes: &[u8], out: &mut W) -> anyhow::Result<()> {
        for byte in bytes {
            if *byte == b'\n' {
                self.reply(out)?;
            } else {
                self.intake.push(*byte);
            }
        }
        Ok(())
    }

    // The last line need not end.
    pub(crate) fn end<W: Write>(&mut self, out: &mut W) -> anyhow::Result<()> {
        if self.intake.is_empty() {
            return Ok(());
        }
        self.reply(out)
    }
}
