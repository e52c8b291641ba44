// What becomes of a line.
ghost use Rattle.std.specs.Prelude.{◌≡◌, Ok};
ghost use Rattle.state.specs.Memory.{SameMemory, lent_by, tables_of};
ghost use Rattle.grammar.specs.declared.line.Line.TheVariants.{List};
ghost use Rattle.lines.specs.Serve.{Replies, Serves};

use crate::console::Console;
use forms::{LongRest, Prefix};
use grammar::{Line, read_line};
use kinds::Kind;
use model::Answer;
use register::Memory;
use replies::{MIN_ANSWER, Reply, put_reply};

/// The memory that is lent to a console.
pub type LongMemory<'a> = Memory<'a, <Prefix as Kind>::Row, <LongRest as Kind>::Row>;

impl Console {
    // The reply to a request for a line of the listing.
    fn listed(&self, memory: &LongMemory<'_>, number: usize) -> Reply
        ensures { Replies self.now (tables_of memory.now) (lent_by memory.now) (Ok (List number)) result self.now (tables_of memory.now) }
    {
        let Some(number) = number.checked_sub(1) else {
            return Reply::Line(Line::Heading);
        };
        match self.register.listed(memory, number) {
            Some(call) => Reply::Line(Line::Call(call)),
            None => Reply::End,
        }
    }

    // The reply to what a line says.
    fn reply(&mut self, memory: &mut LongMemory<'_>, line: Line) -> Reply
        ensures replies { Replies self.old (tables_of memory.old) (lent_by memory.old) (Ok line) result self.new (tables_of memory.new) }
        ensures same { SameMemory memory.old memory.new }
    {
        match line {
            Line::Heading => Reply::Answer(Answer::Done),
            Line::Call(call) => Reply::Answer(self.register.apply(memory, call)),
            Line::List { number } => self.listed(memory, number),
        }
    }

    /// Does what the line says; the buffer then begins with the reply, which ends with a line feed, and
    /// the reply's length is answered. Where a slice or the buffer is too short, it does nothing: 0.
    pub fn answer(&mut self, line: &[u8], memory: &mut LongMemory<'_>, buf: &mut [u8]) -> usize
        ensures serves { Serves self.old (tables_of memory.old) (lent_by memory.old) line.now buf.old result self.new (tables_of memory.new) buf.new }
        ensures same { SameMemory memory.old memory.new }
    {
        if buf.len() < MIN_ANSWER || memory.check_lengths::<u32, u32>().is_err() {
            return 0;
        }
        let reply = match read_line(line) {
            Ok(said) => self.reply(memory, said),
            Err(fault) => Reply::Fault(fault),
        };
        put_reply(buf, &reply).unwrap_or(0)
    }
}
