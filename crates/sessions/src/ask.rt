// A line to a console, and its reply.
use lines::{Console, LongMemory};
use replies::MIN_ANSWER;

// The reply, with its line feed, in the buffer.
pub(crate) fn ask<'a>(
    console: &mut Console,
    memory: &mut LongMemory<'_>,
    line: &[u8],
    buf: &'a mut [u8; MIN_ANSWER],
) -> &'a [u8] {
    let length = console.answer(line, memory, buf);
    &buf[..length.min(MIN_ANSWER)]
}
