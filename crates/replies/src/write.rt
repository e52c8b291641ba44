// Replies, written.
ghost use Rattle.std.specs.Prelude.{◌≡◌, ◌<◌, ◌≤◌, ◌∷◌, [], length, IfOk, IsOk};
ghost use Rattle.spelling.specs.Writes.{Puts};
ghost use Rattle.grammar.specs.Texts.{phrase};
ghost use Rattle.replies.specs.Texts.{min_answer, packet_values, answer_word, answer_values, no, shown, reply_word, reply_values, reply_text};
ghost use Rattle.replies.specs.declared.reply.Reply.TheVariants.{Fault};
ghost use Rattle.grammar.specs.declared.value.Value.TheVariants.{Number};
ghost use Rattle.model.specs.Refusals.{number};

use crate::reply::{LongAnswer, Reply};
use grammar::{LineFault, LongRestValue, Value, put_line, put_phrase};
use model::{Answer, Packet, Refusal};
use spelling::put_bytes;
use tables::Full;

/// Bytes that a buffer for replies must have.
pub const MIN_ANSWER: usize = 200;

// The values that a packet is shown by.
fn packet_values(packet: Packet<u32, LongRestValue>) -> [Value; 6]
    ensures { result ≡ packet_values packet }
{
    [
        Value::Number(packet.interface as usize),
        Value::Address(packet.source),
        Value::Address(packet.destination),
        Value::Number(packet.rest.left as usize),
        Value::Number(packet.rest.right.left as usize),
        Value::Number(packet.rest.right.right as usize),
    ]
}

// Writes which property a call would break, where, and by which packet.
fn put_break(
    buf: &mut [u8],
    number: u8,
    property: usize,
    firewall: usize,
    packet: Packet<u32, LongRestValue>,
) -> Result<usize, Full>
    ensures written { Puts buf.old buf.new 0 (phrase no (Number number ∷ Number property ∷ Number firewall ∷ packet_values packet)) result }
    ensures short { IfOk result (λ end. end < min_answer) }
    ensures room { min_answer ≤ length buf.old → IsOk result }
{
    let [entered, source, destination, from, to, protocol] = packet_values(packet);
    let values = [
        Value::Number(number as usize),
        Value::Number(property),
        Value::Number(firewall),
        entered,
        source,
        destination,
        from,
        to,
        protocol,
    ];
    put_phrase(buf, 0, b"no", &values)
}

// Writes why a call is refused.
fn put_refusal(buf: &mut [u8], refusal: Refusal<u32, LongRestValue>) -> Result<usize, Full>
    ensures written { Puts buf.old buf.new 0 (phrase no (Number (number refusal) ∷ shown refusal)) result }
    ensures short { IfOk result (λ end. end < min_answer) }
    ensures room { min_answer ≤ length buf.old → IsOk result }
{
    let number = Value::Number(refusal.number() as usize);
    match refusal {
        Refusal::TooShort
        | Refusal::NoSuch
        | Refusal::BadInterface
        | Refusal::Full
        | Refusal::Outside
        | Refusal::Unjoined => put_phrase(buf, 0, b"no", &[number]),
        Refusal::Overlap { block } => put_phrase(buf, 0, b"no", &[number, Value::Number(block)]),
        Refusal::SourceAstray { address } | Refusal::DestinationAstray { address } => {
            put_phrase(buf, 0, b"no", &[number, Value::Address(address)])
        }
        Refusal::Unmatched { packet } => {
            let [entered, source, destination, from, to, protocol] = packet_values(packet);
            let values = [number, entered, source, destination, from, to, protocol];
            put_phrase(buf, 0, b"no", &values)
        }
        Refusal::Misplaced { property, address } => {
            let values = [number, Value::Number(property), Value::Address(address)];
            put_phrase(buf, 0, b"no", &values)
        }
        Refusal::Breaks {
            property,
            firewall,
            packet,
        } => put_break(buf, refusal.number(), property, firewall, packet),
    }
}

// Writes what a call answers.
fn put_answer(buf: &mut [u8], answer: LongAnswer) -> Result<usize, Full>
    ensures written { Puts buf.old buf.new 0 (phrase (answer_word answer) (answer_values answer)) result }
    ensures short { IfOk result (λ end. end < min_answer) }
    ensures room { min_answer ≤ length buf.old → IsOk result }
{
    match answer {
        Answer::Done => put_phrase(buf, 0, b"ok", &[]),
        Answer::Attached { firewall, domain } => {
            put_phrase(
                buf,
                0,
                b"ok",
                &[Value::Number(firewall), Value::Number(domain)],
            )
        }
        Answer::Branched { domain } => put_phrase(buf, 0, b"ok", &[Value::Number(domain)]),
        Answer::Kept => put_phrase(buf, 0, b"kept", &[]),
        Answer::Broken { firewall, packet } => {
            let [entered, source, destination, from, to, protocol] = packet_values(packet);
            let values = [
                Value::Number(firewall),
                entered,
                source,
                destination,
                from,
                to,
                protocol,
            ];
            put_phrase(buf, 0, b"broken", &values)
        }
        Answer::Passed => put_phrase(buf, 0, b"passed", &[]),
        Answer::Stopped { firewall, position } => {
            let values = [Value::Number(firewall), Value::Number(position)];
            put_phrase(buf, 0, b"stopped", &values)
        }
        Answer::Refused { refusal } => put_refusal(buf, refusal),
    }
}

// Writes which fault a line has, and where.
fn put_fault(buf: &mut [u8], fault: LineFault) -> Result<usize, Full>
    ensures written { Puts buf.old buf.new 0 (phrase no (reply_values (Fault fault))) result }
    ensures short { IfOk result (λ end. end < min_answer) }
    ensures room { min_answer ≤ length buf.old → IsOk result }
{
    let values = [
        Value::Number(fault.number() as usize),
        Value::Number(fault.field),
        Value::Number(fault.byte),
    ];
    put_phrase(buf, 0, b"no", &values)
}

// Writes a reply at the front of the buffer: where it ends.
fn put_words(buf: &mut [u8], reply: &Reply) -> Result<usize, Full>
    ensures written { Puts buf.old buf.new 0 (phrase (reply_word reply.now) (reply_values reply.now)) result }
    ensures short { IfOk result (λ end. end < min_answer) }
    ensures room { min_answer ≤ length buf.old → IsOk result }
{
    match *reply {
        Reply::Answer(answer) => put_answer(buf, answer),
        Reply::Line(line) => put_line(buf, 0, &line),
        Reply::End => put_phrase(buf, 0, b"none", &[]),
        Reply::Fault(fault) => put_fault(buf, fault),
    }
}

/// Writes a reply, and a line feed behind it, at the front of the buffer: where it ends.
pub fn put_reply(buf: &mut [u8], reply: &Reply) -> Result<usize, Full>
    ensures written { Puts buf.old buf.new 0 (reply_text reply.now) result }
    ensures room { min_answer ≤ length buf.old → IsOk result }
{
    let end = put_words(buf, reply)?;
    put_bytes(buf, end, b"\n")
}
