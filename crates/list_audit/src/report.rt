// What the audit prints.
use crate::audit::{ask, read_all};
use crate::packets::{Packet, Packets, PacketsRow, Shown};
use crate::questions::{Question, complete, house_questions, street_questions};
use crate::rules::{Action, RULES, office_rules};
use search::{Entry, Found, Frame};
use std::fmt;

// A packet that breaks a question, with the rule that decides it, as it is printed.
#[derive(Clone, Copy)]
struct Breach(Found<Packet>);

impl fmt::Display for Breach {
    fn fmt<W: fmt::Write>(&self, f: &mut fmt::Formatter<W>) -> fmt::Result {
        let packet = Shown(self.0.value);
        let Some(decided) = self.0.decided else {
            return write!(f, "{packet} (no rule)");
        };
        let rule = decided.position.saturating_add(1);
        match Action::try_from(decided.outcome) {
            Ok(action) => write!(f, "{packet} (rule {rule}: {action})"),
            Err(unknown) => write!(f, "{packet} (rule {rule}: {unknown})"),
        }
    }
}

// The search needs one frame more than there are rules.
const FRAMES: usize = RULES + 1;

// What was asked so far.
#[derive(Clone, Copy, Default)]
struct Tally {
    asked: usize,
    broken: usize,
}

// Asks the questions of the list, a line each.
fn ask_all(
    rt: &impl Print,
    rules: &[Entry<PacketsRow>],
    questions: &[Question],
    frames: &mut [Frame<PacketsRow>],
    tally: &mut Tally,
) -> anyhow::Result<()> {
    for question in questions {
        let words = question.words;
        tally.asked = tally.asked.saturating_add(1);
        match ask::<Packets>(rules, question.packets, question.breaks, frames)? {
            None => println!(rt; "{words}: kept")?,
            Some(found) => {
                tally.broken = tally.broken.saturating_add(1);
                let breach = Breach(found);
                println!(rt; "{words}: broken by {breach}")?;
            }
        }
    }
    Ok(())
}

// Asks everything, and closes with what was done.
pub(crate) fn report(rt: &impl Print) -> anyhow::Result<()> {
    let rules = office_rules();
    let read = read_all::<Packets>(&rules)?;
    let mut tally = Tally::default();
    let mut frames = [Frame::filled(complete().packets); FRAMES];
    ask_all(rt, &rules, &[complete()], &mut frames, &mut tally)?;
    ask_all(rt, &rules, &street_questions(), &mut frames, &mut tally)?;
    ask_all(rt, &rules, &house_questions(), &mut frames, &mut tally)?;
    let asked = tally.asked;
    let broken = tally.broken;
    println!(rt; "{read} rules read, {asked} questions asked, {broken} broken")?;
    Ok(())
}
