// A question whose looks are counted.
use crate::counts::{Counts, add};
use kinds::Kind;
use search::{Look, Question};

/// A question, and where its looks are counted.
#[derive(Drop)]
pub struct CountedQuestion<'a, Q: Question> {
    pub question: &'a Q,
    pub counts: &'a Counts,
}

impl<Q: Question> Question for CountedQuestion<'_, Q> {
    type Region = Q::Region;

    ghost wished = { λ q. Q.wished q.question.now };

    ghost scope = { λ q. Q.scope q.question.now };

    ghost entries = { λ q. Q.entries q.question.now };

    // What the look asks of entries is counted apart from what else is asked.
    fn look(&self, region: Q::Region) -> Look<Q::Region, <Q::Region as Kind>::Value> {
        let before = self.counts.relations.get();
        let look = self.question.look(region);
        let after = self.counts.relations.get();
        add(&self.counts.looks, 1);
        add(&self.counts.tests, after.saturating_sub(before));
        look
    }
}
