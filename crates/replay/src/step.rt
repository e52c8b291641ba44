// What is replayed: a call, and the memory to lend it.
ghost use Rattle.std.specs.Prelude.{◌≡◌};
ghost use Rattle.replay.specs.Replay.{entry};

use model::{Answer, Call, Lent, Recorded};

/// A call, and how much of each table and of the frames to lend to it.
#[derive(Clone, Copy)]
pub struct Step<A, R, V, W> {
    pub call: Call<A, R, V, W>,
    pub lent: Lent,
}

impl<A, R, V, W> Step<A, R, V, W> {
    // The entry of a record: this step, and what was answered.
    pub(crate) fn answered(self, answer: Answer<V, W>) -> Recorded<A, R, V, W>
        ensures { result ≡ entry self answer }
    {
        Recorded {
            call: self.call,
            lent: self.lent,
            answer,
        }
    }
}
