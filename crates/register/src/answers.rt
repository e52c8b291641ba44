// The answer that the result of a call stands for.
ghost use Rattle.std.specs.Prelude.{◌≡◌};
ghost use Rattle.verdicts.specs.Passage.{passage_answer};
ghost use Rattle.offers.specs.Asked.{asked_as};
ghost use Rattle.register.specs.Answers.{Answers};

use model::{Answer, Refusal};
use verdicts::{Break, Stop};

// The refusal, or what `say` makes of a result that is none.
pub(crate) fn answer<T, V, W, F: FnOnce(T) -> Answer<V, W>>(
    outcome: Result<T, Refusal<V, W>>,
    say: F,
) -> Answer<V, W>
    requires { F.IsAlwaysCallable say }
    ensures { Answers (F.post say) outcome result }
{
    match outcome {
        Ok(value) => say(value),
        Err(refusal) => Answer::Refused { refusal },
    }
}

// The answer of ask, by what breaks the property.
pub(crate) fn asked<V, W>(found: Option<Break<V, W>>) -> Answer<V, W>
    ensures { result ≡ asked_as found }
{
    match found {
        None => Answer::Kept,
        Some(found) => Answer::Broken {
            firewall: found.firewall,
            packet: found.packet,
        },
    }
}

// The answer of send, by what stops the packet.
pub(crate) fn sent<V, W>(stop: Option<Stop>) -> Answer<V, W>
    ensures { result ≡ passage_answer stop }
{
    match stop {
        None => Answer::Passed,
        Some(Stop { firewall, position }) => Answer::Stopped { firewall, position },
    }
}
