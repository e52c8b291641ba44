// Faults get their places: a field's reader counts bytes from the start of the field.
ghost use Rattle.std.specs.Prelude.{◌≡◌, ℕ, ◌+◌, ◌≤◌, length, IfErr};
ghost use Rattle.grammar.specs.Faults.{misread};
ghost use Rattle.grammar.specs.Places.{no_decision, placed};

use crate::fault::{Cause, LineFault, LineProblem};
use crate::part::Part;
use spelling::{Fault, NoDecision};

impl Part<'_> {
    // The fault at a byte of this part.
    pub(crate) fn fault(self, cause: Cause, byte: usize) -> LineFault
        requires { byte ≤ length self.text.now }
        ensures { result ≡ record { cause = cause; field = self.entry.number; byte = self.entry.start + byte } }
    {
        LineFault {
            cause,
            field: self.number,
            byte: self.start + byte,
        }
    }
}

// What a reader of a field finds gets the field's place from the layer above, in front of `?`.
pub(crate) trait InField {
    type Placed;

    // A fault is at a byte of a text of this length, or at its end.
    ghost within: { Self → ℕ → Type 0 };

    fn in_field(self, part: Part<'_>) -> Self::Placed
        requires { within self (length part.text.now) };
}

impl<T> InField for Result<T, Fault> {
    type Placed = Result<T, LineFault>;

    ghost within = { λ r n. IfErr r (λ f. f.byte ≤ n) };

    fn in_field(self, part: Part<'_>) -> Result<T, LineFault>
        requires { IfErr self (λ f. f.byte ≤ length part.text.now) }
        ensures { result ≡ placed misread self part.entry.number part.entry.start }
    {
        match self {
            Ok(value) => Ok(value),
            Err(fault) => Err(part.fault(fault.problem.into(), fault.byte)),
        }
    }
}

impl<T> InField for Result<T, NoDecision> {
    type Placed = Result<T, LineFault>;

    ghost within = { λ r n. IfErr r (λ f. f.byte ≤ n) };

    fn in_field(self, part: Part<'_>) -> Result<T, LineFault>
        requires { IfErr self (λ f. f.byte ≤ length part.text.now) }
        ensures { result ≡ placed no_decision self part.entry.number part.entry.start }
    {
        match self {
            Ok(value) => Ok(value),
            Err(fault) => Err(part.fault(Cause::Line(LineProblem::NoDecision), fault.byte)),
        }
    }
}
