// What an intake holds of the line that comes in.
ghost use Rattle.std.specs.Prelude.{◌≡◌, List, ℕ, [], ◌∷◌, ◌++◌, Result, Decides};
ghost use Rattle.grammar.specs.Reading.{ReadsLine};
ghost use Rattle.grammar.specs.declared.fault.LineFault.{LineFault};
ghost use Rattle.grammar.specs.declared.line.Line.{Line};
ghost use Rattle.tables.specs.FixedVec.{used};
ghost use Rattle.lines.specs.Intake.{Holds};

use crate::intake::Intake;
use tables::FixedVec;

impl Intake {
    /// No byte has come.
    pub fn new() -> Intake
        ensures { Holds result [] }
    {
        Intake {
            front: FixedVec::new(0),
        }
    }

    /// The next byte of the line comes; one that no line can have is let go.
    pub fn push(&mut self, byte: u8)
        ensures { (text : List ℕ) → Holds self.old text → Holds self.new (text ++ byte ∷ []) }
    {
        let _room = self.front.push(byte);
    }

    /// What means the same as the line that has come.
    pub fn line(&self) -> &[u8]
        ensures front { result.now ≡ used self.now.front }
        ensures means { (text : List ℕ) (m : Result Line LineFault) → Holds self.now text → ReadsLine result.now m → ReadsLine text m }
    {
        self.front.as_slice()
    }

    /// Whether no byte has come.
    pub fn is_empty(&self) -> bool
        ensures { (text : List ℕ) → Holds self.now text → Decides result (text ≡ []) }
    {
        self.line().is_empty()
    }
}
