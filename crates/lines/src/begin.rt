// How a console begins.
ghost use Rattle.std.specs.Prelude.{◌≡◌, []};
ghost use Rattle.forms.specs.declared.prefix.Prefix.{Prefix};
ghost use Rattle.grammar.specs.Lines.{LongRest};
ghost use Rattle.register.specs.Promise.{Tells};
ghost use Rattle.lines.specs.Kinds.{address_kind, rest_kind, LongStored};
ghost use Rattle.lines.specs.Wholes.{LongWholes};

use crate::console::Console;
use forms::{LongRest, Prefix, long_addresses, long_rest};
use register::Register;

impl Console {
    // A console with these wholes, which are those of the Long form, and domain 0 alone.
    fn of(addresses: Prefix, rests: LongRest) -> Console
        requires { LongWholes addresses rests }
        ensures { (x : Prefix) × (y : LongRest) × LongWholes x y × ((s : LongStored) → Tells address_kind rest_kind x y [] result.register s) }
    {
        Console {
            register: Register::new(addresses, rests),
        }
    }

    /// All addresses, ports and protocols, and domain 0 alone. The tables may hold anything.
    pub fn new() -> Console
        ensures { (x : Prefix) × (y : LongRest) × LongWholes x y × ((s : LongStored) → Tells address_kind rest_kind x y [] result.register s) }
    {
        Console::of(long_addresses(), long_rest())
    }
}
