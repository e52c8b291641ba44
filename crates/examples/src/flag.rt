// A field kind made for show: a new kind owes its meaning, and nothing of the search.
ghost use Rattle.std.specs.Prelude.{refl, Some, length};
ghost use Rattle.examples.specs.Flag.{flag_holds, flag_some, flag_values, flag_decided, FlagsSearched};

use kinds::Kind;
use search::{Entry, Frame, TooShort, Wish, search};

/// A region of the two truth values: one of them, or both.
#[derive(Clone, Copy)]
pub enum Flag {
    /// `true` alone.
    On,
    /// `false` alone.
    Off,
    /// Both values.
    Either,
}

impl Kind for Flag {
    type Value = bool;

    // A region lies in a table as it is.
    type Row = Flag;

    ghost holds = { flag_holds };

    ghost plain = { λ x. x };

    ghost region = { λ w. Some w };

    ghost inhabited = { flag_some };

    ghost finite = { flag_values };

    ghost decided = { flag_decided };

    ghost rereads = { λ x. refl };

    ghost faithful = { λ w x e. cc };

    fn has(self, value: bool) -> bool {
        match self {
            Flag::On => value,
            Flag::Off => !value,
            Flag::Either => true,
        }
    }

    fn meet(self, other: Flag) -> Option<Flag> {
        match (self, other) {
            (Flag::On, Flag::Off) | (Flag::Off, Flag::On) => None,
            (Flag::Either, region) => Some(region),
            (region, _) => Some(region),
        }
    }

    // Both values are cut in two by either of them.
    fn split(self, other: Flag) -> Option<(Flag, Flag)> {
        match (self, other) {
            (Flag::Either, Flag::On | Flag::Off) => Some((Flag::On, Flag::Off)),
            _ => None,
        }
    }

    fn pick(self) -> bool {
        !matches!(self, Flag::Off)
    }

    fn row(self) -> Flag {
        self
    }

    fn read(row: Flag) -> Option<Flag> {
        Some(row)
    }
}

/// A truth value whose outcome in a list of flags is as wished; nothing exactly where neither has
/// such an outcome. The search is the one that serves packets and addresses, and knows of flags
/// their meaning alone.
pub fn search_flags(
    list: &[Entry<Flag>],
    wish: Wish,
    frames: &mut [Frame<Flag>],
) -> Result<Option<bool>, TooShort>
    ensures { FlagsSearched list.now wish (length frames.old) result }
{
    match search(list, Flag::Either, wish, frames)? {
        Some(found) => Ok(Some(found.value)),
        None => Ok(None),
    }
}
