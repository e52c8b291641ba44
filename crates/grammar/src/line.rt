// What a line says: thirteen verbs, each with its letter and the forms of its fields.
use forms::{LongRest, Prefix};
use kinds::Pair;
use model::Call;

/// The values of the rest of a Long packet: source port, destination port, protocol.
pub type LongRestValue = Pair<u32, Pair<u32, u32>>;

/// A call of a register of the Long form.
pub type LongCall = Call<Prefix, LongRest, u32, LongRestValue>;

/// What a line says.
#[derive(Clone, Copy)]
pub enum Line {
    /// The first line of a listing.
    Heading,
    /// A call to the register.
    Call(LongCall),
    /// A request for a line of the listing.
    List { number: usize },
}

/// What the letter of a line names.
#[derive(Clone, Copy, PartialEq, Debug)]
pub enum Verb {
    Heading,
    Attach,
    Branch,
    Give,
    Take,
    Place,
    Alter,
    Lift,
    Stand,
    Withdraw,
    Ask,
    Send,
    List,
}
