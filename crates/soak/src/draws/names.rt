// Which of the eleven calls a call is.
use model::Call;

#[derive(Clone, Copy, PartialEq, Debug)]
pub enum Name {
    Attach,
    Branch,
    Give,
    Take,
    Place,
    Alter,
    Lift,
    Stand,
    Withdraw,
    Ask,
    Send,
}

// All of them, in the order of the table of calls.
pub const NAMES: [Name; 11] = [
    Name::Attach,
    Name::Branch,
    Name::Give,
    Name::Take,
    Name::Place,
    Name::Alter,
    Name::Lift,
    Name::Stand,
    Name::Withdraw,
    Name::Ask,
    Name::Send,
];

impl Name {
    pub(crate) fn of<A, R, V, W>(call: &Call<A, R, V, W>) -> Name {
        match call {
            Call::Attach { .. } => Name::Attach,
            Call::Branch { .. } => Name::Branch,
            Call::Give { .. } => Name::Give,
            Call::Take { .. } => Name::Take,
            Call::Place { .. } => Name::Place,
            Call::Alter { .. } => Name::Alter,
            Call::Lift { .. } => Name::Lift,
            Call::Stand { .. } => Name::Stand,
            Call::Withdraw { .. } => Name::Withdraw,
            Call::Ask { .. } => Name::Ask,
            Call::Send { .. } => Name::Send,
        }
    }
}
