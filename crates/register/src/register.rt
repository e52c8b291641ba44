// The register, and how it begins.
ghost use Rattle.std.specs.Prelude.{[]};
ghost use Rattle.state.specs.Rows.{Stored};
ghost use Rattle.register.specs.Promise.{Tells};

use kinds::Kind;
use lists::ListTable;
use state::State;
use tree::TreeTable;

/// What a register holds of its own; rules, blocks and properties lie in the memory lent to its calls.
#[derive(Drop)]
pub struct Register<A, R> {
    pub(crate) state: State<A, R>,
}

impl<A: Kind, R: Kind> Register<A, R> {
    /// Domain 0 alone, in these wholes. The tables may hold anything.
    pub fn new(addresses: A, rests: R) -> Register<A, R>
        ensures { (s : Stored A.Row R.Row) → Tells A.Kind R.Kind addresses rests [] result s }
    {
        Register {
            state: State {
                addresses,
                rests,
                tree: TreeTable::new(),
                lists: ListTable::new(),
                block_count: 0,
                property_count: 0,
            },
        }
    }
}
