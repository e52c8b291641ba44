// What a register holds of its own. Rules, blocks and properties lie in lent tables, which is fixed
// memory of its user's, so here it only counts what is in use of them.
ghost use Rattle.std.specs.Prelude.{◌≤◌};
ghost use Rattle.model.specs.Limits.{max_blocks, max_properties};

use lists::ListTable;
use tree::TreeTable;

/// The wholes, the tree, how long each list is, and how many blocks and properties there are.
#[derive(Drop)]
pub struct State<A, R> {
    pub addresses: A,
    pub rests: R,
    pub tree: TreeTable,
    pub lists: ListTable,
    pub block_count: usize,
    pub property_count: usize,
    ghost blocks: { block_count ≤ max_blocks },
    ghost properties: { property_count ≤ max_properties },
}
