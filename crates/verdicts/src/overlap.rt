// Blocks that share an address.
ghost use Rattle.std.specs.Prelude.{◌≡◌, List, map, Decides};
ghost use Rattle.checks.specs.Rows.{block_entry};
ghost use Rattle.model.specs.Tree.{Block};
ghost use Rattle.verdicts.specs.Overlap.{RowShares, OverlapFound};

use checks::BlockRow;
use kinds::{Kind, share_a_value};

/// The first block that shares an address with the region, if one does.
pub fn first_overlap<A: Kind>(blocks: &[BlockRow<A::Row>], region: A) -> Option<usize>
    ensures { (bs : List (Block A)) → blocks.now ≡ map (block_entry A.Kind.plain) bs → OverlapFound A.Kind.holds bs region result }
{
    blocks
        .iter()
        .position(|block| row_shares(block.row, region))
}

// Whether the region of a row shares a value with the other.
fn row_shares<A: Kind>(row: A::Row, region: A) -> bool
    ensures { Decides result (RowShares A.Kind.holds A.Kind.region region row) }
{
    A::read(row).is_some_and(|other| share_a_value(other, region))
}
