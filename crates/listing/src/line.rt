// A line of the listing.
ghost use Rattle.std.specs.Prelude.{◌≡◌};
ghost use Rattle.std.specs.List.{slice_get};
ghost use Rattle.model.specs.Tree.{Tree};
ghost use Rattle.rebuild.specs.Listing.{listing};
ghost use Rattle.state.specs.Memory.{tables_of};
ghost use Rattle.state.specs.Picture.{Pictures};

use crate::domains::domain_call;
use crate::rows::{block_call, property_call};
use crate::rules::rule_call;
use kinds::Kind;
use model::Call;
use state::{Memory, State};
use tables::used_rows;

/// The call of a line of the listing, counted from 0: domains from 1 up, blocks, each firewall's rules,
/// properties. Nothing past its end.
pub fn listed<A: Kind, R: Kind>(
    state: &State<A, R>,
    memory: &Memory<'_, A::Row, R::Row>,
    number: usize,
) -> Option<Call<A, R, A::Value, R::Value>>
    ensures { (t : Tree A R) → Pictures A.Kind.plain R.Kind.plain state.now (tables_of memory.now) t → result ≡ slice_get (listing t) number }
{
    let domains = state.tree.domain_count() - 1;
    if number < domains {
        return domain_call(&state.tree, number);
    }
    let line = number - domains;
    if line < state.block_count {
        return block_call(used_rows(memory.blocks, state.block_count), line);
    }
    let line = line - state.block_count;
    let rules = state.lists.total();
    if line < rules {
        return rule_call(&state.lists, memory.rules, line);
    }
    property_call(
        used_rows(memory.properties, state.property_count),
        line - rules,
    )
}
