// The calls that build the domains and the firewalls above them.
ghost use Rattle.std.specs.Prelude.{◌≡◌, ◌<◌, ◌==◌, [], length, take, slice_index_or};
ghost use Rattle.std.specs.List.{slice_get};
ghost use Rattle.rebuild.specs.Listing.{some_below, hook, domain_calls};
ghost use Rattle.tree.specs.Rules.{node_at};
ghost use Rattle.tree.specs.Table.{shape_of};

use model::{Call, Decision, Uplink};
use tree::TreeTable;

// Where the domain of a line lies: domain k + 1 is that of line k.
fn lower_uplink(tree: &TreeTable, line: usize) -> Option<Uplink>
    requires { line < length (shape_of tree.now).domains }
    ensures { result ≡ slice_get (shape_of tree.now).domains line }
{
    tree.domain_uplink(line + 1)
}

// Whether the domain of a line lies below a firewall.
fn lies_below(tree: &TreeTable, line: usize, firewall: usize) -> bool
    requires { line < length (shape_of tree.now).domains }
    ensures { result ≡ (node_at (shape_of tree.now).domains line == firewall) }
{
    lower_uplink(tree, line).is_some_and(|uplink| uplink.node == firewall)
}

// Whether one of the domains of the lines before this one lies below a firewall.
fn some_below(tree: &TreeTable, line: usize, firewall: usize) -> bool
    requires { line < length (shape_of tree.now).domains }
    ensures { result ≡ some_below (take line (shape_of tree.now).domains) firewall }
{
    (0..line).any(|before| lies_below(tree, before, firewall))
}

// Where a firewall hangs.
fn hook(tree: &TreeTable, firewall: usize) -> Uplink
    ensures { result ≡ hook (shape_of tree.now) firewall }
{
    // There is a firewall of each number that a domain lies below.
    let none = Uplink {
        node: 0,
        interface: 0,
    };
    tree.firewall_uplink(firewall).unwrap_or(none)
}

// The first domain below a firewall comes with it, any other is a branch of it.
pub(crate) fn domain_call<A, R, V, W>(tree: &TreeTable, line: usize) -> Option<Call<A, R, V, W>>
    requires { line < length (shape_of tree.now).domains }
    ensures { result ≡ slice_get (domain_calls (shape_of tree.now) [] (shape_of tree.now).domains) line }
{
    let lower = lower_uplink(tree, line)?;
    if some_below(tree, line, lower.node) {
        return Some(Call::Branch {
            firewall: lower.node,
            interface: u32::from(lower.interface),
        });
    }
    let upper = hook(tree, lower.node);
    Some(Call::Attach {
        domain: upper.node,
        upper: u32::from(upper.interface),
        lower: u32::from(lower.interface),
        decision: Decision::Discard,
    })
}
