// The calls that build the firewalls' lists of rules.
ghost use Rattle.std.specs.Prelude.{◌≡◌, ◌+◌, ◌<◌, ◌≤◌, List, MatchOption, map, length, sum};
ghost use Rattle.std.specs.List.{slice_get};
ghost use Rattle.checks.specs.Rows.{rule_entry};
ghost use Rattle.lists.specs.Layout.{Laid};
ghost use Rattle.lists.specs.Lengths.{lengths_of, length_at, start_of};
ghost use Rattle.model.specs.declared.rules.Rule.{Rule};
ghost use Rattle.rebuild.specs.Listing.{rule_calls, list_calls};

use crate::rows::{read_rule, row_at};
use checks::RuleRow;
use kinds::Kind;
use lists::ListTable;
use model::Call;

// The firewall, and the position in its list, of a row of the table of rules.
fn place_of(lists: &ListTable, row: usize) -> Option<(usize, usize)>
    ensures { MatchOption result (sum (lengths_of lists.now) ≤ row) (λ p. (p.0 < length (lengths_of lists.now)) × (p.1 < length_at (lengths_of lists.now) p.0) × (start_of (lengths_of lists.now) p.0 + p.1 ≡ row)) }
{
    let mut position = row;
    for firewall in 0..lists.count() {
        let length = lists.length(firewall);
        if position < length {
            return Some((firewall, position));
        }
        position -= length;
    }
    None
}

// A rule is placed at its position; the last takes the place of the rule that the list began with.
fn list_call<A: Kind, R: Kind>(
    firewall: usize,
    list: &[RuleRow<A::Row, R::Row>],
    position: usize,
) -> Option<Call<A, R, A::Value, R::Value>>
    ensures { (rs : List (Rule A R)) → list.now ≡ map (rule_entry A.Kind.plain R.Kind.plain) rs → result ≡ slice_get (rule_calls firewall 0 rs) position }
{
    let row = row_at(list, position)?;
    let rule = read_rule(row)?;
    if position == list.len() - 1 {
        return Some(Call::Alter {
            firewall,
            position,
            rule,
        });
    }
    Some(Call::Place {
        firewall,
        position,
        rule,
    })
}

// The rules come list by list, as they lie in the table.
pub(crate) fn rule_call<A: Kind, R: Kind>(
    lists: &ListTable,
    rules: &[RuleRow<A::Row, R::Row>],
    line: usize,
) -> Option<Call<A, R, A::Value, R::Value>>
    requires { line < sum (lengths_of lists.now) }
    ensures { (ls : List (List (Rule A R))) → Laid (rule_entry A.Kind.plain R.Kind.plain) (lengths_of lists.now) rules.now ls → result ≡ slice_get (list_calls 0 ls) line }
{
    let (firewall, position) = place_of(lists, line)?;
    list_call(firewall, lists.rows_of(rules, firewall), position)
}
