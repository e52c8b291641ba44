// The firewalls of a tree with their lists, as they lie in tables.
use checks::RuleRow;
use kinds::Kind;
use lists::ListTable;
use tree::TreeTable;

/// Where the firewalls hang, how long their lists are, and the rules of all lists, one after another.
#[derive(Drop)]
pub struct Network<'a, A: Kind, R: Kind> {
    pub tree: &'a TreeTable,
    pub lists: &'a ListTable,
    pub rules: &'a [RuleRow<A::Row, R::Row>],
}
