// What is known of lists of rules that lie one after another in a table. The contract is a theorem
// about every such table, however a rule is written as a row.
ghost use Rattle.lists.specs.Laws.{LayoutLaws};

/// Where each list lies, and what an edit of the table makes of it.
pub fn layouts_hold<Addresses, Rests, Row>()
    ensures { LayoutLaws Addresses Rests Row }
{}
