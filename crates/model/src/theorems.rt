// What the statement is known to mean. Each function's contract is a theorem about every lawful
// record, for every kind of addresses and of rests.
ghost use Rattle.model.specs.Theorems.{OneRoute, OneDomain, OneDecision, OneRefusal, CutShort, OneRightMore, BreaksThereOnly};

use kinds::Kind;

/// Every address is of exactly one domain.
pub fn addresses_have_one_domain<A: Kind, R: Kind>()
    ensures { OneDomain A.Kind.holds R.Kind.holds }
{}

/// A complete list decides every packet of the whole, at exactly one position.
pub fn complete_lists_decide_once<A: Kind, R: Kind>()
    ensures { OneDecision A.Kind.holds R.Kind.holds }
{}

/// A lawful record stays lawful when it is cut short.
pub fn lawful_records_can_be_cut_short<A: Kind, R: Kind>()
    ensures { CutShort A.Kind.holds R.Kind.holds }
{}

/// Any two domains have exactly one route, and the way back is it in reverse.
pub fn routes_are_unique<A: Kind, R: Kind>()
    ensures { OneRoute A.Kind.holds R.Kind.holds }
{}

/// Two refusals of one call with one number agree in all that is not free.
pub fn refusals_agree<A: Kind, R: Kind>()
    ensures { OneRefusal A.Kind.holds R.Kind.holds }
{}

/// A lawful record grows by any entry whose answer is right.
pub fn right_entries_keep_records_lawful<A: Kind, R: Kind>()
    ensures { OneRightMore A.Kind.holds R.Kind.holds }
{}

/// An edit of one firewall's list breaks a property that was kept at that firewall only.
pub fn edits_break_there_only<A: Kind, R: Kind>()
    ensures { BreaksThereOnly A.Kind.holds R.Kind.holds }
{}
