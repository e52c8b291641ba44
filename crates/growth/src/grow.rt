// How the tree grows.
ghost use Rattle.std.specs.Prelude.{◌≡◌, suc, ◌+◌, ◌<◌, ◌≤◌, ◌⊎◌, length};
ghost use Rattle.model.specs.Limits.{max_domains, max_interfaces, max_rules};
ghost use Rattle.model.specs.Tree.{all_interfaces};
ghost use Rattle.model.specs.declared.answers.Answer.TheVariants.{Branched};
ghost use Rattle.model.specs.declared.answers.Refusal.TheVariants.{BadInterface, Full};
ghost use Rattle.model.specs.declared.calls.Call.TheVariants.{Attach, Branch};
ghost use Rattle.tree.specs.Table.{shape_of};
ghost use Rattle.state.specs.Memory.{SameMemory, lent_by, tables_of};
ghost use Rattle.state.specs.Order.{Refuses};
ghost use Rattle.state.specs.Picture.{Tried};
ghost use Rattle.state.specs.Rows.{catch_all, rule_count};
ghost use Rattle.growth.specs.Attached.{attached_as};

use checks::rule_row;
use kinds::{Kind, Set};
use model::{Decision, MAX_DOMAINS, MAX_INTERFACES, MAX_RULES, Refusal, Rule};
use state::{Memory, State};
use tables::replace_row;

// 3: two interfaces for a new firewall.
fn check_interfaces<V, W>(upper: u32, lower: u32) -> Result<(), Refusal<V, W>>
    ensures { Refuses result BadInterface ((max_interfaces ≤ upper) ⊎ ((max_interfaces ≤ lower) ⊎ (upper ≡ lower))) }
{
    if upper >= MAX_INTERFACES || lower >= MAX_INTERFACES || upper == lower {
        return Err(Refusal::BadInterface);
    }
    Ok(())
}

// 4: there is room for a domain and for a rule more.
fn check_attach_room<A, R, V, W>(state: &State<A, R>) -> Result<(), Refusal<V, W>>
    ensures { Refuses result Full ((max_domains < suc (length (shape_of state.now.tree).domains) + 1) ⊎ (max_rules < rule_count state.now + 1)) }
{
    if state.tree.domain_count() >= MAX_DOMAINS || state.lists.total() >= MAX_RULES {
        return Err(Refusal::Full);
    }
    Ok(())
}

// All of 0 to 31. Of `Set::up_to(31)` it is known what it holds, but not that it is this mask.
#[tactic(auto, using(crate::proofs::Attaching::reads_all))]
fn every_interface() -> Set
    ensures { result ≡ all_interfaces }
{
    Set::new(u32::MAX).unwrap()
}

// The one rule of a new list: every packet of the whole, on every interface.
fn catch_all<A: Kind, R: Kind>(state: &State<A, R>, decision: Decision) -> Rule<A, R>
    ensures { result ≡ catch_all state.now decision }
{
    Rule {
        interfaces: every_interface(),
        source: state.addresses,
        destination: state.addresses,
        rest: state.rests,
        decision,
    }
}

/// Hangs the next firewall below a domain, with one rule for everything, and the next domain
/// below that; the numbers of the two.
pub fn attach<A: Kind, R: Kind>(
    state: &mut State<A, R>,
    memory: &mut Memory<'_, A::Row, R::Row>,
    domain: usize,
    upper: u32,
    lower: u32,
    decision: Decision,
) -> Result<(usize, usize), Refusal<A::Value, R::Value>>
    ensures does { Tried A.Kind R.Kind state.old (tables_of memory.old) (Attach domain upper lower decision) (lent_by memory.old) attached_as result state.new (tables_of memory.new) }
    ensures same { SameMemory memory.old memory.new }
{
    memory.check_lengths()?;
    state.check_domain(domain)?;
    check_interfaces(upper, lower)?;
    check_attach_room(state)?;
    let row = rule_row(catch_all(state, decision));
    let total = state.lists.total();
    let made = state.tree.attach(domain, upper, lower)?;
    replace_row(memory.rules, total + 1, total, row).unwrap();
    // No `unwrap`: where the state stands as no record, nothing ties its lists to its tree.
    let _ = state.lists.add();
    Ok(made)
}

/// Hangs the next domain below a firewall.
pub fn branch<A: Kind, R: Kind>(
    state: &mut State<A, R>,
    memory: &Memory<'_, A::Row, R::Row>,
    firewall: usize,
    interface: u32,
) -> Result<usize, Refusal<A::Value, R::Value>>
    ensures { Tried A.Kind R.Kind state.old (tables_of memory.now) (Branch firewall interface) (lent_by memory.now) Branched result state.new (tables_of memory.now) }
{
    memory.check_lengths()?;
    Ok(state.tree.branch(firewall, interface)?)
}
