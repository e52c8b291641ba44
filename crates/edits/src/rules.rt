// Edits of one firewall's list of rules. Each is written, judged, and undone where it is refused, so that
// refusal is not passed up by `?`.
ghost use Rattle.std.specs.Prelude.{◌≡◌, ℕ, suc, ◌+◌, ◌-◌, ◌<◌, ◌≤◌, ◌⊎◌, List, map, length, sum};
ghost use Rattle.model.specs.Limits.{max_list, max_properties, max_rules};
ghost use Rattle.model.specs.Shape.{Firewall};
ghost use Rattle.model.specs.Tree.{Tree};
ghost use Rattle.model.specs.declared.answers.Answer.TheVariants.{Done};
ghost use Rattle.model.specs.declared.answers.Refusal.TheVariants.{NoSuch, Full};
ghost use Rattle.model.specs.declared.calls.Call.TheVariants.{Place, Alter, Lift};
ghost use Rattle.model.specs.declared.rules.Rule.{Rule as RuleOf};
ghost use Rattle.tree.specs.Table.{shape_of};
ghost use Rattle.lists.specs.Lengths.{lengths_of, length_at};
ghost use Rattle.checks.specs.Rows.{RulesAre};
ghost use Rattle.state.specs.Memory.{SameMemory, lent_by, tables_of};
ghost use Rattle.state.specs.Order.{Refuses};
ghost use Rattle.state.specs.Picture.{Tried};
ghost use Rattle.edits.specs.Edits.{Opened, There, Room, Stands, CompleteJudged, KeptJudged, EditJudged, list_length};

use checks::{PacketRow, PropertyRow, RuleRow, find_unmatched, rule_row};
use kinds::Kind;
use lists::ListTable;
use model::{MAX_LIST, MAX_RULES, Refusal, Rule};
use search::Frame;
use state::{Memory, State};
use tables::{insert_row, remove_row, replace_row, rows_from, used_rows};
use tree::TreeTable;
use verdicts::first_broken;

// 2: the firewall is there, and the position is one of the first `size`.
fn check_there<V, W>(
    tree: &TreeTable,
    firewall: usize,
    size: usize,
    position: usize,
) -> Result<(), Refusal<V, W>>
    ensures { Refuses result NoSuch ((Firewall (shape_of tree.now) firewall → ⊥) ⊎ (size ≤ position)) }
{
    if firewall >= tree.firewall_count() || position >= size {
        return Err(Refusal::NoSuch);
    }
    Ok(())
}

// 4: there is room for one more rule in the list of the firewall.
fn check_list_room<V, W>(lists: &ListTable, firewall: usize) -> Result<(), Refusal<V, W>>
    ensures { Refuses result Full ((max_list ≤ length_at (lengths_of lists.now) firewall) ⊎ (max_rules ≤ sum (lengths_of lists.now))) }
{
    if lists.length(firewall) >= MAX_LIST || lists.total() >= MAX_RULES {
        return Err(Refusal::Full);
    }
    Ok(())
}

// 10: every packet of the whole is matched in the list.
fn check_complete<A: Kind, R: Kind>(
    list: &[RuleRow<A::Row, R::Row>],
    addresses: A,
    rests: R,
    frames: &mut [Frame<PacketRow<A::Row, R::Row>>],
) -> Result<(), Refusal<A::Value, R::Value>>
    requires { length list.now < length frames.old }
    ensures { (t : Tree A R) (rs : List (RuleOf A R)) → t.addresses ≡ addresses → t.rests ≡ rests → RulesAre A.Kind R.Kind list.now rs → CompleteJudged A.Kind.holds R.Kind.holds t rs result }
{
    match find_unmatched(list, addresses, rests, frames) {
        Some(packet) => Err(Refusal::Unmatched { packet }),
        None => Ok(()),
    }
}

// 12: no standing property is broken once the firewall has the list.
fn check_kept<A: Kind, R: Kind>(
    state: &State<A, R>,
    list: &[RuleRow<A::Row, R::Row>],
    properties: &[PropertyRow<A::Row, R::Row>],
    frames: &mut [Frame<PacketRow<A::Row, R::Row>>],
    firewall: usize,
) -> Result<(), Refusal<A::Value, R::Value>>
    requires { length list.now < length frames.old }
    ensures { (t : Tree A R) (rs : List (RuleOf A R)) → Stands A.Kind R.Kind state.now properties.now firewall t → RulesAre A.Kind R.Kind list.now rs → KeptJudged A.Kind.holds R.Kind.holds t rs firewall result }
{
    let standing = used_rows(properties, state.property_count);
    match first_broken::<A, R>(&state.tree, standing, firewall, list, frames) {
        Some(broken) => Err(Refusal::Breaks {
            property: broken.property,
            firewall,
            packet: broken.packet,
        }),
        None => Ok(()),
    }
}

// 10 and 12: the list is complete, and breaks nothing that stands.
fn check_edited<A: Kind, R: Kind>(
    state: &State<A, R>,
    list: &[RuleRow<A::Row, R::Row>],
    properties: &[PropertyRow<A::Row, R::Row>],
    frames: &mut [Frame<PacketRow<A::Row, R::Row>>],
    firewall: usize,
) -> Result<(), Refusal<A::Value, R::Value>>
    requires { length list.now < length frames.old }
    ensures { (t : Tree A R) (rs : List (RuleOf A R)) → Stands A.Kind R.Kind state.now properties.now firewall t → RulesAre A.Kind R.Kind list.now rs → EditJudged A.Kind.holds R.Kind.holds t rs firewall result }
{
    check_complete(list, state.addresses, state.rests, frames)?;
    check_kept(state, list, properties, frames, firewall)
}

// 1, 2, 4 and 5 of place.
fn check_place<A: Kind, R: Kind>(
    state: &State<A, R>,
    memory: &Memory<'_, A::Row, R::Row>,
    firewall: usize,
    position: usize,
    rule: Rule<A, R>,
) -> Result<(), Refusal<A::Value, R::Value>>
    ensures { Opened A.Kind R.Kind state.now (Place firewall position rule) (lent_by memory.now) 12 (There state.now (lent_by memory.now) firewall (list_length state.now firewall + 1) position × Room state.now firewall) result }
{
    memory.check_lengths()?;
    check_there(
        &state.tree,
        firewall,
        state.lists.length(firewall) + 1,
        position,
    )?;
    check_list_room(&state.lists, firewall)?;
    state.check_regions_inside(rule.source, rule.destination, rule.rest)
}

/// Inserts a rule in the list of a firewall.
pub fn place<A: Kind, R: Kind>(
    state: &mut State<A, R>,
    memory: &mut Memory<'_, A::Row, R::Row>,
    firewall: usize,
    position: usize,
    rule: Rule<A, R>,
) -> Result<(), Refusal<A::Value, R::Value>>
    ensures does { Tried A.Kind R.Kind state.old (tables_of memory.old) (Place firewall position rule) (lent_by memory.old) (λ _. Done) result state.new (tables_of memory.new) }
    ensures same { SameMemory memory.old memory.new }
{
    check_place(state, memory, firewall, position, rule)?;
    let used = state.lists.total();
    let start = state.lists.start(firewall);
    let size = state.lists.length(firewall) + 1;
    let at = start + position;
    let rules = &mut *memory.rules;
    let properties = &mut *memory.properties;
    let frames = &mut *memory.packet_frames;
    let behind = insert_row(rules, used, at, rule_row(rule)).unwrap();
    match check_kept(
        state,
        rows_from(rules, start, size),
        properties,
        frames,
        firewall,
    ) {
        Ok(()) => {
            // No `unwrap`: where the state stands as no record, nothing ties its lists to its tree.
            let _ = state.lists.grow(firewall);
            Ok(())
        }
        Err(refusal) => {
            // It was just put in; that `unwrap` may be called was tried, and not proved.
            let _ = remove_row(rules, used + 1, at);
            replace_row(rules, used + 1, used, behind).unwrap();
            Err(refusal)
        }
    }
}

// 1, 2 and 5 of alter.
fn check_alter<A: Kind, R: Kind>(
    state: &State<A, R>,
    memory: &Memory<'_, A::Row, R::Row>,
    firewall: usize,
    position: usize,
    rule: Rule<A, R>,
) -> Result<(), Refusal<A::Value, R::Value>>
    ensures { Opened A.Kind R.Kind state.now (Alter firewall position rule) (lent_by memory.now) 10 (There state.now (lent_by memory.now) firewall (list_length state.now firewall) position) result }
{
    memory.check_lengths()?;
    check_there(
        &state.tree,
        firewall,
        state.lists.length(firewall),
        position,
    )?;
    state.check_regions_inside(rule.source, rule.destination, rule.rest)
}

/// Replaces a rule in the list of a firewall.
pub fn alter<A: Kind, R: Kind>(
    state: &State<A, R>,
    memory: &mut Memory<'_, A::Row, R::Row>,
    firewall: usize,
    position: usize,
    rule: Rule<A, R>,
) -> Result<(), Refusal<A::Value, R::Value>>
    ensures does { Tried A.Kind R.Kind state.now (tables_of memory.old) (Alter firewall position rule) (lent_by memory.old) (λ _. Done) result state.now (tables_of memory.new) }
    ensures same { SameMemory memory.old memory.new }
{
    check_alter(state, memory, firewall, position, rule)?;
    let used = state.lists.total();
    let start = state.lists.start(firewall);
    let size = state.lists.length(firewall);
    let at = start + position;
    let rules = &mut *memory.rules;
    let properties = &mut *memory.properties;
    let frames = &mut *memory.packet_frames;
    let old = replace_row(rules, used, at, rule_row(rule)).unwrap();
    match check_edited(
        state,
        rows_from(rules, start, size),
        properties,
        frames,
        firewall,
    ) {
        Ok(()) => Ok(()),
        Err(refusal) => {
            replace_row(rules, used, at, old).unwrap();
            Err(refusal)
        }
    }
}

// 1 and 2 of lift.
fn check_lift<A: Kind, R: Kind>(
    state: &State<A, R>,
    memory: &Memory<'_, A::Row, R::Row>,
    firewall: usize,
    position: usize,
) -> Result<(), Refusal<A::Value, R::Value>>
    ensures { Opened A.Kind R.Kind state.now (Lift firewall position) (lent_by memory.now) 10 (There state.now (lent_by memory.now) firewall (list_length state.now firewall) position) result }
{
    memory.check_lengths()?;
    check_there(
        &state.tree,
        firewall,
        state.lists.length(firewall),
        position,
    )
}

/// Removes a rule from the list of a firewall.
pub fn lift<A: Kind, R: Kind>(
    state: &mut State<A, R>,
    memory: &mut Memory<'_, A::Row, R::Row>,
    firewall: usize,
    position: usize,
) -> Result<(), Refusal<A::Value, R::Value>>
    ensures does { Tried A.Kind R.Kind state.old (tables_of memory.old) (Lift firewall position) (lent_by memory.old) (λ _. Done) result state.new (tables_of memory.new) }
    ensures same { SameMemory memory.old memory.new }
{
    check_lift(state, memory, firewall, position)?;
    let used = state.lists.total();
    let start = state.lists.start(firewall);
    let size = state.lists.length(firewall) - 1;
    let at = start + position;
    let rules = &mut *memory.rules;
    let properties = &mut *memory.properties;
    let frames = &mut *memory.packet_frames;
    let row = remove_row(rules, used, at).unwrap();
    match check_edited(
        state,
        rows_from(rules, start, size),
        properties,
        frames,
        firewall,
    ) {
        Ok(()) => {
            state.lists.shrink(firewall).unwrap();
            Ok(())
        }
        Err(refusal) => {
            insert_row(rules, used - 1, at, row).unwrap();
            Err(refusal)
        }
    }
}
