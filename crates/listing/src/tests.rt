// A tree with each part, and its listing worked out by hand.
use super::*;
use checks::{block_row, property_row, rule_row};
use kinds::Set;
use lists::ListTable;
use model::{Call, Decision, Property, Rule};
use state::{Memory, State};
use std::test::Fail;
use tree::TreeTable;

// Firewall 0 below domain 0, with domains 1 and 2; firewall 1 below domain 1, with domain 3.
fn tree_of_two() -> Result<TreeTable, Fail> {
    let mut tree = TreeTable::new();
    tree.attach(0, 0, 1).ok().ok_or("no firewall")?;
    tree.branch(0, 2).ok().ok_or("no branch")?;
    tree.attach(1, 3, 4).ok().ok_or("no firewall")?;
    Ok(tree)
}

// Two rules for firewall 0, one for firewall 1.
fn lists_of_three() -> Result<ListTable, Fail> {
    let mut lists = ListTable::new();
    lists.add().ok().ok_or("no list")?;
    lists.grow(0).ok().ok_or("no rule")?;
    lists.add().ok().ok_or("no list")?;
    Ok(lists)
}

// The rule for these sources.
fn rule(source: Set, decision: Decision) -> Rule<Set, Set> {
    let all = Set::up_to(31);
    Rule {
        interfaces: all,
        source,
        destination: all,
        rest: all,
        decision,
    }
}

// The call of a line of the listing of this tree, with its rules, a block and a property.
fn line(number: usize) -> Result<Option<Call<Set, Set, u8, u8>>, Fail> {
    let all = Set::up_to(31);
    let tens = Set::up_to(9);
    let property = Property {
        sort: Decision::Accept,
        from: 1,
        to: 3,
        source: tens,
        destination: all,
        rest: all,
    };
    let state = State {
        addresses: all,
        rests: all,
        tree: tree_of_two()?,
        lists: lists_of_three()?,
        block_count: 1,
        property_count: 1,
    };
    let memory = Memory {
        rules: &mut [
            rule_row(rule(tens, Decision::Accept)),
            rule_row(rule(all, Decision::Discard)),
            rule_row(rule(all, Decision::Accept)),
            rule_row(rule(tens, Decision::Discard)),
        ],
        blocks: &mut [block_row(tens, 1), block_row(all, 2)],
        properties: &mut [property_row(property)],
        packet_frames: &mut [],
        address_frames: &mut [],
    };
    Ok(listed(&state, &memory, number))
}

#[test]
fn firewalls_and_domains(rt: HostRuntime) -> Result<(), Fail> {
    assert!(rt;
        matches!(
            line(0)?,
            Some(Call::Attach {
                domain: 0,
                upper: 0,
                lower: 1,
                decision: Decision::Discard
            })
        )
    );
    assert!(rt;
        matches!(
            line(1)?,
            Some(Call::Branch {
                firewall: 0,
                interface: 2
            })
        )
    );
    assert!(rt;
        matches!(
            line(2)?,
            Some(Call::Attach {
                domain: 1,
                upper: 3,
                lower: 4,
                decision: Decision::Discard
            })
        )
    );
    Ok(())
}

#[test]
fn blocks_rules_and_properties(rt: HostRuntime) -> Result<(), Fail> {
    assert!(rt;
        matches!(line(3)?, Some(Call::Give { domain: 1, region }) if region.mask() == 1023)
    );
    assert!(rt;
        matches!(line(4)?, Some(Call::Place { firewall: 0, position: 0, rule }) if rule.source.mask() == 1023)
    );
    assert!(rt;
        matches!(line(5)?, Some(Call::Alter { firewall: 0, position: 1, rule }) if rule.decision == Decision::Discard)
    );
    assert!(rt;
        matches!(line(6)?, Some(Call::Alter { firewall: 1, position: 0, rule }) if rule.decision == Decision::Accept)
    );
    assert!(rt;
        matches!(line(7)?, Some(Call::Stand { property }) if property.from == 1 && property.to == 3)
    );
    assert!(rt; line(8)?.is_none());
    Ok(())
}
