// The letter of a line and the values of its fields.
ghost use Rattle.std.specs.Prelude.{◌≡◌, ◌+◌, ◌≤◌, [], ◌∷◌, ◌++◌, length};
ghost use Rattle.std.specs.List.{AllByRecursion};
ghost use Rattle.tables.specs.FixedVec.{used};
ghost use Rattle.grammar.specs.Lines.{letter, verb_of, values_of, call_values, region_values, rule_values, property_values, header_values};
ghost use Rattle.grammar.specs.Sayable.{InType};

use crate::limits::MAX_FIELDS;
use crate::line::{Line, LongCall, LongRestValue};
use crate::value::Value;
use forms::{LongRest, Prefix};
use model::{Call, Decision, Header, Property, Rule};
use tables::FixedVec;

/// The values of a line's fields, in order.
pub type Values = FixedVec<Value, MAX_FIELDS>;

// Puts values behind the others.
fn add(list: &mut Values, values: &[Value])
    requires { length (used list.old) + length values.now ≤ MAX_FIELDS }
    ensures { used list.new ≡ used list.old ++ values.now }
{
    for value in values {
        let _pushed = list.push(*value);
    }
}

fn listed(values: &[Value]) -> Values
    requires { length values.now ≤ MAX_FIELDS }
    ensures { used result ≡ values.now }
{
    let mut list = FixedVec::new(Value::Number(0));
    add(&mut list, values);
    list
}

fn two_numbers(first: usize, second: usize) -> Values
    ensures { used result ≡ Value.Number first ∷ Value.Number second ∷ [] }
{
    listed(&[Value::Number(first), Value::Number(second)])
}

fn add_region(list: &mut Values, source: Prefix, destination: Prefix, rest: LongRest)
    requires { length (used list.old) + 5 ≤ MAX_FIELDS }
    ensures after { used list.new ≡ used list.old ++ region_values source destination rest }
    ensures types { AllByRecursion InType (region_values source destination rest) }
{
    add(
        list,
        &[
            Value::Prefix(source),
            Value::Prefix(destination),
            Value::Range(rest.left),
            Value::Range(rest.right.left),
            Value::Range(rest.right.right),
        ],
    );
}

fn rule_values(firewall: usize, position: usize, rule: &Rule<Prefix, LongRest>) -> Values
    ensures values { used result ≡ rule_values firewall position rule.now }
    ensures types { AllByRecursion InType (rule_values firewall position rule.now) }
{
    let mut list = listed(&[
        Value::Number(firewall),
        Value::Number(position),
        Value::Decision(rule.decision),
        Value::Set(rule.interfaces),
    ]);
    add_region(&mut list, rule.source, rule.destination, rule.rest);
    list
}

fn property_values(property: &Property<Prefix, LongRest>) -> Values
    ensures values { used result ≡ property_values property.now }
    ensures types { AllByRecursion InType (property_values property.now) }
{
    let mut list = listed(&[
        Value::Decision(property.sort),
        Value::Number(property.from),
        Value::Number(property.to),
    ]);
    add_region(
        &mut list,
        property.source,
        property.destination,
        property.rest,
    );
    list
}

fn header_values(header: &Header<u32, LongRestValue>) -> Values
    ensures values { used result ≡ header_values header.now }
    ensures types { AllByRecursion InType (header_values header.now) }
{
    let rest = header.rest;
    listed(&[
        Value::Address(header.source),
        Value::Address(header.destination),
        Value::Number(rest.left as usize),
        Value::Number(rest.right.left as usize),
        Value::Number(rest.right.right as usize),
    ])
}

fn attach_values(domain: usize, upper: u32, lower: u32, decision: Decision) -> Values
    ensures { used result ≡ Value.Number domain ∷ Value.Number upper ∷ Value.Number lower ∷ Value.Decision decision ∷ [] }
{
    listed(&[
        Value::Number(domain),
        Value::Number(upper as usize),
        Value::Number(lower as usize),
        Value::Decision(decision),
    ])
}

fn call_values(call: &LongCall) -> Values
    ensures values { used result ≡ call_values call.now }
    ensures types { AllByRecursion InType (call_values call.now) }
{
    match call {
        Call::Attach {
            domain,
            upper,
            lower,
            decision,
        } => attach_values(*domain, *upper, *lower, *decision),
        Call::Branch {
            firewall,
            interface,
        } => two_numbers(*firewall, *interface as usize),
        Call::Give { domain, region } => {
            listed(&[Value::Number(*domain), Value::Prefix(*region)])
        }
        Call::Take { block: number } | Call::Withdraw { property: number } => {
            listed(&[Value::Number(*number)])
        }
        Call::Place {
            firewall,
            position,
            rule,
        }
        | Call::Alter {
            firewall,
            position,
            rule,
        } => rule_values(*firewall, *position, rule),
        Call::Lift { firewall, position } => two_numbers(*firewall, *position),
        Call::Stand { property } | Call::Ask { property } => property_values(property),
        Call::Send { header } => header_values(header),
    }
}

impl Line {
    /// The values of the fields behind the letter.
    pub fn values(&self) -> Values
        ensures values { used result ≡ values_of self.now }
        ensures types { AllByRecursion InType (values_of self.now) }
    {
        match self {
            Line::Heading => listed(&[Value::Number(1)]),
            Line::Call(call) => call_values(call),
            Line::List { number } => listed(&[Value::Number(*number)]),
        }
    }

    /// The letter that the line begins with.
    pub fn letter(&self) -> u8
        ensures { result ≡ letter (verb_of self.now) }
    {
        match self {
            Line::Heading => b'T',
            Line::Call(Call::Attach { .. }) => b'A',
            Line::Call(Call::Branch { .. }) => b'B',
            Line::Call(Call::Give { .. }) => b'G',
            Line::Call(Call::Take { .. }) => b'K',
            Line::Call(Call::Place { .. }) => b'P',
            Line::Call(Call::Alter { .. }) => b'C',
            Line::Call(Call::Lift { .. }) => b'L',
            Line::Call(Call::Stand { .. }) => b'S',
            Line::Call(Call::Withdraw { .. }) => b'W',
            Line::Call(Call::Ask { .. }) => b'Q',
            Line::Call(Call::Send { .. }) => b'X',
            Line::List { .. } => b'M',
        }
    }
}
