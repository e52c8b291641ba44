// The lines of verbs and values.
ghost use Rattle.std.specs.Prelude.{◌≡◌, ◌^◌, ◌≤◌, [], ◌∷◌, MatchOption};
ghost use Rattle.grammar.specs.Built.{Makes};
ghost use Rattle.grammar.specs.Sayable.{InForms};
ghost use Rattle.grammar.specs.Lines.{number_form, region_forms, rule_forms, property_forms, forms};
ghost use Rattle.grammar.specs.Lines.{region_values, rule_values, property_values, header_values};
ghost use Rattle.grammar.specs.declared.line.Verb.TheVariants.{Heading, Attach, Branch, Give, Take, Place, Alter, Lift, Stand, Withdraw, Ask, Send, List};
ghost use Rattle.grammar.specs.declared.value.Value.TheVariants as value;

use crate::line::{Line, LongRestValue, Verb};
use crate::value::Value;
use forms::{LongRest, Prefix};
use kinds::Pair;
use model::{Call, Header, Property, Rule};

type LongRule = Rule<Prefix, LongRest>;

type LongProperty = Property<Prefix, LongRest>;

// The source, the destination and the rest of a rule or a property.
fn region(values: &[Value]) -> Option<(Prefix, Prefix, LongRest)>
    ensures { MatchOption result (InForms region_forms values.now → ⊥) (λ r. region_values r.0 r.1 r.2 ≡ values.now) }
{
    match *values {
        [
            Value::Prefix(source),
            Value::Prefix(destination),
            Value::Range(source_port),
            Value::Range(destination_port),
            Value::Range(protocol),
        ] => {
            let rest = Pair {
                left: source_port,
                right: Pair {
                    left: destination_port,
                    right: protocol,
                },
            };
            Some((source, destination, rest))
        }
        _ => None,
    }
}

fn property(values: &[Value]) -> Option<LongProperty>
    ensures { MatchOption result (InForms property_forms values.now → ⊥) (λ p. property_values p ≡ values.now) }
{
    match *values {
        [
            Value::Decision(sort),
            Value::Number(from),
            Value::Number(to),
            ref region_values @ ..,
        ] => {
            let (source, destination, rest) = region(region_values)?;
            Some(Property {
                sort,
                from,
                to,
                source,
                destination,
                rest,
            })
        }
        _ => None,
    }
}

// A rule, behind its firewall and its position.
fn placed_rule(values: &[Value]) -> Option<(usize, usize, LongRule)>
    ensures { MatchOption result (InForms rule_forms values.now → ⊥) (λ r. rule_values r.0 r.1 r.2 ≡ values.now) }
{
    match *values {
        [
            Value::Number(firewall),
            Value::Number(position),
            Value::Decision(decision),
            Value::Set(interfaces),
            ref region_values @ ..,
        ] => {
            let (source, destination, rest) = region(region_values)?;
            let rule = Rule {
                interfaces,
                source,
                destination,
                rest,
                decision,
            };
            Some((firewall, position, rule))
        }
        _ => None,
    }
}

fn narrow(number: usize) -> Option<u32>
    ensures { MatchOption result (2 ^ 32 ≤ number) (λ n. n ≡ number) }
{
    u32::try_from(number).ok()
}

fn header(values: &[Value]) -> Option<Header<u32, LongRestValue>>
    ensures { MatchOption result (InForms (forms Send) values.now → ⊥) (λ h. header_values h ≡ values.now) }
{
    match *values {
        [
            Value::Address(source),
            Value::Address(destination),
            Value::Number(source_port),
            Value::Number(destination_port),
            Value::Number(protocol),
        ] => {
            let rest = Pair {
                left: narrow(source_port)?,
                right: Pair {
                    left: narrow(destination_port)?,
                    right: narrow(protocol)?,
                },
            };
            Some(Header {
                source,
                destination,
                rest,
            })
        }
        _ => None,
    }
}

fn one_number(values: &[Value]) -> Option<usize>
    ensures { MatchOption result (InForms (number_form ∷ []) values.now → ⊥) (λ n. value.Number n ∷ [] ≡ values.now) }
{
    match *values {
        [Value::Number(number)] => Some(number),
        _ => None,
    }
}

fn two_numbers(values: &[Value]) -> Option<(usize, usize)>
    ensures { MatchOption result (InForms (number_form ∷ number_form ∷ []) values.now → ⊥) (λ n. value.Number n.0 ∷ value.Number n.1 ∷ [] ≡ values.now) }
{
    match *values {
        [Value::Number(first), Value::Number(second)] => Some((first, second)),
        _ => None,
    }
}

fn heading(values: &[Value]) -> Option<Line>
    ensures { Makes Heading values.now result }
{
    match *values {
        [Value::Number(1)] => Some(Line::Heading),
        _ => None,
    }
}

fn attach(values: &[Value]) -> Option<Line>
    ensures { Makes Attach values.now result }
{
    match *values {
        [
            Value::Number(domain),
            Value::Number(upper),
            Value::Number(lower),
            Value::Decision(decision),
        ] => Some(Line::Call(Call::Attach {
            domain,
            upper: narrow(upper)?,
            lower: narrow(lower)?,
            decision,
        })),
        _ => None,
    }
}

fn branch(values: &[Value]) -> Option<Line>
    ensures { Makes Branch values.now result }
{
    let (firewall, interface) = two_numbers(values)?;
    Some(Line::Call(Call::Branch {
        firewall,
        interface: narrow(interface)?,
    }))
}

fn give(values: &[Value]) -> Option<Line>
    ensures { Makes Give values.now result }
{
    match *values {
        [Value::Number(domain), Value::Prefix(region)] => {
            Some(Line::Call(Call::Give { domain, region }))
        }
        _ => None,
    }
}

fn take(values: &[Value]) -> Option<Line>
    ensures { Makes Take values.now result }
{
    let block = one_number(values)?;
    Some(Line::Call(Call::Take { block }))
}

fn place(values: &[Value]) -> Option<Line>
    ensures { Makes Place values.now result }
{
    let (firewall, position, rule) = placed_rule(values)?;
    Some(Line::Call(Call::Place {
        firewall,
        position,
        rule,
    }))
}

fn alter(values: &[Value]) -> Option<Line>
    ensures { Makes Alter values.now result }
{
    let (firewall, position, rule) = placed_rule(values)?;
    Some(Line::Call(Call::Alter {
        firewall,
        position,
        rule,
    }))
}

fn lift(values: &[Value]) -> Option<Line>
    ensures { Makes Lift values.now result }
{
    let (firewall, position) = two_numbers(values)?;
    Some(Line::Call(Call::Lift { firewall, position }))
}

fn stand(values: &[Value]) -> Option<Line>
    ensures { Makes Stand values.now result }
{
    Some(Line::Call(Call::Stand {
        property: property(values)?,
    }))
}

fn withdraw(values: &[Value]) -> Option<Line>
    ensures { Makes Withdraw values.now result }
{
    let property = one_number(values)?;
    Some(Line::Call(Call::Withdraw { property }))
}

fn ask(values: &[Value]) -> Option<Line>
    ensures { Makes Ask values.now result }
{
    Some(Line::Call(Call::Ask {
        property: property(values)?,
    }))
}

fn send(values: &[Value]) -> Option<Line>
    ensures { Makes Send values.now result }
{
    Some(Line::Call(Call::Send {
        header: header(values)?,
    }))
}

fn list(values: &[Value]) -> Option<Line>
    ensures { Makes List values.now result }
{
    let number = one_number(values)?;
    Some(Line::List { number })
}

impl Verb {
    // The line of this verb with these values.
    pub(crate) fn line(self, values: &[Value]) -> Option<Line>
        ensures { Makes self values.now result }
    {
        match self {
            Verb::Heading => heading(values),
            Verb::Attach => attach(values),
            Verb::Branch => branch(values),
            Verb::Give => give(values),
            Verb::Take => take(values),
            Verb::Place => place(values),
            Verb::Alter => alter(values),
            Verb::Lift => lift(values),
            Verb::Stand => stand(values),
            Verb::Withdraw => withdraw(values),
            Verb::Ask => ask(values),
            Verb::Send => send(values),
            Verb::List => list(values),
        }
    }
}
