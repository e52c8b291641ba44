// Calls as they are drawn: each part of a kind has two sides, one for the register and one for the judge.
use crate::judge::{PlainCall, Region};
use model::{Call, Header, Property, Rule};

#[derive(Clone, Copy)]
pub struct Both<T, P> {
    pub typed: T,
    pub plain: P,
}

// A region, and the values that it holds.
pub type Known<K> = Both<K, Region>;

// A value, and the set of it alone.
pub type Member<V> = Both<V, u128>;

pub type Drawn<A, R, V, W> = Call<Known<A>, Known<R>, Member<V>, Member<W>>;

// One side of each part of a rule, a property, a call.
macro_rules! rule_side {
    ($rule:expr, $side:ident) => {
        Rule {
            interfaces: $rule.interfaces,
            source: $rule.source.$side,
            destination: $rule.destination.$side,
            rest: $rule.rest.$side,
            decision: $rule.decision,
        }
    };
}

macro_rules! property_side {
    ($property:expr, $side:ident) => {
        Property {
            sort: $property.sort,
            from: $property.from,
            to: $property.to,
            source: $property.source.$side,
            destination: $property.destination.$side,
            rest: $property.rest.$side,
        }
    };
}

macro_rules! call_side {
    ($call:expr, $side:ident) => {
        match $call {
            Call::Attach { domain, upper, lower, decision } => {
                Call::Attach { domain, upper, lower, decision }
            }
            Call::Branch { firewall, interface } => Call::Branch { firewall, interface },
            Call::Give { domain, region } => Call::Give { domain, region: region.$side },
            Call::Take { block } => Call::Take { block },
            Call::Place { firewall, position, rule } => {
                Call::Place { firewall, position, rule: rule_side!(rule, $side) }
            }
            Call::Alter { firewall, position, rule } => {
                Call::Alter { firewall, position, rule: rule_side!(rule, $side) }
            }
            Call::Lift { firewall, position } => Call::Lift { firewall, position },
            Call::Stand { property } => Call::Stand { property: property_side!(property, $side) },
            Call::Withdraw { property } => Call::Withdraw { property },
            Call::Ask { property } => Call::Ask { property: property_side!(property, $side) },
            Call::Send { header } => Call::Send {
                header: Header {
                    source: header.source.$side,
                    destination: header.destination.$side,
                    rest: header.rest.$side,
                },
            },
        }
    };
}

// The call as the register takes it.
pub(crate) fn typed<A: Copy, R: Copy, V: Copy, W: Copy>(
    call: Drawn<A, R, V, W>,
) -> Call<A, R, V, W> {
    call_side!(call, typed)
}

// The call as the judge takes it.
pub(crate) fn plain<A: Copy, R: Copy, V: Copy, W: Copy>(call: Drawn<A, R, V, W>) -> PlainCall {
    call_side!(call, plain)
}
