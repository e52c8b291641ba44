// Any call, by its value.
ghost use Rattle.state.specs.Memory.{SameMemory, lent_by, tables_of};
ghost use Rattle.register.specs.Promise.{Promise};

use crate::register::Register;
use kinds::Kind;
use model::{Answer, Call};
use state::Memory;

impl<A: Kind, R: Kind> Register<A, R> {
    /// Makes the call, and answers what it answers.
    pub fn apply(
        &mut self,
        memory: &mut Memory<'_, A::Row, R::Row>,
        call: Call<A, R, A::Value, R::Value>,
    ) -> Answer<A::Value, R::Value>
        ensures promise { Promise A.Kind R.Kind self.old (tables_of memory.old) call (lent_by memory.old) result self.new (tables_of memory.new) }
        ensures same { SameMemory memory.old memory.new }
    {
        match call {
            Call::Attach {
                domain,
                upper,
                lower,
                decision,
            } => self.attach(memory, domain, upper, lower, decision),
            Call::Branch {
                firewall,
                interface,
            } => self.branch(memory, firewall, interface),
            Call::Give { domain, region } => self.give(memory, domain, region),
            Call::Take { block } => self.take(memory, block),
            Call::Place {
                firewall,
                position,
                rule,
            } => self.place(memory, firewall, position, rule),
            Call::Alter {
                firewall,
                position,
                rule,
            } => self.alter(memory, firewall, position, rule),
            Call::Lift { firewall, position } => self.lift(memory, firewall, position),
            Call::Stand { property } => self.stand(memory, property),
            Call::Withdraw { property } => self.withdraw(memory, property),
            Call::Ask { property } => self.ask(memory, property),
            Call::Send { header } => self.send(memory, header),
        }
    }
}
