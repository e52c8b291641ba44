// The eleven calls. Each promises, for every record that register and tables tell so far, that they tell
// it with this call and its answer added, and that it is lawful.
ghost use Rattle.model.specs.declared.calls.Call.TheVariants.{Attach, Branch, Give, Take, Place, Alter, Lift, Stand, Withdraw, Ask, Send};
ghost use Rattle.state.specs.Memory.{SameMemory, lent_by, tables_of};
ghost use Rattle.register.specs.Promise.{Promise};

use crate::answers::{answer, asked, sent};
use crate::register::Register;
use kinds::Kind;
use model::{Answer, Decision, Header, Property, Rule};
use state::Memory;

impl<A: Kind, R: Kind> Register<A, R> {
    /// Hangs the next firewall below a domain, with one rule for every packet of the whole, and the next
    /// domain below that; the numbers of both.
    pub fn attach(
        &mut self,
        memory: &mut Memory<'_, A::Row, R::Row>,
        domain: usize,
        upper: u32,
        lower: u32,
        decision: Decision,
    ) -> Answer<A::Value, R::Value>
        ensures promise { Promise A.Kind R.Kind self.old (tables_of memory.old) (Attach domain upper lower decision) (lent_by memory.old) result self.new (tables_of memory.new) }
        ensures same { SameMemory memory.old memory.new }
    {
        answer(
            growth::attach(&mut self.state, memory, domain, upper, lower, decision),
            |(firewall, domain)| Answer::Attached { firewall, domain },
        )
    }

    /// Hangs the next domain below a firewall; its number.
    pub fn branch(
        &mut self,
        memory: &Memory<'_, A::Row, R::Row>,
        firewall: usize,
        interface: u32,
    ) -> Answer<A::Value, R::Value>
        ensures { Promise A.Kind R.Kind self.old (tables_of memory.now) (Branch firewall interface) (lent_by memory.now) result self.new (tables_of memory.now) }
    {
        answer(
            growth::branch(&mut self.state, memory, firewall, interface),
            |domain| Answer::Branched { domain },
        )
    }

    /// Gives a block of addresses to a domain.
    pub fn give(
        &mut self,
        memory: &mut Memory<'_, A::Row, R::Row>,
        domain: usize,
        region: A,
    ) -> Answer<A::Value, R::Value>
        ensures promise { Promise A.Kind R.Kind self.old (tables_of memory.old) (Give domain region) (lent_by memory.old) result self.new (tables_of memory.new) }
        ensures same { SameMemory memory.old memory.new }
    {
        answer(
            growth::give(&mut self.state, memory, domain, region),
            |()| Answer::Done,
        )
    }

    /// Takes a block back.
    pub fn take(
        &mut self,
        memory: &mut Memory<'_, A::Row, R::Row>,
        block: usize,
    ) -> Answer<A::Value, R::Value>
        ensures promise { Promise A.Kind R.Kind self.old (tables_of memory.old) (Take block) (lent_by memory.old) result self.new (tables_of memory.new) }
        ensures same { SameMemory memory.old memory.new }
    {
        answer(
            growth::take(&mut self.state, memory, block),
            |()| Answer::Done,
        )
    }

    /// Inserts a rule into a firewall's list.
    pub fn place(
        &mut self,
        memory: &mut Memory<'_, A::Row, R::Row>,
        firewall: usize,
        position: usize,
        rule: Rule<A, R>,
    ) -> Answer<A::Value, R::Value>
        ensures promise { Promise A.Kind R.Kind self.old (tables_of memory.old) (Place firewall position rule) (lent_by memory.old) result self.new (tables_of memory.new) }
        ensures same { SameMemory memory.old memory.new }
    {
        answer(
            edits::place(&mut self.state, memory, firewall, position, rule),
            |()| Answer::Done,
        )
    }

    /// Replaces a rule of a firewall's list.
    pub fn alter(
        &self,
        memory: &mut Memory<'_, A::Row, R::Row>,
        firewall: usize,
        position: usize,
        rule: Rule<A, R>,
    ) -> Answer<A::Value, R::Value>
        ensures promise { Promise A.Kind R.Kind self.now (tables_of memory.old) (Alter firewall position rule) (lent_by memory.old) result self.now (tables_of memory.new) }
        ensures same { SameMemory memory.old memory.new }
    {
        answer(
            edits::alter(&self.state, memory, firewall, position, rule),
            |()| Answer::Done,
        )
    }

    /// Removes a rule from a firewall's list.
    pub fn lift(
        &mut self,
        memory: &mut Memory<'_, A::Row, R::Row>,
        firewall: usize,
        position: usize,
    ) -> Answer<A::Value, R::Value>
        ensures promise { Promise A.Kind R.Kind self.old (tables_of memory.old) (Lift firewall position) (lent_by memory.old) result self.new (tables_of memory.new) }
        ensures same { SameMemory memory.old memory.new }
    {
        answer(
            edits::lift(&mut self.state, memory, firewall, position),
            |()| Answer::Done,
        )
    }

    /// Declares a property standing.
    pub fn stand(
        &mut self,
        memory: &mut Memory<'_, A::Row, R::Row>,
        property: Property<A, R>,
    ) -> Answer<A::Value, R::Value>
        ensures promise { Promise A.Kind R.Kind self.old (tables_of memory.old) (Stand property) (lent_by memory.old) result self.new (tables_of memory.new) }
        ensures same { SameMemory memory.old memory.new }
    {
        answer(
            offers::stand(&mut self.state, memory, property),
            |()| Answer::Done,
        )
    }

    /// Takes a standing property away.
    pub fn withdraw(
        &mut self,
        memory: &mut Memory<'_, A::Row, R::Row>,
        property: usize,
    ) -> Answer<A::Value, R::Value>
        ensures promise { Promise A.Kind R.Kind self.old (tables_of memory.old) (Withdraw property) (lent_by memory.old) result self.new (tables_of memory.new) }
        ensures same { SameMemory memory.old memory.new }
    {
        answer(
            offers::withdraw(&mut self.state, memory, property),
            |()| Answer::Done,
        )
    }

    /// Whether a property is kept, or where and by which packet it is broken.
    pub fn ask(
        &self,
        memory: &mut Memory<'_, A::Row, R::Row>,
        property: Property<A, R>,
    ) -> Answer<A::Value, R::Value>
        ensures promise { Promise A.Kind R.Kind self.now (tables_of memory.old) (Ask property) (lent_by memory.old) result self.now (tables_of memory.new) }
        ensures same { SameMemory memory.old memory.new }
    {
        answer(offers::ask(&self.state, memory, property), asked)
    }

    /// What becomes of a packet on its way.
    pub fn send(
        &self,
        memory: &Memory<'_, A::Row, R::Row>,
        header: Header<A::Value, R::Value>,
    ) -> Answer<A::Value, R::Value>
        ensures { Promise A.Kind R.Kind self.now (tables_of memory.now) (Send header) (lent_by memory.now) result self.now (tables_of memory.now) }
    {
        // The name alone gets no proof, since nothing that `sent` takes names the kinds.
        answer(
            offers::send(&self.state, memory, header),
            |passage| sent(passage),
        )
    }
}
