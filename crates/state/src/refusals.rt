// Checks that several calls share, by the number of the row in the refusal table.
ghost use Rattle.std.specs.Prelude.{◌+◌, ◌<◌, ◌≤◌};
ghost use Rattle.kinds.specs.Words.{Inside};
ghost use Rattle.model.specs.Shape.{Domain};
ghost use Rattle.model.specs.declared.answers.Refusal.TheVariants.{NoSuch, Full, Outside};
ghost use Rattle.tree.specs.Table.{shape_of};
ghost use Rattle.state.specs.Order.{Demands, Refuses, RegionsInside};

use crate::state::State;
use kinds::{Kind, lies_inside};
use model::Refusal;

/// 2: there is something with this number, of those that there are.
pub fn check_number<V, W>(number: usize, count: usize) -> Result<(), Refusal<V, W>>
    ensures { Refuses result NoSuch (count ≤ number) }
{
    if number >= count {
        return Err(Refusal::NoSuch);
    }
    Ok(())
}

/// 4: one more would not be too many.
pub fn check_room<V, W>(count: usize, most: usize) -> Result<(), Refusal<V, W>>
    ensures { Refuses result Full (most < count + 1) }
{
    if count >= most {
        return Err(Refusal::Full);
    }
    Ok(())
}

/// 5: the region lies inside the whole.
pub fn check_inside<K: Kind, V, W>(region: K, whole: K) -> Result<(), Refusal<V, W>>
    ensures { Refuses result Outside (Inside (K.Kind.holds region) (K.Kind.holds whole) → ⊥) }
{
    if lies_inside(region, whole) {
        return Ok(());
    }
    Err(Refusal::Outside)
}

impl<A, R> State<A, R> {
    /// 2: the domain exists.
    pub fn check_domain<V, W>(&self, domain: usize) -> Result<(), Refusal<V, W>>
        ensures { Refuses result NoSuch (Domain (shape_of self.now.tree) domain → ⊥) }
    {
        check_number(domain, self.tree.domain_count())
    }
}

impl<A: Kind, R: Kind> State<A, R> {
    /// 5: the three regions of a rule or of a property lie inside the wholes.
    pub fn check_regions_inside(
        &self,
        source: A,
        destination: A,
        rest: R,
    ) -> Result<(), Refusal<A::Value, R::Value>>
        ensures { Demands result Outside (RegionsInside A.Kind.holds R.Kind.holds self.now.addresses self.now.rests source destination rest) }
    {
        check_inside(source, self.addresses)?;
        check_inside(destination, self.addresses)?;
        check_inside(rest, self.rests)
    }
}
