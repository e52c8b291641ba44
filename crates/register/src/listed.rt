// The listing of the register's tree.
ghost use Rattle.std.specs.Prelude.{◌≡◌, List};
ghost use Rattle.std.specs.List.{slice_get};
ghost use Rattle.model.specs.Record.{plain};
ghost use Rattle.model.specs.declared.answers.Recorded.{Recorded};
ghost use Rattle.rebuild.specs.Listing.{listing};
ghost use Rattle.state.specs.Memory.{tables_of};
ghost use Rattle.register.specs.Promise.{Tells};

use crate::register::Register;
use kinds::Kind;
use model::Call;
use state::Memory;

impl<A: Kind, R: Kind> Register<A, R> {
    /// The call of a line of the listing, counted from 0: made one after another from domain 0 alone,
    /// they build the tree again. Nothing past its end.
    pub fn listed(
        &self,
        memory: &Memory<'_, A::Row, R::Row>,
        number: usize,
    ) -> Option<Call<A, R, A::Value, R::Value>>
        ensures { (a : A) (r : R) (es : List (Recorded A R A.Value R.Value)) → Tells A.Kind R.Kind a r es self.now (tables_of memory.now) → result ≡ slice_get (listing (plain a r es)) number }
    {
        listing::listed(&self.state, memory, number)
    }
}
