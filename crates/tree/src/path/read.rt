// The hops of a route.
ghost use Rattle.std.specs.Prelude.{◌≡◌};
ghost use Rattle.tree.specs.Path.{hops_of};

use super::Route;
use model::Hop;

impl Route {
    /// The hops, from the first to the last.
    pub fn hops(&self) -> &[Hop]
        ensures { result.now ≡ hops_of self.now }
    {
        self.hops.as_slice()
    }
}
