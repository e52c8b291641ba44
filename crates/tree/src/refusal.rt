// Why the tree does not grow.
ghost use Rattle.std.specs.Prelude.{◌≡◌};
ghost use Rattle.tree.specs.Refusals.{refusal_of};

use model::Refusal;
use thiserror::Error;

/// Why the tree does not grow: the first that applies.
#[derive(Clone, Copy, Debug, PartialEq, Eq, Error)]
pub enum TreeRefusal {
    /// There is no such domain or firewall.
    #[error("no such domain or firewall")]
    NoSuch,
    /// A number too high for an interface, or one that the firewall uses already, or the same one twice.
    #[error("interface above 31, in use already, or named twice")]
    BadInterface,
    /// There are 64 domains.
    #[error("64 domains already")]
    Full,
}

// The refusal of a call that stands for one of the tree.
impl<V, W> From<TreeRefusal> for Refusal<V, W> {
    ghost from_gives = { λ refusal answer. answer ≡ refusal_of refusal };

    fn from(refusal: TreeRefusal) -> Refusal<V, W> {
        match refusal {
            TreeRefusal::NoSuch => Refusal::NoSuch,
            TreeRefusal::BadInterface => Refusal::BadInterface,
            TreeRefusal::Full => Refusal::Full,
        }
    }
}
