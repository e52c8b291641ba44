// What is found by going up from a domain.
ghost use Rattle.std.specs.Prelude.{◌≡◌, ℕ, ◌<◌, ◌≤◌, IfSome, MatchOption, ◌≢◌};
ghost use Rattle.model.specs.Shape.{Domain, Firewall, Hangs, Lies, Depth};
ghost use Rattle.model.specs.Subtree.{Way};
ghost use Rattle.tree.specs.Toward.{BranchOf, ChildOf, SideOf};
ghost use Rattle.tree.specs.Table.{shape_of};

use super::TreeTable;
use model::{Hop, Uplink};

impl TreeTable {
    /// How many firewalls are above a domain; nothing where there is no such domain.
    pub fn depth(&self, domain: usize) -> Option<usize>
        ensures { MatchOption result (Domain (shape_of self.now) domain → ⊥) (λ n. Depth (shape_of self.now) domain n) }
    {
        if domain >= self.domain_count() {
            return None;
        }
        Some(self.depth_of(domain))
    }

    // The depth of a domain that there is.
    fn depth_of(&self, domain: usize) -> usize
        requires { Domain (shape_of self.now) domain }
        ensures within { result ≤ domain }
        ensures depth { Depth (shape_of self.now) domain result }
    {
        if domain == 0 {
            return 0;
        }
        self.depth_of(self.hop_up(domain).reached) + 1
    }

    // The domain right below the firewall that has this domain in its subtree, if there is one.
    pub(crate) fn branch_toward(&self, firewall: usize, domain: usize) -> Option<usize>
        requires { Domain (shape_of self.now) domain }
        ensures { BranchOf (shape_of self.now) firewall domain result }
    {
        if domain == 0 {
            return None;
        }
        let up = self.hop_up(domain);
        if up.firewall == firewall {
            return Some(domain);
        }
        self.branch_toward(firewall, up.reached)
    }

    // The domain below a firewall of `top` that has this domain in its subtree, if there is one.
    fn child_toward(&self, top: usize, domain: usize) -> Option<usize>
        requires { Domain (shape_of self.now) domain }
        ensures { ChildOf (shape_of self.now) top domain result }
    {
        if domain <= top {
            return None;
        }
        let above = self.hop_up(domain).reached;
        if above == top {
            return Some(domain);
        }
        self.child_toward(top, above)
    }

    // The domain that a firewall is joined to on one side, and the interface: this branch, or, where it
    // is none, the domain above.
    pub(crate) fn side(&self, firewall: usize, branch: Option<usize>) -> Uplink
        requires firewall { Firewall (shape_of self.now) firewall }
        requires branch { IfSome branch (λ e. (i : ℕ) × Lies (shape_of self.now) e firewall i) }
        ensures { SideOf (shape_of self.now) firewall branch result.node result.interface }
    {
        match branch {
            Some(domain) => Uplink {
                node: domain,
                interface: self.hop_up(domain).entered,
            },
            None => self.firewalls.as_slice()[firewall],
        }
    }

    // The first hop of the way between two domains.
    pub(crate) fn hop_toward(&self, from: usize, to: usize) -> Hop
        requires here { Domain (shape_of self.now) from }
        requires there { Domain (shape_of self.now) to }
        requires apart { from ≢ to }
        ensures { Way (shape_of self.now) from to result }
    {
        if let Some(child) = self.child_toward(from, to) {
            return self.hop_down(child);
        }
        let up = self.hop_up(from);
        if let Some(branch) = self.branch_toward(up.firewall, to) {
            // To another domain below the same firewall.
            return Hop {
                left: self.hop_up(branch).entered,
                reached: branch,
                ..up
            };
        }
        up
    }

    // The hop to the domain above.
    fn hop_up(&self, domain: usize) -> Hop
        requires some { 0 < domain }
        requires domain { Domain (shape_of self.now) domain }
        ensures from { Lies (shape_of self.now) domain result.firewall result.entered }
        ensures onto { Hangs (shape_of self.now) result.firewall result.reached result.left }
        ensures falls { result.reached < domain }
    {
        let lower = self.domains.as_slice()[domain - 1];
        let upper = self.firewalls.as_slice()[lower.node];
        Hop {
            firewall: lower.node,
            entered: lower.interface,
            left: upper.interface,
            reached: upper.node,
        }
    }

    // The hop down to a domain: the one up from there, backwards.
    fn hop_down(&self, domain: usize) -> Hop
        requires some { 0 < domain }
        requires domain { Domain (shape_of self.now) domain }
        ensures from { (u : ℕ) × Hangs (shape_of self.now) result.firewall u result.entered }
        ensures onto { Lies (shape_of self.now) domain result.firewall result.left }
        ensures reached { result.reached ≡ domain }
    {
        let up = self.hop_up(domain);
        Hop {
            firewall: up.firewall,
            entered: up.left,
            left: up.entered,
            reached: domain,
        }
    }
}
