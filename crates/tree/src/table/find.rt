// The route between two domains, whole or by the hop.
ghost use Rattle.std.specs.Prelude.{◌≤◌, length, IfSome, Decides};
ghost use Rattle.model.specs.Shape.{Domain};
ghost use Rattle.tree.specs.Path.{RouteOf, NextHopOf, HopThroughOf, hops_of};
ghost use Rattle.tree.specs.Table.{shape_of};

use super::TreeTable;
use crate::path::Route;
use model::Hop;
use tables::FixedVec;

impl TreeTable {
    /// The first hop of the route from one domain to another; nothing where they are one, or one of
    /// them does not exist. Who goes on from the domain that it reaches goes along the route.
    pub fn next_hop(&self, from: usize, to: usize) -> Option<Hop>
        ensures { NextHopOf (shape_of self.now) from to result }
    {
        if from == to || !self.both_exist(from, to) {
            return None;
        }
        Some(self.hop_toward(from, to))
    }

    /// The hop of the route from one domain to another that enters this firewall; nothing where the
    /// route does not enter it, or one of the domains does not exist.
    pub fn hop_through(&self, from: usize, to: usize, firewall: usize) -> Option<Hop>
        ensures { HopThroughOf (shape_of self.now) from to firewall result }
    {
        if !self.both_exist(from, to) {
            return None;
        }
        let near = self.branch_toward(firewall, from);
        let far = self.branch_toward(firewall, to);
        // The route goes through it just where the two are on different sides.
        if near == far {
            return None;
        }
        let here = self.side(firewall, near);
        let there = self.side(firewall, far);
        Some(Hop {
            firewall,
            entered: here.interface,
            left: there.interface,
            reached: there.node,
        })
    }

    /// The route from one domain to another, with at most one hop for each firewall; nothing where one
    /// of them does not exist.
    pub fn route(&self, from: usize, to: usize) -> Option<Route>
        ensures route { RouteOf self.now from to result }
        ensures short { IfSome result (λ p. length (hops_of p) ≤ length (shape_of self.now).firewalls) }
    {
        if !self.both_exist(from, to) {
            return None;
        }
        // A blank, and no default: no hop of all zeros is meant by one.
        let none = Hop {
            firewall: 0,
            entered: 0,
            left: 0,
            reached: 0,
        };
        let mut hops = FixedVec::new(none);
        let mut at = from;
        while let Some(hop) = self.next_hop(at, to) {
            hops.push(hop).unwrap();
            at = hop.reached;
        }
        Some(Route { hops })
    }

    // Whether both domains exist.
    fn both_exist(&self, one: usize, other: usize) -> bool
        ensures { Decides result (Domain (shape_of self.now) one × Domain (shape_of self.now) other) }
    {
        one < self.domain_count() && other < self.domain_count()
    }
}
