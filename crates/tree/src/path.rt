// The way from one domain to another.
use crate::table::ROWS;
use model::Hop;
use tables::FixedVec;

pub mod read;

// A route enters each firewall at most once, and a table has no more firewalls than rows for them.
const HOPS: usize = ROWS;

/// The hops from one domain to another, in order.
#[derive(Clone, Copy)]
pub struct Route {
    pub(crate) hops: FixedVec<Hop, HOPS>,
}
