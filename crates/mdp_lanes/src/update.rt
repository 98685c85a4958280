//! What the publisher hands to both copies.

use crate::history::Front;
use crate::row::Row;
use std::alloc::Allocator;

/// What a step does to rows.
#[derive(Drop)]
pub enum Change<A: Allocator> {
    /// Makes each row stale.
    Wipe,
    /// Gives each slot its row, one pair after the other.
    Give(Vec<(u16, Row), A>),
}

/// A step with all that stands behind it: the history of which it is the last, and how long that is.
#[derive(Drop)]
pub struct Update<A: Allocator> {
    pub change: Change<A>,
    pub length: u64,
    pub front: Front,
}
