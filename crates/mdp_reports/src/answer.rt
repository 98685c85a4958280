//! What a worker answers to a batch of moves.

use crate::reports::Reports;
use std::alloc::Allocator;

/// A worker's answer to a batch of moves.
#[derive(Drop)]
pub enum Answer<A: Allocator> {
    /// The reports of the batch: one for each event end and each jump in it.
    Tells(Reports<A>),
    /// Memory ran out: the worker reports nothing more.
    Failed,
    /// There was no more batch.
    Finished,
}
