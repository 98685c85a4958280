//! A move of the recovery machine, with all that it bears.

use mdp_templates::{Packet, Snapshot};
use std::alloc::Allocator;

/// What happens next on the channel, with all that those need who weren't there.
#[derive(Drop)]
pub enum OwnedMove<A: Allocator> {
    /// The packet of the next number passes.
    Passed(Packet<A>),
    /// Recovery jumps from one number to a later one, to these snapshots, one of each listed security in listed order.
    Jumped {
        old: u64,
        new: u64,
        snapshots: Vec<Snapshot, A>,
    },
}
