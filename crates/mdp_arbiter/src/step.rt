//! What an arbiter hands on.

use mdp_templates::Packet;
use std::alloc::Allocator;

/// What happens next on the channel.
#[derive(Drop)]
pub enum Step<A: Allocator> {
    /// The packet of the next number passes.
    Pass(Packet<A>),
    /// Recovery jumps from one number to a later one, over the packets between them, to a snapshot of each security. A
    /// first jump, which joins the channel, may stay at the number.
    Jump { old: u64, new: u64 },
}
