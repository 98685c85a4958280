//! What a datagram of a feed says, decoded alone.

ghost use Rattle.std.specs.Prelude.{IfOk};
ghost use Rattle.mdp_templates.specs.Refused.FeedKind.{incremental, recovery};
ghost use Rattle.mdp_receiver.specs.Said.{IsSaid, kind_of, said_of};

use mdp_sbe::Refusal;
use mdp_templates::{Fault, Feed, Memory, Packet, Snapshot, read_packet, read_snapshots};
use std::alloc::Allocator;

/// What a datagram says: what it brings, or why it is refused.
#[derive(Drop)]
pub enum Decoded<A: Allocator> {
    /// The packet of a datagram of feed A or B.
    Packet(Packet<A>),
    /// The snapshots of a datagram of feed S, in their order.
    Snapshots(Vec<Snapshot, A>),
    /// The datagram is refused.
    Refused(Refusal),
}

// Decodes a datagram of feed A or B.
fn decode_packet<A: Allocator + Copy>(alloc: A, bytes: &[u8]) -> Result<Decoded<A>, Memory>
    ensures { IfOk result (λ decoded. IsSaid incremental bytes.now (said_of decoded)) }
{
    match read_packet(alloc, bytes) {
        Ok(packet) => Ok(Decoded::Packet(packet)),
        Err(Fault::Refused(refusal)) => Ok(Decoded::Refused(refusal)),
        Err(Fault::Memory) => Err(Memory),
    }
}

// Decodes a datagram of feed S.
fn decode_snapshots<A: Allocator + Copy>(alloc: A, bytes: &[u8]) -> Result<Decoded<A>, Memory>
    ensures { IfOk result (λ decoded. IsSaid recovery bytes.now (said_of decoded)) }
{
    match read_snapshots(alloc, bytes) {
        Ok(snapshots) => Ok(Decoded::Snapshots(snapshots)),
        Err(Fault::Refused(refusal)) => Ok(Decoded::Refused(refusal)),
        Err(Fault::Memory) => Err(Memory),
    }
}

/// Decodes a datagram of a feed.
///
/// # Errors
///
/// Memory ran out, so that nothing is said of the datagram.
pub fn decode<A: Allocator + Copy>(alloc: A, feed: Feed, bytes: &[u8]) -> Result<Decoded<A>, Memory>
    ensures { IfOk result (λ decoded. IsSaid (kind_of feed) bytes.now (said_of decoded)) }
{
    match feed {
        Feed::A => decode_packet(alloc, bytes),
        Feed::B => decode_packet(alloc, bytes),
        Feed::S => decode_snapshots(alloc, bytes),
    }
}
