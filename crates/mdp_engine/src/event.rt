//! What comes on a channel.

ghost use Rattle.std.specs.Prelude.{◌≡◌, IfOk};
ghost use Rattle.mdp_arbiter.specs.Accepted.{recovered};
ghost use Rattle.mdp_engine.specs.Steps.{event_of};

use mdp_templates::{Memory, Packet, Snapshot};
use std::alloc::Allocator;

/// What comes on a channel, whatever the feed.
#[derive(Drop)]
pub enum Event<A: Allocator> {
    /// A packet came on one of the two incremental feeds.
    Packet(Packet<A>),
    /// A snapshot came on the market recovery feed. It is ten times as large as a packet's own part, so it is boxed.
    Snapshot(Box<Snapshot, A>),
    /// The channel was closed.
    Close,
}

impl<A: Allocator> Event<A> {
    /// Makes the event of a snapshot, or answers want of memory.
    pub fn snapshot(alloc: A, snapshot: Snapshot) -> Result<Event<A>, Memory>
        ensures { IfOk result (λ event. event_of event ≡ recovered snapshot) }
    {
        Ok(Event::Snapshot(Box::new(alloc, snapshot)?))
    }
}

impl<A: Allocator + Copy> Event<A> {
    /// Makes an equal event, or answers want of memory.
    pub fn copy(&self, alloc: A) -> Result<Event<A>, Memory>
        ensures { IfOk result (λ event. event_of event ≡ event_of self.now) }
    {
        match self {
            Event::Packet(packet) => Ok(Event::Packet(packet.copy(alloc)?)),
            Event::Snapshot(snapshot) => Event::snapshot(alloc, snapshot.copy()),
            Event::Close => Ok(Event::Close),
        }
    }
}
