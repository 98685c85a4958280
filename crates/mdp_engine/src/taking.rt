//! What an arbiter makes of an event.

ghost use Rattle.std.specs.Prelude.{◌≡◌, [], ◌∷◌, ◌++◌, List, OnOk};
ghost use Rattle.mdp_arbiter.specs.Accepted.{Event as Accepted};
ghost use Rattle.mdp_arbiter.specs.Arbiter.{state};
ghost use Rattle.mdp_arbiter.specs.Standing.{StandsAt};
ghost use Rattle.mdp_engine.specs.Steps.{event_of};

use crate::event::Event;
use mdp_arbiter::Arbiter;
use mdp_templates::{Memory, Packet};
use mdp_window::{Put, Window};
use std::alloc::Allocator;

/// Has an arbiter take in an event, and makes no move.
///
/// # Errors
///
/// Memory ran out. Then the arbiter has not taken it in.
pub fn take_in<A: Allocator + Copy, W: Window<Packet<A>> + Drop>(
    arbiter: &mut Arbiter<A, W>,
    event: Event<A>,
) -> Result<(), Memory>
    ensures stands { OnOk result ((before : List Accepted) → StandsAt before arbiter.old
        → StandsAt (before ++ event_of event ∷ []) arbiter.new) }
    ensures keeps { OnOk result (state arbiter.new ≡ state arbiter.old) }
    ensures channel { OnOk result (arbiter.new.channel ≡ arbiter.old.channel) }
{
    match event {
        Event::Packet(packet) => match arbiter.packet(packet) {
            Put::Kept => Ok(()),
            Put::Back(_) => Ok(()),
            Put::Memory(_) => Err(Memory),
        },
        Event::Snapshot(snapshot) => {
            arbiter.snapshot(Box::into_inner(snapshot));
            Ok(())
        }
        Event::Close => {
            arbiter.close();
            Ok(())
        }
    }
}
