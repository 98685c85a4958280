//! What a worker reports of moves, with the books of its own securities alone.

ghost use Rattle.std.specs.Prelude.{◌≡◌, ◌++◌, length, OnOk};
ghost use Rattle.mdp_books.specs.Feed.{sent_as, sent_in};
ghost use Rattle.mdp_desks.specs.Desks.{desks_after, passed_desks};
ghost use Rattle.mdp_reports.specs.Reporting.{desks_after_move, reports_at, reports_of_move, reports_passed};
ghost use Rattle.mdp_arbiter.specs.OwnedMoves.{move_of};

use crate::event_end::report_event_end;
use crate::reports::Reports;
use mdp_arbiter::OwnedMove;
use mdp_books::EventEnd;
use mdp_desks::Desks;
use mdp_templates::{Memory, Message, Packet};
use std::alloc::Allocator;

// Hears the message that stands where an event may end, and reports the event end, if it is one.
fn report_message<A: Allocator + Copy>(
    desks: &mut Desks<A>,
    slots: &[u16],
    end: EventEnd,
    taken: &Message<'_>,
    out: &mut Reports<A>,
) -> Result<(), Memory>
    requires { length slots.now ≡ length desks.old }
    ensures many { length desks.new ≡ length desks.old }
    ensures desks { OnOk result (desks.new
        ≡ desks_after (sent_as end.packet end.message taken.now) desks.old) }
    ensures reports { OnOk result (out.new ≡ out.old
        ++ reports_at slots.now (sent_as end.packet end.message taken.now) desks.old) }
{
    desks.hear(end, taken.entries());
    if taken.is_end() {
        desks.ripen(end.packet);
        report_event_end(desks, slots, end, out)?;
        desks.settle(end.packet);
    }
    Ok(())
}

// Hears a packet message by message, and reports its event ends.
fn report_packet<A: Allocator + Copy>(
    desks: &mut Desks<A>,
    slots: &[u16],
    packet: &Packet<A>,
    out: &mut Reports<A>,
) -> Result<(), Memory>
    requires { length slots.now ≡ length desks.old }
    ensures many { length desks.new ≡ length desks.old }
    ensures desks { OnOk result (desks.new ≡ passed_desks (sent_in packet.now) desks.old) }
    ensures reports { OnOk result (out.new ≡ out.old
        ++ reports_passed slots.now (sent_in packet.now) desks.old) }
{
    let number = packet.number();
    for n in 0..packet.len() {
        let end = EventEnd {
            packet: number,
            message: n as u64 + 1,
        };
        report_message(desks, slots, end, &packet.message(n), out)?;
    }
    Ok(())
}

/// Reports a move, and makes it.
pub fn report_move<A: Allocator + Copy>(
    desks: &mut Desks<A>,
    slots: &[u16],
    owned_move: &OwnedMove<A>,
    out: &mut Reports<A>,
) -> Result<(), Memory>
    requires { length slots.now ≡ length desks.old }
    ensures many { length desks.new ≡ length desks.old }
    ensures desks { OnOk result (desks.new
        ≡ desks_after_move slots.now (move_of owned_move.now) desks.old) }
    ensures reports { OnOk result (out.new ≡ out.old
        ++ reports_of_move slots.now (move_of owned_move.now) desks.old) }
{
    match owned_move {
        OwnedMove::Passed(packet) => report_packet(desks, slots, packet, out),
        OwnedMove::Jumped {
            old,
            new,
            snapshots,
        } => {
            out.put_jump(*old, *new)?;
            desks.rebase_from(slots, snapshots);
            Ok(())
        }
    }
}
