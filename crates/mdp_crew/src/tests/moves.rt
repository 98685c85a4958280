//! Moves of a channel, which threads share, and each allocation refused in turn.

ghost use Rattle.mdp_templates.specs.Instrument.{AreFit};

use crate::batch::Batch;
use crate::feeding::feed_all;
use crate::shared_moves::SharedMoves;
use crate::tests::channel::{listed, packet, snapshots};
use mdp_arbiter::{Arbiter, OwnedMove, Start};
use mdp_engine::Event;
use mdp_templates::{Instrument, Kind, Memory, Packet, Snapshot};
use mdp_window::MapWindow;
use refusing::Refusing;
use std::alloc::{Allocator, Global};
use std::process::Abort;
use std::test::Fail;

/// A packet with a bid of the first security.
fn bid<A: Allocator + Copy>(alloc: A, number: u32) -> Result<Event<A>, Memory> {
    packet(alloc, (number, 1, Kind::Bid, 100, 5))
}

/// One packet.
fn one_packet<A: Allocator + Copy>(alloc: A, number: u32) -> Result<Vec<Event<A>, A>, Memory> {
    let mut events = Vec::new(alloc);
    events.push(bid(alloc, number)?)?;
    Ok(events)
}

/// Packets 2 and 1; then 4 and 7, which gives 3 up; the snapshots, which include 3; packet 5, a close, and packet 6 too late.
fn all_events<A: Allocator + Copy>(alloc: A) -> Result<Vec<Event<A>, A>, Memory> {
    let mut events = Vec::new(alloc);
    for number in [2, 1, 4, 7] {
        events.push(bid(alloc, number)?)?;
    }
    let Batch {
        events: recovered,
        is_last: _,
    } = snapshots(alloc)?;
    for event in recovered {
        events.push(event)?;
    }
    events.push(bid(alloc, 5)?)?;
    events.push(Event::Close)?;
    events.push(bid(alloc, 6)?)?;
    Ok(events)
}

/// What is compared of a move: a packet's number; a jump's numbers, how many snapshots it has, and what the first includes.
#[derive(Clone, Copy, Debug, PartialEq, Eq)]
enum Mark {
    Passed(u32),
    Jumped(u64, u64, usize, Option<u32>),
}

/// The moves that the events make with a window of four places.
const ALL: [Mark; 5] = [
    Mark::Passed(1),
    Mark::Passed(2),
    Mark::Jumped(3, 4, 3, Some(3)),
    Mark::Passed(4),
    Mark::Passed(5),
];

fn mark_of<A: Allocator>(owned_move: &OwnedMove<A>) -> Mark {
    match owned_move {
        OwnedMove::Passed(packet) => Mark::Passed(packet.number()),
        OwnedMove::Jumped {
            old,
            new,
            snapshots,
        } => Mark::Jumped(
            *old,
            *new,
            snapshots.len(),
            snapshots.first().map(Snapshot::last),
        ),
    }
}

/// The moves are the first of all.
fn are_first<A: Allocator>(rt: &impl Abort, owned_moves: &[OwnedMove<A>]) {
    assert!(rt; owned_moves.len() <= ALL.len());
    for (owned_move, mark) in owned_moves.iter().zip(ALL.iter()) {
        assert_eq!(rt; mark_of(owned_move), *mark);
    }
}

/// The second packet makes no move, and then the first makes both.
fn makes_two(
    rt: &impl Abort,
    alloc: Global,
    arbiter: &mut Arbiter<Global, MapWindow<Packet<Global>, Global>>,
) -> Result<(), Memory> {
    let mut owned_moves = Vec::new(alloc);
    feed_all(alloc, arbiter, one_packet(alloc, 2)?, &mut owned_moves)?;
    assert_eq!(rt; owned_moves.len(), 0);
    feed_all(alloc, arbiter, one_packet(alloc, 1)?, &mut owned_moves)?;
    assert_eq!(rt; owned_moves.len(), 2);
    are_first(rt, &owned_moves);
    Ok(())
}

#[test]
fn an_event_makes_the_turns_that_are_then_possible(rt: HostRuntime) -> Result<(), Fail> {
    let alloc = rt.alloc();
    let mut arbiter = Arbiter::new(alloc, &listed()?, MapWindow::new(alloc, 4), Start::FromOne)?;
    makes_two(&rt, alloc, &mut arbiter)?;
    Ok(())
}

/// Makes the moves of all events. Those that were made are the first, also where memory runs out.
fn moves_of<A: Allocator + Copy>(
    rt: &impl Abort,
    alloc: A,
    instruments: &[Instrument],
) -> Result<Vec<OwnedMove<A>, A>, Memory>
    requires { AreFit instruments.now }
{
    let events = all_events(alloc)?;
    let mut owned_moves = Vec::new(alloc);
    let mut arbiter = Arbiter::new(alloc, instruments, MapWindow::new(alloc, 4), Start::FromOne)?;
    let fed = feed_all(alloc, &mut arbiter, events, &mut owned_moves);
    are_first(rt, &owned_moves);
    fed?;
    Ok(owned_moves)
}

/// The moves are all of them.
fn are_all<A: Allocator>(rt: &impl Abort, owned_moves: &[OwnedMove<A>]) {
    assert_eq!(rt; owned_moves.len(), ALL.len());
    are_first(rt, owned_moves);
}

/// Makes the moves of all events, and shares them.
fn share_all<A: Allocator + Copy>(
    rt: &impl Abort,
    alloc: A,
    instruments: &[Instrument],
) -> Result<(), Memory>
    requires { AreFit instruments.now }
{
    let moves = SharedMoves::new(alloc, moves_of(rt, alloc, instruments)?)?;
    let share = moves.share()?;
    are_all(rt, moves.as_slice());
    are_all(rt, share.as_slice());
    Ok(())
}

#[test]
fn a_share_has_the_turns_of_the_first(rt: HostRuntime) -> Result<(), Fail> {
    share_all(&rt, rt.alloc(), &listed()?)?;
    Ok(())
}

#[test]
fn each_want_of_memory_leaves_a_beginning_of_the_turns(rt: HostRuntime) -> Result<(), Fail> {
    let listed = listed()?;
    let mut refused = 0u64;
    for number in 1..1000u64 {
        let heap = Refusing::new(rt.alloc(), number);
        let shared = share_all(&rt, &heap, &listed).is_ok();
        assert_eq!(rt; shared, !heap.has_refused());
        if shared {
            break;
        }
        refused = number;
    }
    assert!(rt; refused > 10);
    Ok(())
}
