//! An arbiter takes in events, and hands on the moves that they make possible, with all that these bear.

ghost use Rattle.std.specs.Prelude.{◌≡◌, [], ◌∷◌, ◌++◌, List, IfOk, map};
ghost use Rattle.mdp_templates.specs.declared.instrument.Instrument.{Instrument};
ghost use Rattle.mdp_arbiter.specs.Accepted.{Event as Accepted};
ghost use Rattle.mdp_arbiter.specs.Machine.{snapshots_of};
ghost use Rattle.mdp_arbiter.specs.Standing.{StandsAt};
ghost use Rattle.mdp_engine.specs.Engine.{IsSettled};
ghost use Rattle.mdp_engine.specs.Steps.{event_of};
ghost use Rattle.mdp_crew.specs.Fed.{IsFedAll, MakesMoves, feeding};
ghost use Rattle.mdp_arbiter.specs.OwnedMoves.{move_of, stepped_move};

use mdp_arbiter::{Arbiter, OwnedMove, Step};
use mdp_engine::{Event, take_in};
use mdp_templates::{Memory, Packet, Snapshot};
use mdp_window::Window;
use std::alloc::Allocator;

// Copies the snapshots that are there.
fn snapshots_in<A: Allocator>(
    alloc: A,
    newest: &[Option<Snapshot>],
) -> Result<Vec<Snapshot, A>, Memory>
    ensures { IfOk result (λ snapshots. snapshots.items ≡ snapshots_of newest.now) }
{
    let mut snapshots = Vec::with_capacity(alloc, newest.len())?;
    for snapshot in newest {
        match snapshot {
            Some(snapshot) => snapshots.push(snapshot.copy())?,
            None => {}
        }
    }
    Ok(snapshots)
}

// Gives the move of a step, with all that it bears, where a jump took these snapshots.
fn owned_move_of<A: Allocator>(
    alloc: A,
    step: Step<A>,
    newest: &[Option<Snapshot>],
) -> Result<OwnedMove<A>, Memory>
    ensures { IfOk result (λ owned_move. move_of owned_move ≡ stepped_move step newest.now) }
{
    match step {
        Step::Pass(packet) => Ok(OwnedMove::Passed(packet)),
        Step::Jump { old, new } => Ok(OwnedMove::Jumped {
            old,
            new,
            snapshots: snapshots_in(alloc, newest)?,
        }),
    }
}

// Makes moves until none is possible, and appends each.
fn make_moves<A: Allocator + Copy, W: Window<Packet<A>> + Drop>(
    alloc: A,
    arbiter: &mut Arbiter<A, W>,
    owned_moves: &mut Vec<OwnedMove<A>, A>,
) -> Result<(), Memory>
    ensures { (events : List Accepted) → StandsAt events arbiter.old
        → MakesMoves (feeding events arbiter.old (map move_of owned_moves.old.items))
        (feeding events arbiter.new (map move_of owned_moves.new.items)) result }
{
    while let Some(step) = arbiter.step() {
        let owned_move = owned_move_of(alloc, step, arbiter.newest())?;
        owned_moves.push(owned_move)?;
    }
    Ok(())
}

// Takes in an event, and appends the moves that are then possible.
fn feed<A: Allocator + Copy, W: Window<Packet<A>> + Drop>(
    alloc: A,
    arbiter: &mut Arbiter<A, W>,
    event: Event<A>,
    owned_moves: &mut Vec<OwnedMove<A>, A>,
) -> Result<(), Memory>
    ensures { (listed : List Instrument) (before : List Accepted)
        → IsSettled listed before arbiter.old
        → IsFedAll listed (feeding before arbiter.old (map move_of owned_moves.old.items))
        (feeding (before ++ event_of event ∷ []) arbiter.new (map move_of owned_moves.new.items)) result }
{
    take_in(arbiter, event)?;
    make_moves(alloc, arbiter, owned_moves)
}

/// Takes in events, in their order, and appends the moves that each makes possible.
///
/// # Errors
///
/// Memory ran out. The moves that were appended are a beginning of those moves, and the arbiter is
/// of no further use.
pub fn feed_all<A: Allocator + Copy, W: Window<Packet<A>> + Drop>(
    alloc: A,
    arbiter: &mut Arbiter<A, W>,
    events: Vec<Event<A>, A>,
    owned_moves: &mut Vec<OwnedMove<A>, A>,
) -> Result<(), Memory>
    ensures { (listed : List Instrument) (before : List Accepted)
        → IsSettled listed before arbiter.old
        → IsFedAll listed (feeding before arbiter.old (map move_of owned_moves.old.items))
        (feeding (before ++ map event_of events.items) arbiter.new
        (map move_of owned_moves.new.items)) result }
{
    for event in events {
        feed(alloc, arbiter, event, owned_moves)?;
    }
    Ok(())
}
