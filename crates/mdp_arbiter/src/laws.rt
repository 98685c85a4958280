//! Laws of the recovery machine, for readers of its definitions and for the crates above. Nothing runs here.

ghost use Rattle.mdp_arbiter.specs.Machine.{LawOfFronts, LawOfMoves, LawOfEvents, LawOfPasses, LawOfJumps, LawOfJoining, LawOfNoLoss};

/// Proves that the moves of a front of the events are a beginning of the moves of all events.
pub fn fronts_begin()
    ensures { LawOfFronts }
{}

/// Proves that from each state on exactly one list of moves goes on until none is possible.
pub fn moves_are_settled()
    ensures { LawOfMoves }
{}

/// Proves that one more event adds the moves that are then possible.
pub fn events_add()
    ensures { LawOfEvents }
{}

/// Proves that a packet that passes is the first that came of the next number.
pub fn passes_are_first()
    ensures { LawOfPasses }
{}

/// Proves that a jump takes each listed security's newest snapshot, and goes on right after the one that reaches
/// least far.
pub fn jumps_recover()
    ensures { LawOfJumps }
{}

/// Proves that a receiver which joins a channel under way passes nothing before a first jump.
pub fn joining_begins_with_a_jump()
    ensures { LawOfJoining }
{}

/// Proves that where nothing was lost, the first packet of each number from 1 on passes, as far as there is one of
/// each.
pub fn all_pass_without_loss()
    ensures { LawOfNoLoss }
{}
