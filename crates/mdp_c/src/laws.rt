//! What the definitions say of a handle from call to call, as a function that only carries a proof.

ghost use Rattle.mdp_c.specs.Laws.{LawOfCalls};

/// Proves that what a handle holds from its opening on is what a handler holds that took the same events: what the laws
/// of a handler say, of its lines, its books and what changed, holds of a handle.
pub fn law_of_calls()
    ensures { LawOfCalls }
{}
