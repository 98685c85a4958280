//! What the definition of a board's rows says of every list of steps, as functions that only carry a proof.

ghost use Rattle.mdp_lanes.specs.Rows.{LawOfRows, LawOfSteps};

/// Proves that with no jump, and behind the last one, a slot's row is the last that was given for it.
pub fn rows_are_the_last_given()
    ensures { LawOfRows }
{}

/// Proves that a jump makes a slot's row stale, and an event leaves it as it was, unless it gives the slot another.
pub fn steps_change_rows()
    ensures { LawOfSteps }
{}
