//! What the definitions of shares say of all moves, as a function that only carries a proof.

ghost use Rattle.mdp_desks.specs.ShareLaws.{LawOfShares};

/// Proves that a worker that has its own securities alone, and of each jump their snapshots alone, reports its part
/// of each moment, whatever came before.
pub fn law_of_shares()
    ensures { LawOfShares }
{}
