//! What the definitions say of every complete feed, as functions that only carry a proof.

ghost use Rattle.mdp_receiver.specs.Handling.{LawOfCurrentBooks, LawOfHandlers};

/// Proves that after each datagram all lines so far, where lines are kept, and the marks of what changed are what the
/// moves of the events show, and what every complete feed owes that agrees with them; and that each security's book is
/// that feed's.
pub fn law_of_handlers()
    ensures { LawOfHandlers }
{}

/// Proves that a book which is told to be current is that of every complete feed that agrees with the events, right
/// before the packet that comes next.
pub fn law_of_current_books()
    ensures { LawOfCurrentBooks }
{}
