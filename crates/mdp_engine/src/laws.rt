//! What the definitions of the lines say of every complete feed, as functions that only carry a proof.

ghost use Rattle.mdp_engine.specs.Engine.{LawOfOwedBooks, LawOfOwedText};
ghost use Rattle.mdp_engine.specs.GivenUp.{LawOfARecovery};
ghost use Rattle.mdp_engine.specs.Honest.{HonestMovesAgree, LawOfHonestFeeds};
ghost use Rattle.mdp_engine.specs.Marks.{LawOfMarks};
ghost use Rattle.mdp_engine.specs.MomentLaws.{LawOfHonestMoments, LawOfOwedMoments};

/// Proves that the moves of events that agree with a complete feed are that feed's: each packet that passes is the
/// feed's next, and each jump's snapshots are its books.
pub fn honest_moves_agree()
    ensures { HonestMovesAgree }
{}

/// Proves that the lines of the moments that an engine let go and those that it holds are, where it keeps lines, the
/// lines that each complete feed owes that agrees with its events.
pub fn law_of_owed_text()
    ensures { LawOfOwedText }
{}

/// Proves that the desks of an engine whose events agree with a complete feed hold that feed's books: each right before
/// the packet that comes next, or right after its snapshot's packet where that is later.
pub fn law_of_owed_books()
    ensures { LawOfOwedBooks }
{}

/// Proves that there is a complete feed that the events agree with wherever the snapshots of listed securities that
/// came are the books of one feed, of each of its numbers the packet that came first is its own, and each packet has a
/// number that a feed can have. That one feed may end before the packets that came do.
pub fn honest_feeds_exist()
    ensures { LawOfHonestFeeds }
{}

/// Proves that there are events which agree with a complete feed, and of which recovery jumps: packet 1 is lost, a
/// snapshot that includes it comes, and packet 2 passes behind it.
pub fn law_of_a_recovery()
    ensures { LawOfARecovery }
{}

/// Proves that when a security is due can be read off the whole feed or off what stands behind its base: it is the
/// same.
pub fn marks_are_the_feeds()
    ensures { LawOfMarks }
{}

/// Proves that moves that are a complete feed's have exactly the moments that the feed owes.
pub fn law_of_owed_moments()
    ensures { LawOfOwedMoments }
{}

/// Proves that the moves of events that agree with a complete feed have exactly the moments that the feed owes.
pub fn law_of_honest_moments()
    ensures { LawOfHonestMoments }
{}
