//! What the definitions of reports, of rounds and of the steps of a board say of all moves, as functions
//! that only carry a proof.

ghost use Rattle.mdp_reports.specs.Behind.{LawOfEarlyEnds};
ghost use Rattle.mdp_reports.specs.BoardLaws.{LawOfBoards, LawOfFirstSteps, LawOfMoreSteps, LawOfStepFronts};
ghost use Rattle.mdp_reports.specs.ReportLaw.{LawOfFirstDesks, LawOfFullJumps, LawOfReports};
ghost use Rattle.mdp_reports.specs.RoundLaws.{LawOfAscent, LawOfBatches, LawOfCuts, LawOfFirstRounds, LawOfRuns, LawOfWorkers};

/// Proves that a worker whose desks stand behind the moves before reports its part of each moment of the moves that
/// follow, and its desks stand behind those too.
pub fn law_of_reports()
    ensures { LawOfReports }
{}

/// Proves that where packets pass in number order, as the recovery machine's moves do, each jump has a snapshot of
/// each listed security.
pub fn law_of_full_jumps()
    ensures { LawOfFullJumps }
{}

/// Proves that new desks stand behind no moves.
pub fn law_of_first_desks()
    ensures { LawOfFirstDesks }
{}

/// Proves that whatever the number of workers, what the collector makes of their reports is what the
/// moves show.
pub fn law_of_workers()
    ensures { LawOfWorkers }
{}

/// Proves that the recovery machine's moves ascend, whatever came: packets pass in number order, and
/// each jump has a snapshot of each listed security.
pub fn law_of_ascent()
    ensures { LawOfAscent }
{}

/// Proves that batches of reports are the rounds of all their moments, wherever they are cut.
pub fn law_of_batches()
    ensures { LawOfBatches }
{}

/// Proves that what is made of the first rounds begins what is made of all.
pub fn law_of_first_rounds()
    ensures { LawOfFirstRounds }
{}

/// Proves that the moments of moves that come batch by batch are those of all of them.
pub fn law_of_cuts()
    ensures { LawOfCuts }
{}

/// Proves that whatever the number of workers and wherever their reports are cut into batches, the
/// collector's text is the one that a complete feed owes which agrees with the events.
pub fn law_of_runs()
    ensures { LawOfRuns }
{}

/// Proves that whatever the number of workers, and wherever their reports are cut into batches, the steps that these
/// give are those that the moves show.
pub fn law_of_boards()
    ensures { LawOfBoards }
{}

/// Proves that the steps of the first reports come first.
pub fn law_of_first_steps()
    ensures { LawOfFirstSteps }
{}

/// Proves that the steps of the first moves come first, and behind them those of the moments of the other moves.
pub fn law_of_more_steps()
    ensures { LawOfMoreSteps }
{}

/// Proves that the steps of a front of the events begin the steps of all.
pub fn law_of_step_fronts()
    ensures { LawOfStepFronts }
{}

/// Proves that where a run ended early, the text that went out is a beginning of the whole text, and the steps that
/// were published are a beginning of all steps.
pub fn law_of_early_ends()
    ensures { LawOfEarlyEnds }
{}
