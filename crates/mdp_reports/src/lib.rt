//! What a worker reports of the moves that it took with the books of its own securities, and what the collector makes
//! of the reports of all workers: the text of all of them, and nothing of threads or queues.
#![tactic(auto)]

mod answer;
mod audits;
mod board_steps;
mod collector;
mod event_end;
mod kept;
mod laws;
mod merge;
mod places;
mod reporting;
mod reports;
mod rest;
mod room;
mod worker;

pub use answer::Answer;
pub use board_steps::{BoardSteps, Posting};
pub use collector::Collector;
pub use laws::{
    law_of_ascent, law_of_batches, law_of_boards, law_of_cuts, law_of_early_ends,
    law_of_first_desks, law_of_first_rounds, law_of_first_steps, law_of_full_jumps,
    law_of_more_steps, law_of_reports, law_of_runs, law_of_step_fronts, law_of_workers,
};
pub use places::{Heading, Line};
pub use reports::{Reports, Room};
pub use rest::Rest;
pub use room::RecentRoom;
pub use worker::Worker;
