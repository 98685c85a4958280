//! Runs over the records of a channel's feeds: what is printed, and what is published on a board, is what the recovery
//! machine's moves show, and what every complete feed defines that agrees with the records.
#![tactic(auto)]

mod ended;
mod feed_reader;
mod feeds;
mod in_order;
mod laws;
mod note;
mod pace;
mod pieces;
mod progress;
mod refusals;
mod refused_lines;
mod settling;
mod streamed;
mod streamed_lines;
mod summary;
#[cfg(test)]
mod tests;
mod threads;

pub use ended::{EndNote, EndedRun};
pub use feeds::Feeds;
pub use in_order::run_in_order;
pub use laws::law_of_orders;
pub use mdp_crew::{RunFault, RunPlan};
pub use note::{Note, note_moves};
pub use progress::Run;
pub use streamed::StreamedRun;
pub use summary::Summary;
pub use threads::{run, run_published};
