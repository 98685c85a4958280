//! The threads behind the readers: the arbiter's, which sends what events cause to all workers; the
//! workers', each of which keeps the books of its own securities and answers what is printed of
//! them; and what the caller's thread makes of their answers.
#![tactic(auto)]

mod arbiter;
mod batch;
mod begun;
mod collector;
mod crew;
mod fault;
mod feeding;
mod gate;
mod last_orders;
mod order;
mod plan;
mod publishing;
mod rounds;
mod running;
mod share;
mod shared_moves;
mod site;
mod starts;
#[cfg(test)]
mod tests;
mod worker;

pub use batch::Batch;
pub use begun::{Begun, begin, join};
pub use fault::{RunFault, hand_on, out_of_memory};
pub use gate::{Gate, Open};
pub use plan::RunPlan;
pub use running::{CrewOutcome, run_crew};
pub use site::{Means, Site};
pub use starts::{Always, Starts};
