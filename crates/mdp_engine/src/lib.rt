//! The engine: what comes on a channel in, and out the lines that each event end owes of the listed securities' books.
#![tactic(auto)]

mod audited_desks;
mod audits;
mod engine;
mod event;
mod held;
mod laws;
mod parts;
mod spreads;
mod taking;

pub use audits::{is_one_marked, put_verdicts};
pub use engine::{Engine, replay};
pub use event::Event;
pub use laws::{
    honest_feeds_exist, honest_moves_agree, law_of_a_recovery, law_of_honest_moments,
    law_of_owed_books, law_of_owed_moments, law_of_owed_text, marks_are_the_feeds,
};
pub use parts::{mark_spreads, parts_of};
pub use spreads::{Spread, spreads_of};
pub use taking::take_in;
