//! The lines that the feed handler prints, and writing that tells how much of them went out.
//!
//! A function for each kind of line appends the line's bytes to a vector, or leaves the vector as it
//! was where memory runs out. A [`ShortText`] is put together with no memory. [`write_all_counted`] hands bytes to a
//! [`CountedWrite`], a writer that counts its failed writes; [`Counting`] makes one of any writer.
#![tactic(auto)]

mod book_lines;
mod counting;
mod event;
mod head;
mod merged;
mod pieces;
mod status_lines;
mod taken_bytes;
#[cfg(test)]
mod tests;
mod totals;
mod verdict_lines;
mod writing;

pub use book_lines::{put_consolidated, put_direct, put_implied, put_merged};
pub use counting::Counting;
pub use event::EventText;
pub use head::Head;
pub use mdp_books::ShortText;
pub use status_lines::{put_fault, put_jump, put_last, put_refusal};
pub use verdict_lines::{put_audit, put_audit_under};
pub use writing::{CountedWrite, write_all_counted, written_since};
