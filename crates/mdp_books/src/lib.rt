//! Order books by position: the sides of a security's book, with the printed text of their levels beside them, and the
//! book after each entry of a CME MDP 3.0 channel. No function here takes memory.
#![tactic(auto)]

mod book;
mod event_end;
mod printed_levels;
mod short_text;
mod side;
#[cfg(test)]
mod tests;
mod text;

pub use book::{Book, Place, Sides};
pub use event_end::EventEnd;
pub use printed_levels::PrintedLevels;
pub use short_text::{ShortText, TextFromEnd};
pub use side::Side;
