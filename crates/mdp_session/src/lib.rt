//! What a library for C stands on: a handler with no type parameters, which a handle can own, and the judging of the
//! instruments that such a caller lists, in an array or in a text.
#![tactic(auto)]

mod array;
mod list_fault;
mod listed;
mod session;
mod text;

pub use array::list_array;
pub use list_fault::{ListFault, Unlisted};
pub use listed::{Listed, instrument_in};
pub use session::Session;
pub use text::list_text;
