//! The desks of a channel's listed securities: each security's book, moved forward in place, and whether it is to be
//! printed at the next event end.
#![tactic(auto)]

mod desk;
mod desks;
mod laws;
mod lines;
mod marked;

pub use desk::Desk;
pub use desks::Desks;
pub use laws::law_of_shares;
pub use lines::put_book;
pub use marked::Marked;
