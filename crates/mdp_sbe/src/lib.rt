//! Cursors over CME MDP 3.0 datagrams in FIX Simple Binary Encoding (SBE) 1.0: the packet header,
//! the messages, their root blocks and their repeating groups.
//!
//! Nothing here takes memory: each part that is read is lent from the datagram. A part that cannot be
//! read is refused by one numbered name of [`Refusal`].
#![tactic(auto)]

mod group;
mod header;
mod laws;
mod message;
mod number;
mod refusal;

pub use group::Group;
pub use header::Header;
pub use laws::one_framing;
pub use message::{Message, Messages};
pub use number::{i32_at, i64_at, u32_at};
pub use refusal::Refusal;
