//! A receiver of one channel to embed: datagrams go in one by one, as they come, and after each the books stand and the
//! lines of the event ends so far are lent. It starts no thread, and nothing of it waits.
#![tactic(auto)]

mod decoding;
mod handler;
mod last_packet;
mod laws;
mod moved;
mod taken;

pub use decoding::{Decoded, decode};
pub use handler::{ChannelState, Handler};
pub use laws::{law_of_current_books, law_of_handlers};
pub use moved::{Jump, Loss, Moved};
pub use taken::{SnapshotCounts, Taken};
