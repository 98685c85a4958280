//! The text of a channel file: the instruments of a channel, and the multicast groups and ports of its feeds.
#![tactic(auto)]

mod address;
mod channel_file;
mod fault;
mod field;
mod laws;
mod lines;

pub use channel_file::{ChannelFile, read_channel};
pub use fault::{ChannelFault, LineRefusal};
pub use laws::one_channel;

#[cfg(test)]
mod tests;
