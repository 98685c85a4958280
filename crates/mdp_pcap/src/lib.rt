//! Captured traffic, as `tcpdump` and Wireshark write it, and the datagrams of a channel's feeds in it.
//!
//! Two formats are read, told apart by their first four bytes: classic pcap (the libpcap file format, version 2.4) and
//! pcapng (draft-ietf-opsawg-pcapng). A file may come in pieces of any size, as from a pipe: a frame that lies whole in
//! a piece is lent from it, and of one that does not, no more than its block is held.
#![tactic(auto)]

mod addresses;
mod block;
mod frame;
mod laws;
mod layout;
mod link;
mod number;
mod outcome;
mod packet;
mod pcap_reader;
mod section;

pub use addresses::{FeedAddress, FeedAddresses};
pub use frame::{CapturedFrame, Frame, frame_of};
pub use laws::{faults_stay, one_answer, one_feed, pieces_add, whole_file};
pub use layout::PcapFault;
pub use link::Link;
pub use outcome::FrameOutcome;
pub use pcap_reader::{Halt, PcapReader, TakesFrames};

#[cfg(test)]
mod tests;
