//! The messages of a CME MDP 3.0 channel as typed values: the packets of the incremental feed, the
//! snapshots of the market recovery feed, and the instruments that the books are kept for, with their
//! places.
#![tactic(auto)]

mod entry;
mod fault;
mod feed;
mod incremental;
mod instrument;
mod laws;
mod layout;
mod packet;
mod quote;
mod recovery;
mod side;
mod slots;
mod snapshot;
mod spans;
mod template;

pub use entry::{Action, DIRECT_DEPTH, Entry, IMPLIED_DEPTH, Kind, Level};
pub use fault::{Fault, Memory};
pub use feed::{Feed, LONGEST_DATAGRAM};
pub use incremental::{read_packet, read_packet_into};
pub use instrument::{Instrument, InstrumentKind, MOST_INSTRUMENTS, Name, are_fit, has_legs};
pub use laws::{datagrams_are_framed, one_answer};
pub use packet::{Message, Packet};
pub use recovery::read_snapshots;
pub use slots::Slots;
pub use snapshot::Snapshot;
