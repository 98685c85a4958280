//! Where events end.

/// The place of a message in its packet, where an event ends or may end.
#[derive(Clone, Copy, Debug, PartialEq, Eq)]
pub struct EventEnd {
    /// The packet sequence number, from 1 to 4294967295.
    pub packet: u32,
    /// The message in the packet, counted from 1, those that are stepped over counted too.
    pub message: u64,
}
