//! What becomes of what comes on a channel.

/// What becomes of a packet, which its number decides.
#[derive(Clone, Copy, Debug, PartialEq, Eq)]
pub enum PacketFate {
    /// It is the first copy of its number: it passes, or waits for packets before it.
    First,
    /// A packet of its number waits already.
    Repeat,
    /// Its number has passed, or recovery jumped over it.
    Past,
    /// Its number was given up, since a packet came that is the window's room or more after it.
    Late,
    /// The channel was closed before.
    AfterClose,
}

/// What becomes of a snapshot.
#[derive(Clone, Copy, Debug, PartialEq, Eq)]
pub enum SnapshotFate {
    /// It is the newest of its security, which is listed.
    News,
    /// One of its security came that includes as many packets, or more.
    Older,
    /// Its security isn't listed.
    Unlisted,
    /// The channel was closed before.
    AfterClose,
}
