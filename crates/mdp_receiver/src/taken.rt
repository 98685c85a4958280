//! What became of a datagram.

ghost use Rattle.std.specs.Prelude.{◌≡◌, ◌<◌, ◌^◌};
ghost use Rattle.mdp_receiver.specs.Taken.{count_all, with_fate};

use mdp_arbiter::{PacketFate, SnapshotFate};
use mdp_sbe::Refusal;

/// What became of a datagram.
#[derive(Clone, Copy, Debug, PartialEq, Eq)]
pub enum Taken {
    /// It was a packet of feed A or B, of which this became.
    Packet(PacketFate),
    /// It brought so many snapshots on feed S.
    Snapshots(SnapshotCounts),
    /// It was refused, and nothing changed.
    Refused(Refusal),
}

/// How many snapshots a datagram brought, by what became of them.
#[derive(Clone, Copy, Debug, PartialEq, Eq)]
pub struct SnapshotCounts {
    /// Those that are the newest of their security.
    pub news: usize,
    /// Those that are no newer than one that came before.
    pub older: usize,
    /// Those of securities that are not listed.
    pub unlisted: usize,
    /// Those that came after the channel was closed.
    pub after_close: usize,
}

impl SnapshotCounts {
    /// Counts none.
    pub(crate) const NONE: SnapshotCounts = SnapshotCounts {
        news: 0,
        older: 0,
        unlisted: 0,
        after_close: 0,
    };

    /// Counts one more.
    pub(crate) fn and(self, fate: SnapshotFate) -> SnapshotCounts
        requires { count_all self < 2 ^ 63 }
        ensures { result ≡ with_fate fate self }
    {
        let mut counts = self;
        match fate {
            SnapshotFate::News => counts.news += 1,
            SnapshotFate::Older => counts.older += 1,
            SnapshotFate::Unlisted => counts.unlisted += 1,
            SnapshotFate::AfterClose => counts.after_close += 1,
        }
        counts
    }
}
