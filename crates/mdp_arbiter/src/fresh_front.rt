//! How far the newest snapshots are known to be there.

ghost use Rattle.std.specs.Prelude.{◌≡◌, ◌≤◌, ◌+◌, nat_le, if◌then◌else◌};
ghost use Rattle.mdp_arbiter.specs.Fates.{first_stale};
ghost use Rattle.mdp_arbiter.specs.Machine.{are_fresh};
ghost use Rattle.mdp_arbiter.specs.Fronts.{Leads, least_with, nothing_known};

use crate::newest::is_fresh_enough;
use mdp_templates::Snapshot;

/// What is known of the newest snapshots without a look at them: the first so many are there, and each includes this
/// packet. That stays true where a newer snapshot takes the place of one, since it includes a later packet.
#[derive(Clone, Copy)]
pub(crate) struct FreshFront {
    count: usize,
    least: u32,
}

impl FreshFront {
    /// Nothing is known.
    pub(crate) const NONE: FreshFront = FreshFront {
        count: 0,
        least: u32::MAX,
    };

    /// Returns the first place whose snapshot is missing, or leaves out a packet that is given up, and keeps what is
    /// known now. It looks at no place that is known to be fresh.
    pub(crate) fn first_stale(
        &mut self,
        newest: &[Option<Snapshot>],
        top: u64,
        room: u64,
    ) -> Option<usize>
        requires room { room ≤ 65536 }
        requires leads { Leads self.old newest.now }
        ensures stale { result ≡ first_stale room top newest.now }
        ensures leads { Leads self.new newest.now }
    {
        *self = self.while_fresh(top, room);
        for slot in self.count..newest.len() {
            let snapshot = &newest[slot];
            if !is_fresh_enough(snapshot, top, room) {
                return Some(slot);
            }
            self.least = least_with(self.least, snapshot);
            self.count = slot + 1;
        }
        None
    }

    /// Returns whether each security has a snapshot that includes every packet which is given up, and keeps what is
    /// known now.
    pub(crate) fn are_all_fresh(&mut self, newest: &[Option<Snapshot>], top: u64, room: u64) -> bool
        requires room { room ≤ 65536 }
        requires leads { Leads self.old newest.now }
        ensures tells { result ≡ are_fresh room top newest.now }
        ensures leads { Leads self.new newest.now }
    {
        self.first_stale(newest, top, room).is_none()
    }

    // Gives what is known back where the packets that are given up all lie in what the first snapshots include: then
    // these are fresh. Else nothing is known.
    fn while_fresh(&self, top: u64, room: u64) -> FreshFront
        requires { room ≤ 65536 }
        ensures { result
            ≡ (if nat_le top (self.now.least + room) then self.now else nothing_known) }
    {
        if top <= u64::from(self.least) + room {
            return *self;
        }
        FreshFront::NONE
    }
}

// Returns the lesser of a number and that of a snapshot, where it is there.
fn least_with(least: u32, snapshot: &Option<Snapshot>) -> u32
    ensures { result ≡ least_with least snapshot.now }
{
    match snapshot {
        None => least,
        Some(snapshot) => least.min(snapshot.last()),
    }
}
