//! What became of a datagram, by plain numbers.

ghost use Rattle.std.specs.Prelude.{◌≡◌, unwrap_or};
ghost use Rattle.mdp_c.specs.Became.{became_of, counts_told, fate_number, jump_told, loss_told, packet_told};
ghost use Rattle.mdp_c.specs.Statuses.{taken_status};

use crate::status::DONE;
use mdp_arbiter::PacketFate;
use mdp_receiver::{Jump, Loss, Moved, SnapshotCounts, Taken};

/// What became of a datagram that was taken in, and what it moved, 80 bytes.
#[repr(C)]
#[derive(Clone, Copy, Debug, PartialEq, Eq)]
pub struct Became {
    /// 1 where it was a packet of feed A or B, and 2 where it brought snapshots on feed S.
    pub kind: u32,
    /// What became of the packet: 0 it is the first copy of its number, 1 a packet of its number waits already, 2 its
    /// number has passed, 3 its number was given up, 4 the channel was closed before. 0 where it was none.
    pub fate: u32,
    /// 1 where the datagram made the receiver lost, else 0.
    pub has_loss: u32,
    /// 1 where recovery went on at another number, else 0. Then every book was replaced.
    pub has_jump: u32,
    /// How many snapshots are the newest of their security.
    pub news: u64,
    /// How many are no newer than one that came before.
    pub older: u64,
    /// How many are of securities that are not listed.
    pub unlisted: u64,
    /// How many came after the channel was closed.
    pub after_close: u64,
    /// The number of the packet that was given up, where the receiver was made lost, else 0.
    pub loss_next: u64,
    /// The number of the packet that came, where the receiver was made lost, else 0.
    pub loss_highest: u64,
    /// The number that was to come next before the jump, where there is one, else 0.
    pub jump_old: u64,
    /// The number that recovery went on at, where there is a jump, else 0.
    pub jump_new: u64,
}

/// Of which nothing is told yet.
const NOTHING: Became = Became {
    kind: 0,
    fate: 0,
    has_loss: 0,
    has_jump: 0,
    news: 0,
    older: 0,
    unlisted: 0,
    after_close: 0,
    loss_next: 0,
    loss_highest: 0,
    jump_old: 0,
    jump_new: 0,
};

/// Reports what became of a datagram and what it moved, in the place of what was told before; nothing of one that is
/// refused. Returns the status.
pub(crate) fn tell_became(became: &mut Became, taken: Taken, moved: Moved) -> u32
    ensures became { became.new ≡ unwrap_or (became_of taken moved) became.old }
    ensures status { result ≡ taken_status taken }
{
    match taken {
        Taken::Packet(fate) => *became = packet_told(fate),
        Taken::Snapshots(counts) => *became = counts_told(counts),
        Taken::Refused(refusal) => return u32::from(refusal.number()),
    }
    add_loss(became, moved.loss);
    add_jump(became, moved.jump);
    DONE
}

// Returns what became of a packet.
fn packet_told(fate: PacketFate) -> Became
    ensures { result ≡ packet_told fate }
{
    Became {
        kind: 1,
        fate: fate_number(fate),
        ..NOTHING
    }
}

// Returns the number of a fate.
fn fate_number(fate: PacketFate) -> u32
    ensures { result ≡ fate_number fate }
{
    match fate {
        PacketFate::First => 0,
        PacketFate::Repeat => 1,
        PacketFate::Past => 2,
        PacketFate::Late => 3,
        PacketFate::AfterClose => 4,
    }
}

// Returns what became of snapshots.
fn counts_told(counts: SnapshotCounts) -> Became
    ensures { result ≡ counts_told counts }
{
    Became {
        kind: 2,
        news: counts.news as u64,
        older: counts.older as u64,
        unlisted: counts.unlisted as u64,
        after_close: counts.after_close as u64,
        ..NOTHING
    }
}

// Adds a loss, if there is one.
fn add_loss(became: &mut Became, loss: Option<Loss>)
    ensures { became.new ≡ loss_told became.old loss }
{
    if let Some(loss) = loss {
        became.has_loss = 1;
        became.loss_next = loss.next;
        became.loss_highest = loss.highest;
    }
}

// Adds a jump, if there is one.
fn add_jump(became: &mut Became, jump: Option<Jump>)
    ensures { became.new ≡ jump_told became.old jump }
{
    if let Some(jump) = jump {
        became.has_jump = 1;
        became.jump_old = jump.old;
        became.jump_new = jump.new;
    }
}
