//! What a datagram moved.

ghost use Rattle.std.specs.Prelude.{◌≡◌, ◌≤◌};
ghost use Rattle.mdp_templates.specs.Incremental.{IsPacket};
ghost use Rattle.mdp_templates.specs.Packet.{PacketContent};
ghost use Rattle.mdp_receiver.specs.Moved.{came_while_open, loss_told};

use crate::taken::Taken;
use mdp_arbiter::{PacketFate, Standing};
use mdp_sbe::Header;

/// What a datagram moved. One datagram may lose the receiver and end with a jump.
#[derive(Clone, Copy, Debug, PartialEq, Eq)]
pub struct Moved {
    /// The receiver was made lost; none where it was lost before.
    pub loss: Option<Loss>,
    /// Recovery went on at another number. Then every book was replaced by its security's snapshot. There is no second
    /// jump in a datagram.
    pub jump: Option<Jump>,
}

/// The receiver was made lost: the packet that comes next is given up, since one came that is the window or more past
/// it. It is told once for each time that the receiver is lost. One that joins a channel is lost from the beginning,
/// and loses nothing before its first jump.
#[derive(Clone, Copy, Debug, PartialEq, Eq)]
pub struct Loss {
    /// The number of the packet that is given up, 1 to 4294967294.
    pub next: u64,
    /// The number of the packet that came, which is the highest so far, 2 to 4294967295.
    pub highest: u64,
}

/// Recovery went on at another number, over the packets between them, with a snapshot of each listed security, by
/// which its book was replaced. Packets that waited behind the jump have passed since.
#[derive(Clone, Copy, Debug, PartialEq, Eq)]
pub struct Jump {
    /// The number of the packet that was to pass next before the jump, 1 to 4294967294.
    pub old: u64,
    /// The number that recovery went on at, 1 to 4294967296: greater than `old`, but that a first jump, which joins,
    /// may stay at 1.
    pub new: u64,
}

// Returns the number of a datagram's packet; of one that is no packet, any number.
pub(crate) fn packet_number(bytes: &[u8]) -> u32
    ensures { (packet : PacketContent) → IsPacket bytes.now packet → result ≡ packet.number }
{
    match Header::read(bytes) {
        Ok(header) => header.number,
        Err(_) => 0,
    }
}

// Returns whether a datagram was a packet, and the channel was open.
fn came_while_open(taken: Taken) -> bool
    ensures { result ≡ came_while_open taken }
{
    match taken {
        Taken::Packet(PacketFate::AfterClose) => false,
        Taken::Packet(_) => true,
        Taken::Snapshots(_) => false,
        Taken::Refused(_) => false,
    }
}

// Returns how a datagram made the receiver lost, of which this became, with the number of its packet, where the channel
// stood so before it.
pub(crate) fn loss_told(before: Standing, room: u64, taken: Taken, number: u32) -> Option<Loss>
    requires next { before.next ≤ 4294967296 }
    requires room { room ≤ 65536 }
    ensures { result ≡ loss_told before room taken number }
{
    if before.lost {
        return None;
    }
    if !came_while_open(taken) {
        return None;
    }
    let highest = u64::from(number);
    if highest < before.next + room {
        return None;
    }
    Some(Loss {
        next: before.next,
        highest,
    })
}
