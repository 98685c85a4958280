//! The packet header.

ghost use Rattle.std.specs.Prelude.{◌≡◌, ◌<◌, length, IfOk, IfErr};

use crate::number::{u32_at, u64_at};
use crate::refusal::Refusal;

/// The header of a packet (MDP 3.0, the binary packet header).
#[derive(Clone, Copy, Debug, PartialEq, Eq)]
pub struct Header {
    /// The packet sequence number of the channel.
    pub number: u32,
    /// When the packet was sent, in nanoseconds since 1970.
    pub time: u64,
}

impl Header {
    /// The length of a packet header in bytes.
    pub const LENGTH: usize = 12;

    ghost use Rattle.mdp_sbe.specs.Framing.{IsHeader};

    /// Reads the header at the front of a datagram, or refuses one of fewer than 12 bytes.
    pub fn read(text: &[u8]) -> Result<Header, Refusal>
        ensures ok { IfOk result (IsHeader text.now) }
        ensures err { IfErr result (λ r. (r ≡ Refusal.TooShort) × (length text.now < 12)) }
    {
        if text.len() < Header::LENGTH {
            return Err(Refusal::TooShort);
        }
        let number = u32_at(text, 0);
        let time = u64_at(text, 4);
        Ok(Header { number, time })
    }
}
