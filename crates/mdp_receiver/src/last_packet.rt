//! The datagram of the newest packet: the second copy of a packet, which mostly comes right behind the first, need not
//! be decoded.

ghost use Rattle.std.specs.Prelude.{IfSome};
ghost use Rattle.mdp_receiver.specs.Copies.{IsPacketOf};

use mdp_templates::Memory;
use std::alloc::Allocator;
use std::marker::Model;

/// The bytes of the newest datagram that was read as a packet, and the packet's number, seen as that number; none
/// before the first.
#[derive(Drop)]
pub struct LastPacket<A: Allocator> {
    bytes: Vec<u8, A>,
    number: Option<u32>,
}

impl<A: Allocator> Model for LastPacket<A> {
    ghost use Rattle.std.specs.Prelude.{ℕ, Option, IfSome};
    ghost use Rattle.mdp_receiver.specs.Copies.{IsPacketOf};

    ghost Value = { Option ℕ };

    ghost view = { λ l. l.number };

    ghost invariant = { λ l. IfSome l.number (IsPacketOf l.bytes.items) };
}

impl<A: Allocator> LastPacket<A> {
    /// Knows no packet yet, and takes no memory.
    pub fn new(alloc: A) -> LastPacket<A> {
        LastPacket {
            bytes: Vec::new(alloc),
            number: None,
        }
    }

    /// Returns the number of the packet that these bytes are, where they are those of the newest one.
    pub fn number_of(&self, bytes: &[u8]) -> Option<u32>
        ensures { IfSome result (IsPacketOf bytes.now) }
    {
        if self.bytes.as_slice() != bytes {
            return None;
        }
        self.number
    }

    /// Keeps the bytes of a packet of this number, in the place of those before.
    ///
    /// # Errors
    ///
    /// Memory ran out.
    pub fn keep(&mut self, bytes: &[u8], number: u32) -> Result<(), Memory>
        requires { IsPacketOf bytes.now number }
    {
        self.number = None;
        self.bytes.clear();
        self.bytes.extend_from_slice(bytes)?;
        self.number = Some(number);
        Ok(())
    }
}
