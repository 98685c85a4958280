//! Bytes that digits spell, and blocks of memory, each for the bytes of many datagrams.

ghost use Rattle.std.specs.Prelude.{◌≡◌, ◌≤◌, ◌*◌, [], length, true, Ok, OnOk, IfOk, IfSome};
ghost use Rattle.hex.specs.Hex.{decode_of};
ghost use Rattle.mdp_capture.specs.Repeats.{Spells};

use crate::lanes::{LANES, put_lanes};
use bytes::{Bytes, BytesMut};
use mdp_templates::LONGEST_DATAGRAM;
use std::alloc::{AllocError, Allocator};

/// How many bytes a block has.
const BLOCK: usize = 65536;

/// The block that datagrams are decoded into, one behind the other. It goes with the last record that has bytes in it.
#[derive(Drop)]
pub(crate) struct Blocks<A: Allocator> {
    room: BytesMut<A>,
}

// Writes the bytes that digits spell, two digits a byte, and returns whether they are digits. Where others stand among
// them, the bytes mean nothing.
fn put_bytes(digits: &[u8], bytes: &mut [u8]) -> bool
    requires { length digits.now ≡ 2 * length bytes.old }
    ensures { result ≡ true → decode_of digits.now ≡ Ok bytes.new }
{
    if bytes.len() < LANES {
        return hex::decode_to_slice(digits, bytes).is_ok();
    }
    put_lanes(digits, bytes)
}

// Makes room for so many bytes, and forgets those that are there. Where too few fit, it is a new one of this size.
fn make_room<A: Allocator + Copy>(
    alloc: A,
    count: usize,
    size: usize,
    room: &mut BytesMut<A>,
) -> Result<(), AllocError>
    requires { count ≤ size }
    ensures empty { OnOk result (room.new.items ≡ []) }
    ensures enough { OnOk result (count ≤ room.new.spare) }
{
    room.clear();
    if room.capacity() < count {
        *room = BytesMut::with_capacity(alloc, size)?;
    }
    Ok(())
}

/// Decodes digits into a room, in the place of what is there, and returns whether they spell a datagram's bytes. Where
/// they don't, and where memory ran out, what is there means nothing. Where too few bytes fit, the room is a new one of
/// this size, 2,048 bytes or more.
pub(crate) fn decode_into<A: Allocator + Copy>(
    alloc: A,
    digits: &[u8],
    size: usize,
    room: &mut BytesMut<A>,
) -> Result<bool, AllocError>
    requires { LONGEST_DATAGRAM ≤ size }
    ensures { IfOk result (λ is_spelt. is_spelt ≡ true → Spells digits.now room.new.items) }
{
    let count = digits.len() / 2;
    if digits.len() % 2 != 0 || count == 0 || count > LONGEST_DATAGRAM {
        return Ok(false);
    }
    make_room(alloc, count, size, room)?;
    room.advance_mut(count);
    let is_spelt = put_bytes(digits, room.as_mut_slice());
    Ok(is_spelt)
}

impl<A: Allocator + Copy> Blocks<A> {
    /// Makes a place for blocks, of which there is none yet.
    pub(crate) fn new(alloc: A) -> Blocks<A> {
        Blocks {
            room: BytesMut::new(alloc),
        }
    }

    /// Gives the bytes that digits spell, where they are a datagram's.
    pub(crate) fn decode(&mut self, alloc: A, digits: &[u8]) -> Result<Option<Bytes<A>>, AllocError>
        ensures { IfOk result (λ read. IfSome read (λ bytes. Spells digits.now bytes)) }
    {
        if !decode_into(alloc, digits, BLOCK, &mut self.room)? {
            return Ok(None);
        }
        let count = self.room.len();
        let bytes = self.room.freeze_to(count)?;
        Ok(Some(bytes))
    }
}
