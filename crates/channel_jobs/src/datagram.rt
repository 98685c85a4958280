//! Datagrams that are made once, and then sent again and again with other numbers and sizes.

use crate::market::{Heard, Market, SIDES, id_of};
use mdp_templates::Action;
use std::alloc::{AllocError, Global};

/// What the messages of a channel say of themselves.
const SCHEMA: u16 = 1;

const VERSION: u16 = 9;

/// How long the fixed parts of book messages and their entries are.
const BOOK_ROOT: u16 = 11;

const BOOK_ENTRY: u16 = 32;

const SNAPSHOT_ROOT: u16 = 16;

const SNAPSHOT_ENTRY: u16 = 22;

/// The types of entries of a book's sides: bids, offers, implied bids and implied offers.
const ENTRY_TYPES: [u8; SIDES] = *b"01EF";

/// A size that stands in a datagram.
#[derive(Clone, Copy)]
pub struct Sized {
    /// The place of its lowest byte, from 0.
    pub at: usize,
    pub size: u16,
}

/// The bytes of a datagram, and where a number and sizes stand in them.
#[derive(Drop)]
pub struct Datagram {
    pub bytes: Vec<u8>,
    /// The place of the number that each turn raises: a packet's own, or that of the last packet that a snapshot includes.
    pub number_at: usize,
    /// That number in the first turn.
    pub number: u32,
    pub sizes: Vec<Sized>,
    /// The slot of a security that it names.
    pub slot: usize,
}

/// Gives a size of as many digits for another turn.
pub fn resized(size: u16, turn: u32) -> u16 {
    let moved = u32::from(size) + turn % 4096 * 7;
    let (least, count) = match size {
        0..10 => (1, 9),
        10..100 => (10, 90),
        _ => (100, 900),
    };
    (least + moved % count) as u16
}

impl Datagram {
    /// Begins a packet of this number.
    pub fn packet(alloc: Global, number: u32) -> Result<Datagram, AllocError> {
        let mut datagram = Datagram {
            bytes: Vec::with_capacity(alloc, 256)?,
            number_at: 0,
            number,
            sizes: Vec::new(alloc),
            slot: 0,
        };
        datagram.put_u32(number)?;
        datagram.put_u32(number.wrapping_mul(500))?;
        datagram.put_u32(0x17f3_2a00)?;
        Ok(datagram)
    }

    fn put_u16(&mut self, number: u16) -> Result<(), AllocError> {
        self.bytes.extend_from_slice(&number.to_le_bytes())
    }

    fn put_u32(&mut self, number: u32) -> Result<(), AllocError> {
        self.bytes.extend_from_slice(&number.to_le_bytes())
    }

    // Puts a message's size, where so many bytes follow its header, and that header.
    fn put_header(&mut self, template: u16, root: u16, body: usize) -> Result<(), AllocError> {
        self.put_u16((10 + body % 4096) as u16)?;
        for number in [root, template, SCHEMA, VERSION] {
            self.put_u16(number)?;
        }
        Ok(())
    }

    /// Puts a heartbeat.
    pub fn put_heartbeat(&mut self) -> Result<(), AllocError> {
        self.put_header(12, 0, 0)
    }

    /// Puts a message of trades, of which only is read whether it ends its event.
    pub fn put_trades(&mut self, ends: bool) -> Result<(), AllocError> {
        self.put_header(48, BOOK_ROOT, usize::from(BOOK_ROOT))?;
        self.put_root(ends)
    }

    // Puts the root of a message of the incremental feed.
    fn put_root(&mut self, ends: bool) -> Result<(), AllocError> {
        self.bytes
            .extend_from_slice(&[0x10, 0x6c, 0x5e, 0x2f, 0x61, 0x1b, 0x8a, 0x17])?;
        let indicator = if ends { 128 } else { 0 };
        self.bytes.extend_from_slice(&[indicator, 0, 0])
    }

    /// Puts a message of book entries, at most 255.
    pub fn put_book(&mut self, heard: &[Heard], ends: bool) -> Result<(), AllocError> {
        let count = heard.len().min(255);
        let group = 3 + usize::from(BOOK_ENTRY) * count;
        self.put_header(46, BOOK_ROOT, usize::from(BOOK_ROOT) + group)?;
        self.put_root(ends)?;
        self.put_u16(BOOK_ENTRY)?;
        self.bytes.push(count as u8)?;
        for it in heard.iter().take(255) {
            self.put_entry(it)?;
        }
        Ok(())
    }

    // Puts an entry of a book message.
    fn put_entry(&mut self, heard: &Heard) -> Result<(), AllocError> {
        let step = &heard.step;
        self.slot = step.slot;
        self.bytes
            .extend_from_slice(&step.level.price.to_le_bytes())?;
        self.put_size(step.level.size)?;
        self.put_u32(id_of(step.slot))?;
        self.put_u32(self.number)?;
        self.put_u32(1)?;
        let action = match step.action {
            Action::New => 0,
            Action::Change => 1,
            Action::Delete => 2,
        };
        let level = (step.place % 16) as u8 + 1;
        let kind = ENTRY_TYPES[step.side % SIDES];
        self.bytes
            .extend_from_slice(&[level, action, kind, 0, 0, 0, 0, 0])
    }

    // Puts a size, and notes where it stands unless it is none.
    fn put_size(&mut self, size: i32) -> Result<(), AllocError> {
        if let Ok(size) = u16::try_from(size) {
            if size > 0 {
                let at = self.bytes.len();
                self.sizes.push(Sized { at, size })?;
            }
        }
        self.bytes.extend_from_slice(&size.to_le_bytes())
    }

    /// Makes a snapshot of the book at a slot as it is after a packet, under an id.
    pub fn snapshot(
        alloc: Global,
        market: &Market,
        slot: usize,
        id: u32,
        last: u32,
    ) -> Result<Datagram, AllocError> {
        let mut datagram = Datagram::packet(alloc, last)?;
        let mut count = 0usize;
        for side in 0..SIDES {
            count = count.saturating_add(market.side(slot, side).len().min(15));
        }
        let count = count.min(255);
        let body = usize::from(SNAPSHOT_ROOT) + 3 + usize::from(SNAPSHOT_ENTRY) * count;
        datagram.put_header(52, SNAPSHOT_ROOT, body)?;
        datagram.slot = slot;
        datagram.number_at = datagram.bytes.len();
        datagram.put_u32(last)?;
        datagram.put_u32(0)?;
        datagram.put_u32(id)?;
        datagram.put_u32(0)?;
        datagram.put_u16(SNAPSHOT_ENTRY)?;
        datagram.bytes.push(count as u8)?;
        for side in 0..SIDES {
            datagram.put_levels(market, slot, side)?;
        }
        Ok(datagram)
    }

    // Puts the entries of a side of a snapshot.
    fn put_levels(&mut self, market: &Market, slot: usize, side: usize) -> Result<(), AllocError> {
        for (place, level) in market.side(slot, side).iter().take(15).enumerate() {
            self.bytes.extend_from_slice(&level.price.to_le_bytes())?;
            self.put_size(level.size)?;
            self.put_u32(1)?;
            let kind = ENTRY_TYPES[side % SIDES];
            let position = (place % 16) as u8 + 1;
            self.bytes.extend_from_slice(&[position, 0, 0, 0, 0, kind])?;
        }
        Ok(())
    }

    /// Takes the number and the sizes of another turn, which begins so many packets later.
    pub fn renew(&mut self, turn: u32, later: u32) {
        let number = self.number.wrapping_add(later).to_le_bytes();
        put_at(&mut self.bytes, self.number_at, &number);
        for it in self.sizes.iter() {
            put_at(
                &mut self.bytes,
                it.at,
                &resized(it.size, turn).to_le_bytes(),
            );
        }
    }
}

// Puts bytes in the place of others, as far as there are any.
fn put_at(bytes: &mut [u8], at: usize, put: &[u8]) {
    if let Some(rest) = bytes.get_mut(at..) {
        let count = rest.len().min(put.len());
        rest[..count].copy_from_slice(&put[..count]);
    }
}
