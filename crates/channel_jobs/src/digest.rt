//! A digest of all that a job answers.

use std::io;

/// How many bytes are mixed in at once.
const BLOCK: usize = 64;

/// A digest of words and of text, in the order in which they come. Where one write of text ends and the next begins changes
/// nothing.
#[derive(Drop)]
pub struct Digest {
    lanes: [u64; 8],
    held: [u8; BLOCK],
    count: usize,
}

// Mixes a word into a lane.
#[inline]
fn mixed(lane: u64, word: u64) -> u64 {
    (lane ^ word)
        .wrapping_mul(0x9e37_79b9_7f4a_7c15)
        .rotate_left(29)
}

// Mixes a block into the lanes, a word into each.
#[inline]
fn mix_block(lanes: &mut [u64; 8], block: &[u8; BLOCK]) {
    let (words, _) = block.as_chunks::<8>();
    for (lane, word) in lanes.iter_mut().zip(words) {
        *lane = mixed(*lane, u64::from_le_bytes(*word));
    }
}

impl Digest {
    /// Has taken nothing.
    pub fn new() -> Digest {
        Digest {
            lanes: [1, 2, 3, 4, 5, 6, 7, 8],
            held: [0; BLOCK],
            count: 0,
        }
    }

    /// Takes a word, beside the text.
    pub fn put(&mut self, word: u64) {
        self.lanes[0] = mixed(self.lanes[0], word);
    }

    /// Gives the digest of all that was taken.
    pub fn value(&self) -> u64 {
        let mut value = self.count as u64;
        for byte in self.held.iter().take(self.count) {
            value = mixed(value, u64::from(*byte));
        }
        for lane in self.lanes {
            value = mixed(value, lane);
        }
        value
    }

    // Fills up what is held with a text's first bytes, and tells how many it took.
    fn fill(&mut self, text: &[u8]) -> usize {
        let Some(room) = self.held.get_mut(self.count..) else {
            return 0;
        };
        let taken = room.len().min(text.len());
        room[..taken].copy_from_slice(&text[..taken]);
        self.count += taken;
        if self.count == BLOCK {
            mix_block(&mut self.lanes, &self.held);
            self.count = 0;
        }
        taken
    }

    /// Takes text.
    pub fn put_text(&mut self, text: &[u8]) {
        let taken = if self.count == 0 { 0 } else { self.fill(text) };
        let left = text.get(taken..).unwrap_or(&[]);
        let (blocks, rest) = left.as_chunks::<BLOCK>();
        for block in blocks {
            mix_block(&mut self.lanes, block);
        }
        let _ = self.fill(rest);
    }
}

impl io::Write for Digest {
    fn write(&mut self, bytes: &[u8]) -> io::Result<usize> {
        self.put_text(bytes);
        Ok(bytes.len())
    }

    fn flush(&mut self) -> io::Result<()> {
        Ok(())
    }
}
