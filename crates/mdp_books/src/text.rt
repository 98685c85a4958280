//! A text that is edited in place.

ghost use Rattle.std.specs.Prelude.{◌≡◌, ◌≤◌, ◌+◌, ◌-◌, [], length, take, drop};
ghost use Rattle.std.specs.List.{splice, copy_within};

use std::marker::Model;

/// A text of at most `MOST` bytes, any part of which may give way to another. It takes no memory.
#[derive(Drop)]
pub struct Text<const MOST: usize> {
    bytes: [u8; MOST],
    end: usize,
}

impl<const MOST: usize> Model for Text<MOST> {
    ghost use Rattle.std.specs.Prelude.{◌≤◌, ℕ, List, take};

    ghost Value = { List ℕ };

    ghost view = { λ t. take t.end t.bytes };

    ghost invariant = { λ t. t.end ≤ MOST };
}

impl<const MOST: usize> Text<MOST> {
    /// Makes a text with no byte yet.
    #[inline]
    pub fn new() -> Text<MOST>
        ensures { result ≡ [] }
    {
        Text {
            bytes: [0; MOST],
            end: 0,
        }
    }

    /// Lends the text.
    #[inline]
    pub fn as_slice(&self) -> &[u8]
        ensures { result.now ≡ self.now }
    {
        let all = &self.bytes[..];
        &all[..self.end]
    }

    /// Lends the bytes from `from` on and below `to`.
    #[inline]
    pub fn part(&self, from: usize, to: usize) -> &[u8]
        requires order { from ≤ to }
        requires inside { to ≤ length self.now }
        ensures { result.now ≡ take (to - from) (drop from self.now) }
    {
        let all = self.as_slice();
        &all[from..to]
    }

    /// Puts a piece in the place of the bytes from `from` on and below `to`; those behind move along.
    #[inline]
    pub fn splice(&mut self, from: usize, to: usize, piece: &[u8])
        requires order { from ≤ to }
        requires inside { to ≤ length self.old }
        requires room { length self.old + length piece.now ≤ MOST + (to - from) }
        ensures { self.new ≡ splice self.old from to piece.now }
    {
        let behind = from + piece.len();
        let kept = self.end - to;
        let all = &mut self.bytes[..];
        move_part(all, to, self.end, behind);
        all[from..behind].copy_from_slice(piece);
        self.end = behind + kept;
    }
}

// Moves the bytes from `from` on and below `end` to `to` on, where they do not stand there already.
#[inline]
#[tactic(auto, using(crate::proofs::Pieces::moved_nowhere))]
fn move_part(all: &mut [u8], from: usize, end: usize, to: usize)
    requires order { from ≤ end }
    requires inside { end ≤ length all.old }
    requires room { to + (end - from) ≤ length all.old }
    ensures { all.new ≡ copy_within all.old from end to }
{
    if to != from {
        all.copy_within(from..end, to);
    }
}
