//! What the lines of a book begin with.

ghost use Rattle.std.specs.Prelude.{◌≡◌, ◌++◌, codes};
ghost use Rattle.mdp_print.specs.Texts.{head_text};

use crate::pieces::put_event;
use mdp_books::{EventEnd, TextFromEnd};
use mdp_templates::Name;
use std::marker::Model;

// Two letters, two spaces, and 62 bytes at most of where an event ends.
type HeadText = TextFromEnd<72>;

/// What the lines of a book have behind their letter: where the event ends, whose book it is, and the letter of bids.
/// It is put together once for all of them, and takes no memory.
#[derive(Drop)]
pub struct Head {
    /// The letter of direct sides, in the place of which another line has its own, and what stands behind it.
    text: HeadText,
}

impl Model for Head {
    ghost use Rattle.std.specs.Prelude.{◌≡◌, List, ℕ, take, drop, codes};

    ghost Value = { List ℕ };

    ghost view = { λ h. drop 1 h.text };

    ghost invariant = { λ h. take 1 h.text ≡ codes "D" };
}

impl Head {
    /// Puts together what the lines of a book have behind their letter where an event ends.
    pub fn new(end: EventEnd, name: &Name) -> Head
        ensures { result ≡ head_text end name.now }
    {
        let mut text = HeadText::new();
        text.put_bytes(b" B");
        put_event(&mut text, end, name);
        text.put_byte(b' ');
        text.put_byte(b'D');
        Head { text }
    }

    /// Lends the letter of direct sides and the text behind it.
    #[inline]
    pub(crate) fn as_slice(&self) -> &[u8]
        ensures { result.now ≡ codes "D" ++ self.now }
    {
        self.text.as_slice()
    }
}
