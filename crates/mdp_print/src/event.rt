//! What the lines of an event end have in common.

ghost use Rattle.std.specs.Prelude.{◌≡◌, ◌≤◌, length};
ghost use Rattle.mdp_print.specs.Texts.{event_front};

use mdp_books::{EventEnd, TextFromEnd};
use std::marker::Model;

// Two numbers of at most 20 digits, a dot and a space.
type FrontText = TextFromEnd<42>;

/// An event end, with its packet and message as text. It is put together once for all audit lines that are printed
/// there, and takes no memory.
#[derive(Drop)]
pub struct EventText {
    end: EventEnd,
    front: FrontText,
}

impl Model for EventText {
    ghost use Rattle.std.specs.Prelude.{◌≡◌, ◌≤◌, length};
    ghost use Rattle.mdp_books.specs.declared.event_end.EventEnd.{EventEnd};
    ghost use Rattle.mdp_print.specs.Texts.{event_front};

    ghost Value = { EventEnd };

    ghost view = { λ e. e.end };

    ghost invariant = { λ e. e.front ≡ event_front e.end × length e.front ≤ 42 };
}

// Puts together where an event ends, with a space behind it.
#[inline]
fn front_of(end: EventEnd) -> FrontText
    ensures text { result ≡ event_front end }
    ensures size { length result ≤ 42 }
{
    let mut front = FrontText::new();
    front.put_byte(b' ');
    front.put_number(end.message);
    front.put_byte(b'.');
    front.put_number(u64::from(end.packet));
    front
}

impl EventText {
    /// Puts together what the lines of an event end have in common.
    pub fn new(end: EventEnd) -> EventText
        ensures { result ≡ end }
    {
        let front = front_of(end);
        EventText { end, front }
    }

    /// Gives the event end.
    #[inline]
    pub fn end(&self) -> EventEnd
        ensures { result ≡ self.now }
    {
        self.end
    }

    /// Lends the text: the packet, a dot, the message and a space.
    #[inline]
    pub(crate) fn as_slice(&self) -> &[u8]
        ensures text { result.now ≡ event_front self.now }
        ensures size { length result.now ≤ 42 }
    {
        self.front.as_slice()
    }
}
