//! Packets of the incremental feed.

ghost use Rattle.std.specs.Prelude.{◌≡◌, ◌≤◌, ◌<◌, ◌+◌, ◌++◌, ◌∷◌, [], length, take, drop, slice_get, Some, IfOk, OnErr, OnOk};
ghost use Rattle.mdp_templates.specs.Packet.{PacketContent, MessageContent};
ghost use Rattle.mdp_templates.specs.Spans.{AreWithin, messages_at, packet_with};

use crate::entry::Entry;
use crate::fault::Memory;
use crate::spans::{Span, Spans};
use std::alloc::Allocator;
use std::marker::Model;

/// A message of a packet, lent, seen as its entries, at most 255, and whether it ends its event. A message that
/// is stepped over has no entries and ends nothing.
#[derive(Drop)]
pub struct Message<'a> {
    entries: &'a [Entry],
    end: bool,
}

impl<'a> Model for Message<'a> {
    ghost use Rattle.std.specs.Prelude.{◌≤◌, length};
    ghost use Rattle.mdp_templates.specs.Packet.{MessageContent};

    ghost Value = { MessageContent };

    ghost view = { λ m. record { entries = m.entries.now; end = m.end } };

    ghost invariant = { λ m. length m.entries.now ≤ 255 };
}

impl<'a> Message<'a> {
    /// Lends the entries, in the order of the datagram.
    pub fn entries(&self) -> &'a [Entry]
        ensures items { result.now ≡ self.now.entries }
        ensures few { length self.now.entries ≤ 255 }
    {
        self.entries
    }

    /// Returns whether the message is the last of its event (MDP 3.0, the match event indicator's bit 7).
    pub fn is_end(&self) -> bool
        ensures { result ≡ self.now.end }
    {
        self.end
    }
}

/// A packet of the incremental feed, seen as its number and its messages. The entries of all messages lie in one list.
#[derive(Drop)]
pub struct Packet<A: Allocator> {
    pub(crate) number: u32,
    pub(crate) entries: Vec<Entry, A>,
    pub(crate) spans: Spans<A>,
}

impl<A: Allocator> Model for Packet<A> {
    ghost use Rattle.std.specs.Prelude.{length};
    ghost use Rattle.mdp_templates.specs.Packet.{PacketContent};
    ghost use Rattle.mdp_templates.specs.Spans.{AreWithin, messages_at};

    ghost Value = { PacketContent };

    ghost view = { λ p. record { number = p.number; messages = messages_at p.entries.items p.spans } };

    ghost invariant = { λ p. AreWithin (length p.entries.items) p.spans };
}

// Lends the entries of a message.
fn entries_at(entries: &[Entry], span: Span) -> &[Entry]
    requires { span.start + span.count ≤ length entries.now }
    ensures items { result.now ≡ take span.count (drop span.start entries.now) }
    ensures few { length result.now ≤ 255 }
{
    let end = span.start + usize::from(span.count);
    &entries[span.start..end]
}

impl<A: Allocator> Packet<A> {
    // Makes a packet of messages whose entries lie there.
    pub(crate) fn of_spans(number: u32, entries: Vec<Entry, A>, spans: Spans<A>) -> Packet<A>
        requires { AreWithin (length entries.items) spans }
        ensures { result ≡ record { number = number; messages = messages_at entries.items spans } }
    {
        Packet {
            number,
            entries,
            spans,
        }
    }

    /// Returns the packet sequence number.
    pub fn number(&self) -> u32
        ensures { result ≡ self.now.number }
    {
        self.number
    }

    /// Returns how many messages there are, those that are stepped over too.
    pub fn len(&self) -> usize
        ensures { result ≡ length self.now.messages }
    {
        self.spans.as_slice().len()
    }

    /// Lends the message at place `n`, from 0, in the order of the datagram.
    pub fn message(&self, n: usize) -> Message<'_>
        requires { n < length self.now.messages }
        ensures { slice_get self.now.messages n ≡ Some result }
    {
        let spans = self.spans.as_slice();
        let span = spans[n];
        Message {
            entries: entries_at(&self.entries, span),
            end: span.end,
        }
    }
}

impl<A: Allocator + Copy> Packet<A> {
    /// Makes a packet with no messages; it takes no memory.
    pub fn new(alloc: A, number: u32) -> Packet<A>
        ensures { result ≡ record { number = number; messages = [] } }
    {
        Packet::of_spans(number, Vec::new(alloc), Spans::new())
    }

    /// Adds a message of these entries behind the others.
    ///
    /// # Errors
    ///
    /// Memory ran out. Then the packet is as before.
    pub fn push(&mut self, entries: &[Entry], end: bool) -> Result<(), Memory>
        requires { length entries.now ≤ 255 }
        ensures ok { OnOk result (self.new
            ≡ packet_with (record { entries = entries.now; end = end }) self.old) }
        ensures err { OnErr result (self.new ≡ self.old) }
    {
        let alloc = *self.entries.allocator();
        let start = self.entries.len();
        let count = entries.len() as u8;
        self.entries.extend_from_slice(entries)?;
        self.spans.push(alloc, Span { start, count, end })?;
        Ok(())
    }

    /// Makes an equal packet, or answers want of memory.
    pub fn copy(&self, alloc: A) -> Result<Packet<A>, Memory>
        ensures { IfOk result (λ p. p ≡ self.now) }
    {
        let entries = Vec::from_slice(alloc, self.entries.as_slice())?;
        let spans = Spans::from_slice(alloc, self.spans.as_slice())?;
        Ok(Packet {
            number: self.number,
            entries,
            spans,
        })
    }
}
