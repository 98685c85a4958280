//! Reading a datagram of the incremental feeds.

ghost use Rattle.std.specs.Prelude.{◌≡◌, [], IfOk, IfErr, OnOk, ◌<◌, ◌≤◌, ◌+◌, length};
ghost use Rattle.mdp_sbe.specs.Framing.{IsHeader, parts, AreMessages, AreRefused};
ghost use Rattle.mdp_templates.specs.Answer.{OnRefusal};
ghost use Rattle.mdp_templates.specs.Incremental.{IsBook, book_refresh, IsCarrier, IsIncremental, IsRefusedIncremental, IsPacket, IsRefusedPacket, EndsEvent};
ghost use Rattle.mdp_templates.specs.Layout.{IsRefusedLayout};
ghost use Rattle.mdp_templates.specs.Spans.{AddsMessage, AreWithin, entries_in, messages_at};
ghost use Rattle.mdp_templates.specs.Refused.{IsRefusedAs};
ghost use Rattle.mdp_templates.specs.Refused.FeedKind.{incremental};
ghost use Rattle.mdp_sbe.specs.Framing.{IsRefusedRoot};

use crate::entry::Entry;
use crate::fault::Fault;
use crate::layout::read_layout;
use crate::packet::Packet;
use crate::spans::{Span, Spans};
use crate::template::Template;
use mdp_sbe::{Header, Messages, Refusal};
use std::alloc::Allocator;

/// The length of a root block up to its match event indicator, which ends it, in bytes.
const ROOT_LENGTH: u16 = 9;

/// How many entries room is taken for at first, of all messages: few packets have more, and a list of so many is small
/// enough for the C library to take it back from another thread without a lock.
const USUAL_ENTRIES: usize = 5;

/// Bit 7 of the match event indicator: the message is the last of its event.
const LAST_OF_EVENT: u8 = 0x80;

// Returns whether a root block's match event indicator ends the event.
fn ends_event(root: &[u8]) -> bool
    requires { 9 ≤ length root.now }
    ensures { EndsEvent root.now result }
{
    root[8] & LAST_OF_EVENT != 0
}

// Gives the place of a message with no entries, behind so many of the others.
fn no_entries(start: usize, end: bool) -> Span
    ensures { result ≡ record { start = start; count = 0; end = end } }
{
    Span {
        start,
        count: 0,
        end,
    }
}

// Reads a book update: appends its entries, and gives their place.
fn read_book<A: Allocator + Copy>(
    message: &mdp_sbe::Message<'_>,
    entries: &mut Vec<Entry, A>,
) -> Result<Span, Fault>
    ensures ok { IfOk result (AddsMessage
        (IsBook (parts message.now)) entries.old.items entries.new.items) }
    ensures count { IfOk result (λ span. length entries.new.items
        ≡ length entries.old.items + span.count) }
    ensures refused { IfErr result (OnRefusal (IsRefusedLayout book_refresh (parts message.now))) }
{
    let start = entries.len();
    let (root, count) = read_layout::<A, Entry>(message, ROOT_LENGTH, entries)?;
    let end = ends_event(root);
    Ok(Span { start, count, end })
}

// Reads a message of which nothing counts but whether it ends its event, which it tells.
fn read_carrier(message: &mdp_sbe::Message<'_>) -> Result<bool, Refusal>
    ensures ok { IfOk result (λ end. IsCarrier (parts message.now)
        (record { entries = []; end = end })) }
    ensures refused { IfErr result (IsRefusedRoot (parts message.now) 9) }
{
    let (root, _) = message.root(ROOT_LENGTH)?;
    Ok(ends_event(root))
}

// Reads a message by its template: appends its entries, and gives their place.
fn read_message<A: Allocator + Copy>(
    message: &mdp_sbe::Message<'_>,
    entries: &mut Vec<Entry, A>,
) -> Result<Span, Fault>
    ensures ok { IfOk result (AddsMessage
        (IsIncremental (parts message.now)) entries.old.items entries.new.items) }
    ensures count { IfOk result (λ span. length entries.new.items
        ≡ length entries.old.items + span.count) }
    ensures refused { IfErr result (OnRefusal (IsRefusedIncremental (parts message.now))) }
{
    match Template::of(message.template) {
        Template::Book => read_book(message, entries),
        Template::Carrier => Ok(no_entries(entries.len(), read_carrier(message)?)),
        Template::ChannelReset => Err(Fault::Refused(Refusal::ChannelReset)),
        Template::Other => Ok(no_entries(entries.len(), false)),
    }
}

// Reads the header at the front of a packet's text, whose number is 1 or more.
fn read_header(text: &[u8]) -> Result<Header, Refusal>
    ensures header { IfOk result (IsHeader text.now) }
    ensures positive { IfOk result (λ header. 0 < header.number) }
    ensures long { IfOk result (λ _. 12 ≤ length text.now) }
    ensures refused { IfErr result (IsRefusedPacket text.now) }
{
    let header = Header::read(text)?;
    if header.number == 0 {
        return Err(Refusal::NumberZero);
    }
    Ok(header)
}

// Reads all messages into lists of entries and of their places, whatever these held, or answers the first refusal in
// reading order.
fn read_messages<A: Allocator + Copy>(
    alloc: A,
    rest: &[u8],
    entries: &mut Vec<Entry, A>,
    spans: &mut Spans<A>,
) -> Result<(), Fault>
    ensures within { OnOk result (AreWithin (length entries.new.items) spans.new) }
    ensures count { OnOk result (length entries.new.items ≡ entries_in spans.new) }
    ensures ok { OnOk result (AreMessages IsIncremental rest.now
        (messages_at entries.new.items spans.new) []) }
    ensures refused { IfErr result (OnRefusal
        (AreRefused IsIncremental IsRefusedIncremental rest.now)) }
{
    entries.clear();
    spans.clear();
    let mut cursor = Messages::new(rest);
    while let Some(next) = cursor.next() {
        let message = next?;
        let span = read_message(&message, entries)?;
        spans.push(alloc, span)?;
    }
    Ok(())
}

/// Reads a packet of an incremental feed, or answers the first refusal in reading order. A packet with
/// no message is read. Want of memory says nothing of the text.
pub fn read_packet<A: Allocator + Copy>(alloc: A, text: &[u8]) -> Result<Packet<A>, Fault>
    ensures ok { IfOk result (IsPacket text.now) }
    ensures refused { IfErr result (OnRefusal (IsRefusedAs incremental text.now)) }
{
    let header = read_header(text)?;
    let mut entries = Vec::with_capacity(alloc, USUAL_ENTRIES)?;
    let mut spans = Spans::new();
    read_messages(alloc, &text[Header::LENGTH..], &mut entries, &mut spans)?;
    Ok(Packet::of_spans(header.number, entries, spans))
}

/// Reads a packet of an incremental feed as [`read_packet`] does, in the place of another, whose room it takes: it asks
/// for memory only where that had no room yet, or has more entries or messages than that had room for. For entries it
/// asks the allocator that the packet was made with. For the places of more than three messages it asks `alloc` the
/// first time, and that allocator from then on.
///
/// # Errors
///
/// Those of [`read_packet`]. Then nothing is known of the packet but that it is one.
pub fn read_packet_into<A: Allocator + Copy>(
    alloc: A,
    text: &[u8],
    packet: &mut Packet<A>,
) -> Result<(), Fault>
    ensures ok { OnOk result (IsPacket text.now packet.new) }
    ensures refused { IfErr result (OnRefusal (IsRefusedAs incremental text.now)) }
{
    let header = read_header(text)?;
    if packet.entries.capacity() == 0 {
        packet.entries.reserve_exact(USUAL_ENTRIES)?;
    }
    packet.number = header.number;
    let rest = &text[Header::LENGTH..];
    let outcome = read_messages(alloc, rest, &mut packet.entries, &mut packet.spans);
    if outcome.is_err() {
        packet.spans.clear();
    }
    outcome
}
