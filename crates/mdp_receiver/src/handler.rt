//! A handler of one channel, which takes datagrams as they come.

ghost use Rattle.std.specs.Prelude.{◌≡◌, ◌≤◌, [], ◌∷◌, List, true, false, map, slice_get, option_and_then, option_copied, IfOk, IfErr, IsErr, OnErr, OnOk, IfSome};
ghost use Rattle.std.specs.Option.{option_map};
ghost use Rattle.mdp_sbe.specs.Framing.{IsHeader};
ghost use Rattle.mdp_templates.specs.Incremental.{IsPacket};
ghost use Rattle.mdp_templates.specs.Instrument.{AreFit};
ghost use Rattle.mdp_templates.specs.Refused.FeedKind.{incremental};
ghost use Rattle.mdp_print.specs.Pieces.{Appends, BeginsWith};
ghost use Rattle.mdp_print.specs.Texts.{last_line};
ghost use Rattle.mdp_quotes.specs.Consolidation.{consolidation_of, quotes_of};
ghost use Rattle.mdp_quotes.specs.Top.{top_of_book, top_of_quotes};
ghost use Rattle.mdp_templates.specs.declared.instrument.Instrument.{Instrument};
ghost use Rattle.mdp_arbiter.specs.Accepted.{Event as Accepted, came, closed, recovered};
ghost use Rattle.mdp_arbiter.specs.Machine.{is_lost, least_last, snapshots_of, state_at, trace};
ghost use Rattle.mdp_desks.specs.Moments.{Moment, moments};
ghost use Rattle.mdp_engine.specs.Engine.{AreChanged, HasBrokenOff, Stands};
ghost use Rattle.mdp_arbiter.specs.Arbiter.{is_lost_now};
ghost use Rattle.mdp_engine.specs.Steps.{event_of};
ghost use Rattle.mdp_receiver.specs.Copies.{IsPacketOf};
ghost use Rattle.mdp_receiver.specs.Handling.{GoesOn, Handles, HasBrokenOffAt, IsCopy, IsPast, MovesDatagram, TakesDatagram, TakesSaid, is_current, is_within, state_of};
ghost use Rattle.mdp_receiver.specs.Moved.{jump_told, moved_told};
ghost use Rattle.mdp_receiver.specs.Said.{IsSaid, brings, brought_by, kind_of, said_of};

use crate::decoding::{Decoded, decode};
use crate::last_packet::LastPacket;
use crate::moved::{Jump, Moved, loss_told, packet_number};
use crate::taken::{SnapshotCounts, Taken};
use mdp_arbiter::{Standing, Start};
use mdp_books::{Book, Sides};
use mdp_desks::{Desk, Marked};
use mdp_engine::{Engine, Event};
use mdp_print::put_last;
use mdp_quotes::{Consolidated, TopOfBook, are_in_order, merged_top};
use mdp_sbe::Header;
use mdp_templates::{Fault, Feed, Instrument, Memory, Packet, Snapshot, read_packet_into};
use mdp_window::RingWindow;
use std::alloc::Allocator;
use std::marker::Model;
use std::mem;

/// Where a channel stands.
#[derive(Clone, Copy, Debug, PartialEq, Eq)]
pub struct ChannelState {
    /// The number of the packet that comes next, 1 to 4294967296.
    pub next: u64,
    /// Whether the receiver is lost: it has not joined, or that packet is given up.
    pub lost: bool,
    /// The highest number of a packet that came, or `next - 1`, if that is greater.
    pub highest: u64,
    /// How many packets wait for one before them.
    pub waiting: u64,
    /// While it is lost, the slot of the first listed security that a jump waits for: it has no snapshot, or none that
    /// includes all packets that are given up.
    pub stale: Option<usize>,
}

/// How many bytes a datagram has at most that is read into the room of the packet before, so that the room stays small.
const LONGEST_IN_ROOM: usize = 2048;

// Gives the best level of each consolidated side of a good book. Where each of its sides is in order, these levels
// tell, and no side is added up.
fn top_of(sides: &Sides) -> TopOfBook
    ensures { result ≡ top_of_quotes (quotes_of sides.now) }
{
    if are_in_order(sides) {
        return merged_top(sides);
    }
    Consolidated::of_sides(sides).top()
}

// Gives the best level of each consolidated side of a book; none of a faulty one.
fn best_of(book: &Book) -> Option<TopOfBook>
    ensures { result ≡ top_of_book book.now }
{
    match book {
        Book::Good(sides) => Some(top_of(sides)),
        Book::Fault(_) => None,
    }
}

/// A handler of one channel. It takes the datagrams of the channel's feeds as they come, keeps the books of the listed
/// securities, and holds the lines of the event ends until they are cleared; nothing else of it grows, but for room for
/// a packet of some 10 KB. It marks whose books were printed, and can be made to keep no lines. A slot is a security's
/// place among the instruments, from 0.
///
/// Once memory has run out the handler has failed: it takes no more datagrams. What was handed on, with what it holds
/// behind it, is a beginning of the lines, and may break off anywhere; of the marks of what changed nothing is known.
/// All else is answered as before.
pub struct Handler<A: Allocator + Copy> {
    engine: Engine<A, RingWindow<Packet<A>, A>>,
    last: LastPacket<A>,
    /// The packet that was read last of those that were next, whose room the next one takes.
    room: Packet<A>,
}

impl<A: Allocator + Copy> Model for Handler<A> {
    ghost use Rattle.mdp_engine.specs.Engine.{View, view_code};

    ghost Value = { View };

    ghost coded = { view_code };

    ghost view = { λ h. h.engine };
}

// Written out, so that the proof of who lets a handler go has one call there, and not each of its parts at each exit.
impl<A: Allocator + Copy> Drop for Handler<A> {
    fn drop(self) {
        let Handler {
            engine: _,
            last: _,
            room: _,
        } = self;
    }
}

impl<A: Allocator + Copy> Handler<A> {
    /// Makes a handler that has taken nothing, of these instruments, which are fit. The packet `window` numbers after
    /// the next one gives that one up.
    ///
    /// # Errors
    ///
    /// Memory ran out.
    pub fn new(
        alloc: A,
        instruments: &[Instrument],
        window: u32,
        start: Start,
    ) -> Result<Handler<A>, Memory>
        requires fit { AreFit instruments.now }
        requires some { 1 ≤ window }
        requires most { window ≤ 65536 }
        ensures handles { IfOk result (Handles
            (record { listed = instruments.now; room = window; start = start }) [] []) }
        ensures sound { IfOk result (λ handler. handler.has_failed ≡ false) }
        ensures empty { IfOk result (λ handler. handler.held ≡ []) }
        ensures keeps { IfOk result (λ handler. handler.keeps_lines ≡ true) }
    {
        let ring = RingWindow::new(alloc, u64::from(window))?;
        Ok(Handler {
            engine: Engine::new(alloc, instruments, ring, start)?,
            last: LastPacket::new(alloc),
            room: Packet::new(alloc, 0),
        })
    }

    /// Keeps no lines from now on, for those who read books alone, and forgets those that it holds. The marks of what
    /// changed stay, and `clear_lines` lets them go as before.
    pub fn keep_no_lines(&mut self)
        ensures none { self.new ≡ record self.old { held = []; keeps_lines = false } }
        ensures stands { (listed : List Instrument) (events : List Accepted) (gone : List Moment)
            → Stands listed events gone self.old → Stands listed events gone self.new }
    {
        self.engine.keep_no_lines();
    }

    /// Takes a datagram of a feed, and tells what became of it. What it brings is taken in, all moves that are then
    /// possible are made, and the lines that they owe are held. A datagram that is refused changes nothing.
    ///
    /// A packet, or a list of snapshots, asks `alloc` for memory. But a packet that is next and has at most 2,048 bytes
    /// is read into room that is kept from one such packet to another. That room asks the allocator of
    /// [`new`](Handler::new), or of the last call whose packet was read into it and did not pass at once: such a packet
    /// takes the room along, and the call makes it anew. Where a packet has more than three messages, the list of their
    /// places asks the allocator of the first call that needs one, and stays with that room.
    ///
    /// # Errors
    ///
    /// Memory ran out, now or in an earlier call.
    #[tactic(auto, using(crate::proofs::Breaking::nothing_brought))]
    pub fn datagram(&mut self, alloc: A, feed: Feed, bytes: &[u8]) -> Result<Taken, Memory>
        ensures taken { IfOk result (λ taken. TakesDatagram feed bytes.now taken self.old self.new) }
        ensures sound { OnOk result (self.old.has_failed ≡ false) }
        ensures keeps { self.new.keeps_lines ≡ self.old.keeps_lines }
        ensures fails { IfErr result (λ _. self.new.has_failed ≡ true) }
        ensures err { OnErr result (BeginsWith self.new.held self.old.held) }
        ensures begins { OnErr result (HasBrokenOffAt feed bytes.now self.old self.new) }
        ensures stays { self.old.has_failed ≡ true → IsErr result }
        ensures rests { self.old.has_failed ≡ true → self.new ≡ self.old }
    {
        if self.engine.has_failed() {
            return Err(Memory);
        }
        let answer = self.take(alloc, feed, bytes);
        if answer.is_err() {
            self.engine.fail();
        }
        answer
    }

    /// Takes a datagram of a feed as [`datagram`](Handler::datagram) does, and tells beside what became of it what it
    /// moved: that it made the receiver lost, that recovery jumped, both or neither. After a jump every book has
    /// changed. At a jump it looks at each listed security once more than `datagram` does.
    ///
    /// # Errors
    ///
    /// Memory ran out, now or in an earlier call.
    pub fn datagram_with_moves(
        &mut self,
        alloc: A,
        feed: Feed,
        bytes: &[u8],
    ) -> Result<(Taken, Moved), Memory>
        ensures taken { IfOk result
            (λ told. MovesDatagram feed bytes.now told self.old self.new) }
        ensures sound { OnOk result (self.old.has_failed ≡ false) }
        ensures keeps { self.new.keeps_lines ≡ self.old.keeps_lines }
        ensures fails { IfErr result (λ _. self.new.has_failed ≡ true) }
        ensures err { OnErr result (BeginsWith self.new.held self.old.held) }
        ensures begins { OnErr result (HasBrokenOffAt feed bytes.now self.old self.new) }
        ensures stays { self.old.has_failed ≡ true → IsErr result }
        ensures rests { self.old.has_failed ≡ true → self.new ≡ self.old }
    {
        let before = Standing {
            next: self.next(),
            lost: self.lost(),
        };
        let taken = self.datagram(alloc, feed, bytes)?;
        let moved = self.moves_since(before, taken, packet_number(bytes));
        Ok((taken, moved))
    }

    /// Closes the channel: from now on no packet passes, and no snapshot counts.
    ///
    /// # Errors
    ///
    /// Memory ran out in an earlier call.
    pub fn close(&mut self) -> Result<(), Memory>
        ensures goes { OnOk result (GoesOn (closed ∷ []) self.old self.new) }
        ensures keeps { self.new.keeps_lines ≡ self.old.keeps_lines }
        ensures fails { IfErr result (λ _. self.new.has_failed ≡ true) }
        ensures err { OnErr result (BeginsWith self.new.held self.old.held) }
        ensures begins { OnErr result (HasBrokenOff (closed ∷ []) self.old self.new) }
        ensures stays { self.old.has_failed ≡ true → IsErr result }
        ensures rests { self.old.has_failed ≡ true → self.new ≡ self.old }
    {
        self.on(Event::Close)
    }

    /// Lends the lines that are held.
    pub fn lines(&self) -> &[u8]
        ensures { result.now ≡ self.now.held }
    {
        self.engine.lines()
    }

    /// Lends a mark for each slot, set for those whose book an event end printed since lines were cleared last. A book
    /// that an event has changed which has not ended yet is not marked; nor is one that a jump replaced, until an event
    /// end prints it.
    pub fn changed(&self) -> &Marked<A>
        ensures now { result.now ≡ self.now.changed }
        ensures stands { (listed : List Instrument) (events : List Accepted) (gone : List Moment)
            → Stands listed events gone self.now
            → AreChanged listed (moments listed (trace self.now.arbiter.channel events)) gone
            result.now }
    {
        self.engine.changed()
    }

    /// Forgets the lines that are held, since they were handed on, and the marks of what changed.
    pub fn clear_lines(&mut self)
        ensures cleared { self.new
            ≡ record self.old { held = []; changed = map (λ _. false) self.old.changed } }
        ensures stands { (listed : List Instrument) (events : List Accepted) (gone : List Moment)
            → Stands listed events gone self.old
            → Stands listed events (moments listed (trace self.old.arbiter.channel events))
            self.new }
    {
        self.engine.clear_lines();
    }

    /// Returns the number of the packet that comes next, from 1 to 4294967296.
    pub fn next(&self) -> u64
        ensures next { result ≡ self.now.arbiter.next }
        ensures least { 1 ≤ result }
        ensures most { result ≤ 4294967296 }
        ensures stands { (listed : List Instrument) (events : List Accepted) (gone : List Moment)
            → Stands listed events gone self.now
            → result ≡ (state_at self.now.arbiter.channel events).next }
    {
        self.engine.next()
    }

    /// Returns whether the receiver is lost: it has not joined the channel, or the next packet is given up.
    pub fn lost(&self) -> bool
        ensures now { result ≡ is_lost_now self.now.arbiter }
        ensures stands { (listed : List Instrument) (events : List Accepted) (gone : List Moment)
            → Stands listed events gone self.now
            → result ≡ is_lost self.now.arbiter.channel events (state_at self.now.arbiter.channel events) }
    {
        self.engine.lost()
    }

    /// Appends the last line of a run that ends here.
    ///
    /// # Errors
    ///
    /// Memory ran out. Then nothing is appended.
    pub fn put_end(&self, out: &mut Vec<u8, A>) -> Result<(), Memory>
        ensures { Appends (last_line self.now.arbiter.next (is_lost_now self.now.arbiter))
            out.old out.new result }
    {
        put_last(out, self.next(), self.lost())
    }

    /// Returns where the channel stands.
    pub fn state(&self) -> ChannelState
        ensures { result ≡ state_of self.now }
    {
        let arbiter = self.engine.arbiter();
        let lost = arbiter.lost();
        ChannelState {
            next: arbiter.next(),
            lost,
            highest: arbiter.highest(),
            waiting: arbiter.waiting(),
            stale: if lost { arbiter.first_stale() } else { None },
        }
    }

    /// Lends the book at a slot, whole: its four sides, or the place of its fault.
    pub fn book(&self, slot: usize) -> Option<&Book>
        ensures { option_copied result ≡ option_map (λ d. d.book) (slice_get self.now.desks slot) }
    {
        match self.desk(slot) {
            Some(desk) => Some(desk.book.book()),
            None => None,
        }
    }

    /// Gives the consolidated levels of the book at a slot; none where the book is faulty or no security is listed
    /// there.
    pub fn consolidated(&self, slot: usize) -> Option<Consolidated>
        ensures { result
            ≡ option_and_then (λ d. consolidation_of d.book) (slice_get self.now.desks slot) }
    {
        match self.desk(slot) {
            Some(desk) => desk.book.consolidated(),
            None => None,
        }
    }

    /// Gives the best level of each consolidated side of the book at a slot; none where the book is faulty or no
    /// security is listed there.
    pub fn best(&self, slot: usize) -> Option<TopOfBook>
        ensures { result
            ≡ option_and_then (λ d. top_of_book d.book) (slice_get self.now.desks slot) }
    {
        match self.desk(slot) {
            Some(desk) => best_of(desk.book.book()),
            None => None,
        }
    }

    /// Returns whether the book at a slot is the complete feed's right before the packet that comes next: no packet is
    /// given up, and the security's snapshot includes none that is still to come.
    pub fn is_current(&self, slot: usize) -> bool
        ensures { result ≡ is_current self.now slot }
    {
        !self.engine.lost() && self.is_within(slot)
    }

    // Lends the desk at a slot.
    fn desk(&self, slot: usize) -> Option<&Desk>
        ensures { option_copied result ≡ slice_get self.now.desks slot }
    {
        self.engine.desks().get(slot)
    }

    // Returns what a datagram moved, of which this became, with the number of its packet, where the channel stood so
    // before it.
    fn moves_since(&self, before: Standing, taken: Taken, number: u32) -> Moved
        requires { before.next ≤ 4294967296 }
        ensures { result ≡ moved_told before taken number self.now.arbiter }
    {
        let loss = loss_told(before, self.engine.arbiter().room(), taken, number);
        let was_lost = before.lost || loss.is_some();
        Moved {
            loss,
            jump: self.jump_since(was_lost, before.next),
        }
    }

    // Returns the jump from a number, where the receiver was lost, and is no more.
    fn jump_since(&self, was_lost: bool, old: u64) -> Option<Jump>
        ensures { result ≡ jump_told was_lost (is_lost_now self.now.arbiter) old
            (least_last (snapshots_of self.now.arbiter.bases)) }
    {
        if !was_lost {
            return None;
        }
        if self.lost() {
            return None;
        }
        match self.engine.arbiter().least_base() {
            Some(last) => Some(Jump {
                old,
                new: u64::from(last) + 1,
            }),
            None => None,
        }
    }

    // Returns whether the snapshot of the book at a slot includes no packet that is still to come.
    fn is_within(&self, slot: usize) -> bool
        ensures { result ≡ is_within self.now.arbiter.next (slice_get self.now.desks slot) }
    {
        match self.desk(slot) {
            Some(desk) => u64::from(desk.base) < self.engine.next(),
            None => false,
        }
    }

    // Takes an event; the lines that it owes are held.
    fn on(&mut self, event: Event<A>) -> Result<(), Memory>
        ensures goes { OnOk result (GoesOn (event_of event ∷ []) self.old self.new) }
        ensures keeps { self.new.keeps_lines ≡ self.old.keeps_lines }
        ensures fails { IfErr result (λ _. self.new.has_failed ≡ true) }
        ensures front { BeginsWith self.new.held self.old.held }
        ensures begins { OnErr result (HasBrokenOff (event_of event ∷ []) self.old self.new) }
        ensures stays { self.old.has_failed ≡ true → IsErr result }
        ensures rests { self.old.has_failed ≡ true → self.new ≡ self.old }
    {
        self.engine.on(event)
    }

    // Takes a snapshot; the lines that it owes are held.
    fn on_snapshot(&mut self, snapshot: &Snapshot) -> Result<(), Memory>
        ensures goes { OnOk result (GoesOn (recovered snapshot.now ∷ []) self.old self.new) }
        ensures keeps { self.new.keeps_lines ≡ self.old.keeps_lines }
        ensures front { BeginsWith self.new.held self.old.held }
        ensures begins { OnErr result
            (HasBrokenOff (recovered snapshot.now ∷ []) self.old self.new) }
    {
        self.engine.on_snapshot(snapshot)
    }

    // Takes a datagram of a feed.
    #[tactic(auto, using(crate::proofs::Breaking::nothing_brought))]
    fn take(&mut self, alloc: A, feed: Feed, bytes: &[u8]) -> Result<Taken, Memory>
        ensures taken { IfOk result (λ taken. TakesDatagram feed bytes.now taken self.old self.new) }
        ensures keeps { self.new.keeps_lines ≡ self.old.keeps_lines }
        ensures front { BeginsWith self.new.held self.old.held }
        ensures begins { OnErr result (HasBrokenOffAt feed bytes.now self.old self.new) }
    {
        if let Some(number) = self.copied(feed, bytes) {
            return Ok(Taken::Packet(self.engine.arbiter().fate_of(number)));
        }
        if self.is_next(feed, bytes) {
            return self.take_next(alloc, bytes);
        }
        let decoded = decode(alloc, feed, bytes)?;
        self.keep(feed, bytes, &decoded)?;
        self.take_in(decoded)
    }

    // Returns the number of the packet that a datagram is, where it is the second copy of one that has passed.
    fn copied(&self, feed: Feed, bytes: &[u8]) -> Option<u32>
        ensures { IfSome result (λ number. IsCopy feed bytes.now number self.now) }
    {
        match feed {
            Feed::A => self.past_number(bytes),
            Feed::B => self.past_number(bytes),
            Feed::S => None,
        }
    }

    // Returns the number of the newest packet, where these are its bytes and it has passed.
    fn past_number(&self, bytes: &[u8]) -> Option<u32>
        ensures packet { IfSome result (IsPacketOf bytes.now) }
        ensures past { IfSome result (λ number. IsPast number self.now) }
    {
        match self.last.number_of(bytes) {
            Some(number) => self.if_past(number),
            None => None,
        }
    }

    // Gives a number back where it has passed or was given up.
    fn if_past(&self, number: u32) -> Option<u32>
        ensures same { IfSome result (λ past. past ≡ number) }
        ensures past { IfSome result (λ past. IsPast past self.now) }
    {
        if self.engine.is_past(number) {
            return Some(number);
        }
        None
    }

    // Returns whether a datagram of this feed bears the number of the packet that comes next.
    fn is_next(&self, feed: Feed, bytes: &[u8]) -> bool
        ensures { result ≡ true → kind_of feed ≡ incremental }
    {
        match feed {
            Feed::A => self.has_next_number(bytes),
            Feed::B => self.has_next_number(bytes),
            Feed::S => false,
        }
    }

    // Returns whether a datagram begins with the number of the packet that comes next, and may be read into the room.
    fn has_next_number(&self, bytes: &[u8]) -> bool
        ensures { result ≡ true → (header : Header) × IsHeader bytes.now header
            × (header.number ≡ self.now.arbiter.next) }
    {
        match Header::read(bytes) {
            Ok(header) => {
                u64::from(header.number) == self.engine.next() && bytes.len() <= LONGEST_IN_ROOM
            }
            Err(_) => false,
        }
    }

    // Takes a datagram of feed A or B that bears the number of the packet that comes next. Such a packet mostly passes
    // at once, and is read into the room of the one before; one that doesn't takes the room along.
    fn take_next(&mut self, alloc: A, bytes: &[u8]) -> Result<Taken, Memory>
        ensures taken { IfOk result
            (λ taken. TakesDatagram Feed.A bytes.now taken self.old self.new) }
        ensures keeps { self.new.keeps_lines ≡ self.old.keeps_lines }
        ensures front { BeginsWith self.new.held self.old.held }
        ensures begins { OnErr result (HasBrokenOffAt Feed.A bytes.now self.old self.new) }
    {
        match read_packet_into(alloc, bytes, &mut self.room) {
            Ok(()) => {}
            Err(Fault::Refused(refusal)) => return Ok(Taken::Refused(refusal)),
            Err(Fault::Memory) => return Err(Memory),
        }
        let number = self.room.number();
        self.last.keep(bytes, number)?;
        let fate = self.engine.arbiter().fate_of(number);
        if self.engine.on_next(&self.room)? {
            return Ok(Taken::Packet(fate));
        }
        let packet = mem::replace(&mut self.room, Packet::new(alloc, 0));
        self.pass(packet)
    }

    // Keeps the bytes of a datagram that was decoded as a packet.
    fn keep(&mut self, feed: Feed, bytes: &[u8], decoded: &Decoded<A>) -> Result<(), Memory>
        requires { IsSaid (kind_of feed) bytes.now (said_of decoded.now) }
        ensures { self.new ≡ self.old }
    {
        match decoded {
            Decoded::Packet(packet) => self.last.keep(bytes, packet.number()),
            _ => Ok(()),
        }
    }

    // Takes in what a datagram says.
    fn take_in(&mut self, decoded: Decoded<A>) -> Result<Taken, Memory>
        ensures taken { IfOk result (λ taken. TakesSaid (said_of decoded) taken self.old self.new) }
        ensures keeps { self.new.keeps_lines ≡ self.old.keeps_lines }
        ensures front { BeginsWith self.new.held self.old.held }
        ensures begins { OnErr result
            (HasBrokenOff (brought_by (said_of decoded)) self.old self.new) }
    {
        match decoded {
            Decoded::Packet(packet) => self.pass(packet),
            Decoded::Snapshots(snapshots) => self.recover(&snapshots),
            Decoded::Refused(refusal) => Ok(Taken::Refused(refusal)),
        }
    }

    // Takes a packet.
    fn pass(&mut self, packet: Packet<A>) -> Result<Taken, Memory>
        ensures taken { IfOk result (λ taken. TakesSaid
            (brings (came packet ∷ [])) taken self.old self.new) }
        ensures keeps { self.new.keeps_lines ≡ self.old.keeps_lines }
        ensures front { BeginsWith self.new.held self.old.held }
        ensures begins { OnErr result (HasBrokenOff (came packet ∷ []) self.old self.new) }
    {
        let fate = self.engine.arbiter().fate_of(packet.number());
        self.on(Event::Packet(packet))?;
        Ok(Taken::Packet(fate))
    }

    // Takes snapshots, in their order.
    fn recover(&mut self, snapshots: &[Snapshot]) -> Result<Taken, Memory>
        ensures taken { IfOk result (λ taken. TakesSaid
            (brings (map recovered snapshots.now)) taken self.old self.new) }
        ensures keeps { self.new.keeps_lines ≡ self.old.keeps_lines }
        ensures front { BeginsWith self.new.held self.old.held }
        ensures begins { OnErr result
            (HasBrokenOff (map recovered snapshots.now) self.old self.new) }
    {
        let mut counts = SnapshotCounts::NONE;
        for snapshot in snapshots {
            counts = counts.and(self.engine.arbiter().fate_of_snapshot(snapshot));
            self.on_snapshot(snapshot)?;
        }
        Ok(Taken::Snapshots(counts))
    }
}
