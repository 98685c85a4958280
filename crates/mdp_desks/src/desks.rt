//! The desks of all listed securities.

ghost use Rattle.std.specs.Prelude.{◌≡◌, ◌≢◌, ◌<◌, ◌++◌, ◌≤◌, ℕ, false, true, All, AllPairs, IfOk, OnErr, OnOk, IfSome, IfNone, Some, ◌&&◌, if◌then◌else◌, nat_lt, min, ◌+◌, set, slice_get, map, length};
ghost use Rattle.std.specs.List.{flat_map};
ghost use Rattle.mdp_templates.specs.Instrument.{HasDepth, ids_of};
ghost use Rattle.mdp_desks.specs.Beside.{AreAmong, AreDueAt, AreDueBefore, listed_in, marks_of};
ghost use Rattle.mdp_desks.specs.Changed.{is_seen_printed, with_marks};
ghost use Rattle.mdp_desks.specs.Desks.{desk_at_start, desk_heard, desk_jumped, desk_settled, desk_standing, desks_through, rebased_desks, snapshots_at};
ghost use Rattle.mdp_desks.specs.Lines.{text_of};
ghost use Rattle.mdp_print.specs.Pieces.{BreaksOff};

use crate::desk::Desk;
use crate::marked::Marked;
use mdp_books::{EventEnd, Place};
use mdp_templates::{Entry, Instrument, Memory, Slots, Snapshot};
use std::alloc::Allocator;
use std::marker::Model;

/// The desks of the listed securities, seen as their list.
#[derive(Drop)]
pub struct Desks<A: Allocator> {
    slots: Slots<A>,
    desks: Vec<Desk, A>,
    marked: Marked<A>,
    // Behind a jump a desk stays marked for long, if its base lies far ahead. So that no event end before it need look
    // at it, `due` marks the desks of which an event end in a packet before `until` has lines: all others that are
    // marked wait for `until`, or for a later packet. A jump sets `until` to 1, so that the next event end looks who
    // waits; where none does it is 0, and `due` marks none.
    due: Marked<A>,
    until: u64,
}

impl<A: Allocator> Model for Desks<A> {
    ghost use Rattle.std.specs.Prelude.{List};
    ghost use Rattle.mdp_desks.specs.declared.desk.Desk.{Desk};
    ghost use Rattle.mdp_desks.specs.Beside.{AreBeside, AreDueBefore};

    ghost Value = { List Desk };

    ghost view = { λ d. d.desks.items };

    ghost invariant = { λ d. AreBeside d.desks.items d.slots d.marked
        × AreDueBefore d.until d.due d.desks.items };
}

// Returns the place of the security that an entry names, if it is listed. The place at hand is looked at first, since
// entries in a row often name one security.
fn slot_named<A: Allocator + Copy>(
    slots: &Slots<A>,
    desks: &[Desk],
    at_hand: usize,
    entry: &Entry,
) -> Option<usize>
    requires { slots.now ≡ ids_of (listed_in desks.now) }
    ensures some { IfSome result (λ slot. slice_get slots.now slot ≡ Some entry.now.security) }
    ensures none { IfNone result ((slot : ℕ) → slice_get slots.now slot ≡ Some entry.now.security
        → ⊥) }
{
    if at_hand < desks.len() && desks[at_hand].instrument.id == entry.security {
        return Some(at_hand);
    }
    slots.slot_of(entry.security)
}

// Marks a desk as due, while others wait, at which an entry of this packet has arrived. Where the packet doesn't stand
// behind its base, the desk has not heard the entry, and goes on waiting.
fn mark_due<A: Allocator>(due: &mut Marked<A>, until: u64, slot: usize, desk: &Desk, packet: u32)
    requires { slot < length due.old }
    ensures { due.new ≡ if nat_lt 0 until && nat_lt desk.now.base packet
        then set due.old slot true else due.old }
{
    if until > 0 && packet > desk.base {
        due.put(slot, true);
    }
}

// Appends the lines of the desks that are due.
fn put_marked<A: Allocator>(
    out: &mut Vec<u8, A>,
    end: EventEnd,
    desks: &[Desk],
    marked: &Marked<A>,
) -> Result<(), Memory>
    requires { AreDueAt end.packet marked.now desks.now }
    ensures ok { OnOk result (out.new.items ≡ out.old.items
        ++ flat_map (text_of end) (map (desk_standing end.packet) desks.now)) }
    ensures err { OnErr result (BreaksOff
        (flat_map (text_of end) (map (desk_standing end.packet) desks.now)) out.old.items
        out.new.items) }
{
    let mut from = 0;
    while let Some(n) = marked.next_from(from) {
        desks[n].put(out, end)?;
        from = n + 1;
    }
    Ok(())
}

// Sets the mark of a marked desk whose book an event end in this packet prints, if there is a mark for it.
fn mark_one_printed<A: Allocator>(changed: &mut Marked<A>, slot: usize, desk: &Desk, packet: u32)
    ensures { changed.new ≡ if nat_lt desk.now.base packet && nat_lt slot (length changed.old)
        then set changed.old slot true else changed.old }
{
    if packet > desk.base && slot < changed.len() {
        changed.put(slot, true);
    }
}

// Sets the mark of each desk whose book an event end in this packet prints, as far as there are marks.
fn mark_due_printed<A: Allocator>(
    changed: &mut Marked<A>,
    desks: &[Desk],
    due: &Marked<A>,
    packet: u32,
)
    requires { AreDueAt packet due.now desks.now }
    ensures { changed.new ≡ with_marks changed.old
        (map is_seen_printed (map (desk_standing packet) desks.now)) }
{
    let mut from = 0;
    while let Some(n) = due.next_from(from) {
        mark_one_printed(changed, n, &desks[n], packet);
        from = n + 1;
    }
}

// Forgets the marks of the desks that are due where an event ended. The others stay as they are: each is not marked, or
// the packet stands not behind its base.
fn settle_due<A: Allocator>(
    desks: &mut [Desk],
    marked: &mut Marked<A>,
    due: &mut Marked<A>,
    packet: u32,
)
    requires marks { marked.old ≡ marks_of desks.old }
    requires due { AreDueAt packet due.old desks.old }
    ensures desks { desks.new ≡ map (desk_settled packet) desks.old }
    ensures marks { marked.new ≡ marks_of desks.new }
    ensures due { (k : ℕ) → AreDueAt k due.old desks.old → AreDueAt k due.new desks.new }
{
    let mut from = 0;
    while let Some(slot) = due.next_from(from) {
        desks[slot].settle(packet);
        marked.put(slot, desks[slot].marked);
        due.put(slot, desks[slot].marked);
        from = slot + 1;
    }
}

// Forgets the marks of the desks whose bases lie before a packet in which an event ended.
fn settle_all<A: Allocator>(desks: &mut [Desk], marked: &mut Marked<A>, packet: u32)
    requires { marked.old ≡ marks_of desks.old }
    ensures desks { desks.new ≡ map (desk_settled packet) desks.old }
    ensures marks { marked.new ≡ marks_of desks.new }
{
    let mut from = 0;
    while let Some(n) = marked.next_from(from) {
        desks[n].settle(packet);
        marked.put(n, desks[n].marked);
        from = n + 1;
    }
}

// Sets the mark of a desk whose base the packet stands behind, and takes away that of another one, which waits for the
// packet behind its base; tells the least of that and of those that others wait for.
fn ripen_one<A: Allocator>(
    due: &mut Marked<A>,
    at: usize,
    base: u32,
    packet: u32,
    until: u64,
) -> u64
    requires { at < length due.old }
    ensures due { due.new ≡ set due.old at (nat_lt base packet) }
    ensures until { result ≡ if nat_lt base packet then until else min until (base + 1) }
{
    if packet > base {
        due.put(at, true);
        return until;
    }
    due.put(at, false);
    until.min(u64::from(base) + 1)
}

// Sets the marks of the desks that are due at a packet, of those that are marked, and tells the first packet that one
// of the others waits for. Where none waits it tells 0, and takes the marks away.
#[inline(never)]
fn ripen_all<A: Allocator>(
    desks: &[Desk],
    marked: &Marked<A>,
    due: &mut Marked<A>,
    packet: u32,
) -> u64
    requires marks { marked.now ≡ marks_of desks.now }
    requires many { length due.old ≡ length desks.now }
    requires only { AreAmong due.old (marks_of desks.now) }
    ensures due { AreDueBefore result due.new desks.now }
    ensures later { 0 < result → packet < result }
{
    let mut until = u64::MAX;
    let mut from = 0;
    while let Some(n) = marked.next_from(from) {
        until = ripen_one(due, n, desks[n].base, packet, until);
        from = n + 1;
    }
    if until < u64::MAX {
        return until;
    }
    due.clear();
    0
}

// Finds the desks that are due at a packet, where desks have waited for packet `until`, and tells the first packet that
// one waits for then; 0 where none waits any more. Before `until` the marks of before will do.
fn ripened<A: Allocator>(
    desks: &[Desk],
    marked: &Marked<A>,
    due: &mut Marked<A>,
    until: u64,
    packet: u32,
) -> u64
    requires marks { marked.now ≡ marks_of desks.now }
    requires some { 0 < until }
    requires due { AreDueBefore until due.old desks.now }
    ensures due { AreDueBefore result due.new desks.now }
    ensures later { 0 < result → packet < result }
{
    if u64::from(packet) < until {
        return until;
    }
    ripen_all(desks, marked, due, packet)
}

// Forgets the marks where an event ended, while desks wait for packet `until` or a later one, and tells the first
// packet that one waits for then; 0 where none waits any more.
#[cold]
fn settle_waiting<A: Allocator>(
    desks: &mut [Desk],
    marked: &mut Marked<A>,
    due: &mut Marked<A>,
    until: u64,
    packet: u32,
) -> u64
    requires marks { marked.old ≡ marks_of desks.old }
    requires some { 0 < until }
    requires due { AreDueBefore until due.old desks.old }
    ensures desks { desks.new ≡ map (desk_settled packet) desks.old }
    ensures marks { marked.new ≡ marks_of desks.new }
    ensures due { AreDueBefore result due.new desks.new }
{
    let until = ripened(desks, marked, due, until, packet);
    if until == 0 {
        settle_all(desks, marked, packet);
    } else {
        settle_due(desks, marked, due, packet);
    }
    until
}

// Replaces each desk's book by the snapshot beside it, where there is one, and marks it.
fn rebase_all<A: Allocator>(desks: &mut [Desk], marked: &mut Marked<A>, bases: &[Option<Snapshot>])
    requires marks { marked.old ≡ marks_of desks.old }
    requires depths { All HasDepth (listed_in desks.old) }
    ensures desks { desks.new ≡ rebased_desks bases.now desks.old }
    ensures marks { marked.new ≡ marks_of desks.new }
{
    let both = desks.len().min(bases.len());
    for n in 0..both {
        desks[n].jump(&bases[n]);
        marked.put(n, desks[n].marked);
    }
}

// Lets a desk jump to the snapshot at a slot, if there is one.
fn jump_at(desk: &mut Desk, slot: u16, snapshots: &[Snapshot])
    requires { HasDepth desk.old.instrument }
    ensures { desk.new ≡ desk_jumped (slice_get snapshots.now slot) desk.old }
{
    if let Some(snapshot) = snapshots.get(usize::from(slot)) {
        desk.rebase(snapshot);
    }
}

// Replaces each desk's book by the snapshot at its slot, where there is one, and marks it.
fn rebase_at<A: Allocator>(
    desks: &mut [Desk],
    marked: &mut Marked<A>,
    slots: &[u16],
    snapshots: &[Snapshot],
)
    requires marks { marked.old ≡ marks_of desks.old }
    requires depths { All HasDepth (listed_in desks.old) }
    ensures desks { desks.new ≡ rebased_desks (snapshots_at slots.now snapshots.now) desks.old }
    ensures marks { marked.new ≡ marks_of desks.new }
{
    let both = desks.len().min(slots.len());
    for n in 0..both {
        jump_at(&mut desks[n], slots[n], snapshots);
        marked.put(n, desks[n].marked);
    }
}

impl<A: Allocator + Copy> Desks<A> {
    /// Makes the desks of these securities, whose ids all differ and whose depths are of their kind, before any packet.
    pub fn new(alloc: A, instruments: &[Instrument]) -> Result<Desks<A>, Memory>
        requires differ { AllPairs (λ earlier later. earlier.id ≢ later.id) instruments.now }
        requires depths { All HasDepth instruments.now }
        ensures { IfOk result (λ d. d ≡ map desk_at_start instruments.now) }
    {
        let slots = Slots::of(alloc, instruments)?;
        let mut desks = Vec::with_capacity(alloc, instruments.len())?;
        for instrument in instruments {
            desks.push(Desk::new(instrument.copy()))?;
        }
        let marked = Marked::none(alloc, instruments.len())?;
        let due = Marked::none(alloc, instruments.len())?;
        Ok(Desks {
            slots,
            desks,
            marked,
            due,
            until: 0,
        })
    }

    /// Lends the desks, in listed order.
    pub fn as_slice(&self) -> &[Desk]
        ensures { result.now ≡ self.now }
    {
        &self.desks
    }

    /// Lends the marks of the desks, in listed order.
    pub fn marked(&self) -> &Marked<A>
        ensures { result.now ≡ marks_of self.now }
    {
        &self.marked
    }

    /// Lends a mark for each desk, in listed order. It is set for each that is marked and whose base lies before
    /// `packet`, since an event end in that packet has lines of these alone, and for none that isn't marked.
    pub fn due_at(&self, packet: u32) -> &Marked<A>
        ensures { AreDueAt packet result.now self.now }
    {
        if u64::from(packet) < self.until {
            return &self.due;
        }
        self.marked()
    }

    /// Finds the desks that are due at an event end in packet `packet`, where some have waited for it since a jump, so
    /// that [`due_at`](Desks::due_at) and [`settle`](Desks::settle) look at no desk that waits for a later packet. It
    /// changes nothing else, and goes over the marked desks only where one of them may have waited for this packet.
    pub fn ripen(&mut self, packet: u32)
        ensures { self.new ≡ self.old }
    {
        if self.until > 0 {
            self.until = ripened(&self.desks, &self.marked, &mut self.due, self.until, packet);
        }
    }

    /// Lends the places of the securities.
    pub fn slots(&self) -> &Slots<A>
        ensures { result.now ≡ ids_of (listed_in self.now) }
    {
        &self.slots
    }

    // Takes an entry, which is for one desk at most, and tells that desk's place, or where there is none the one at
    // hand.
    fn enter(&mut self, at_hand: usize, place: Place, entry: &Entry) -> usize
        ensures { self.new ≡ map (desk_heard place entry.now) self.old }
    {
        let Some(slot) = slot_named(&self.slots, &self.desks, at_hand, entry) else {
            return at_hand;
        };
        self.desks[slot].enter(place, entry);
        self.marked.put(slot, self.desks[slot].marked);
        mark_due(
            &mut self.due,
            self.until,
            slot,
            &self.desks[slot],
            place.packet,
        );
        slot
    }

    /// Takes the entries, at most 255, of the message that stands where an event may end, each at the desk of its
    /// security.
    pub fn hear(&mut self, end: EventEnd, entries: &[Entry])
        requires { length entries.now ≤ 255 }
        ensures { self.new ≡ desks_through end.packet end.message 1 entries.now self.old }
    {
        let mut slot = 0;
        for n in 0..entries.len() {
            let place = Place {
                packet: end.packet,
                message: end.message,
                entry: n as u8 + 1,
            };
            slot = self.enter(slot, place, &entries[n]);
        }
    }

    /// Appends the lines of the books that an event end prints. Where memory runs out, they break off.
    pub fn put_books(&self, out: &mut Vec<u8, A>, end: EventEnd) -> Result<(), Memory>
        ensures ok { OnOk result (out.new.items ≡ out.old.items
            ++ flat_map (text_of end) (map (desk_standing end.packet) self.now)) }
        ensures err { OnErr result (BreaksOff
            (flat_map (text_of end) (map (desk_standing end.packet) self.now)) out.old.items
            out.new.items) }
    {
        put_marked(out, end, &self.desks, self.due_at(end.packet))
    }

    /// Sets a mark for each desk whose book an event end in packet `packet` prints, among marks in listed order; those
    /// that are set stay.
    pub fn mark_printed(&self, changed: &mut Marked<A>, packet: u32)
        ensures { changed.new ≡ with_marks changed.old
            (map is_seen_printed (map (desk_standing packet) self.now)) }
    {
        mark_due_printed(changed, &self.desks, self.due_at(packet), packet);
    }

    /// Forgets the marks where an event ended in packet `packet`.
    pub fn settle(&mut self, packet: u32)
        ensures { self.new ≡ map (desk_settled packet) self.old }
    {
        if self.until == 0 {
            settle_all(&mut self.desks, &mut self.marked, packet);
            return;
        }
        self.until = settle_waiting(
            &mut self.desks,
            &mut self.marked,
            &mut self.due,
            self.until,
            packet,
        );
    }

    /// Replaces each book by its security's snapshot, listed side by side, where there is one.
    pub fn rebase(&mut self, bases: &[Option<Snapshot>])
        ensures { self.new ≡ rebased_desks bases.now self.old }
    {
        self.until = 1;
        rebase_all(&mut self.desks, &mut self.marked, bases);
    }

    /// Replaces each book by the snapshot at the slot that stands beside it, where there is one.
    pub fn rebase_from(&mut self, slots: &[u16], snapshots: &[Snapshot])
        ensures { self.new ≡ rebased_desks (snapshots_at slots.now snapshots.now) self.old }
    {
        self.until = 1;
        rebase_at(&mut self.desks, &mut self.marked, slots, snapshots);
    }
}
