//! The arbiter of a channel's feeds.

ghost use Rattle.std.specs.Prelude.{◌≡◌, ◌≤◌, ◌<◌, ℕ, List, [], ◌∷◌, ◌++◌, length, true, false, IfOk, IfSome, IfNone, Some, None, slice_get, option_copied, if◌then◌else◌};
ghost use Rattle.std.specs.FinMap as map;
ghost use Rattle.std.specs.FinMap.{contains_key};
ghost use Rattle.mdp_templates.specs.Instrument.{AreFit};
ghost use Rattle.mdp_arbiter.specs.Channel.{channel_of};
ghost use Rattle.mdp_arbiter.specs.Accepted.{Event};
ghost use Rattle.mdp_arbiter.specs.Accepted.Event.{came, recovered, closed};
ghost use Rattle.mdp_arbiter.specs.Machine.{first_state, is_lost, least_last, snapshots_of};
ghost use Rattle.mdp_arbiter.specs.Arbiter.{is_lost_now, least_held, state, steps_left};
ghost use Rattle.mdp_arbiter.specs.Fates.{fate_of, fate_of_snapshot, first_stale, packet_fate, snapshot_fate, waiting};
ghost use Rattle.mdp_arbiter.specs.Packets.{LetsPass, Receives, is_taken_in, passes_at_once};
ghost use Rattle.mdp_arbiter.specs.Snapshots.{IsNewsAt, IsNotTaken, Renews};
ghost use Rattle.mdp_arbiter.specs.Moves.{Answers, Moves, seen_move};
ghost use Rattle.mdp_arbiter.specs.Standing.{HasPassed, StandsAt, StepsAs};

use crate::base::{Base, least_base, no_bases, take_newest};
use crate::fate::{PacketFate, SnapshotFate};
use crate::fresh_front::FreshFront;
use crate::newest::{least_number, none_for, renews};
use crate::start::Start;
use crate::step::Step;
use mdp_templates::{Instrument, Memory, Packet, Slots, Snapshot};
use mdp_window::{Put, Window};
use std::alloc::Allocator;
use std::marker::Model;

/// Where a channel stands after all that came.
#[derive(Clone, Copy, Debug, PartialEq, Eq)]
pub struct Standing {
    /// The number of the packet that comes next, 1 to 4294967296.
    pub next: u64,
    /// Whether the receiver is lost: it has not joined, or that packet is given up.
    pub lost: bool,
}

/// Puts the packets of two feeds into one order, and recovers what neither feed showed by snapshots.
///
/// It takes in what came on any feed, and hands on the one step that is possible. `next` is the number of the packet
/// that passes next, from 1 to 4294967296.
#[derive(Drop)]
pub struct Arbiter<A: Allocator, W: Window<Packet<A>> + Drop> {
    window: W,
    room: u64,
    slots: Slots<A>,
    start: Start,
    newest: Vec<Option<Snapshot>, A>,
    front: FreshFront,
    bases: Vec<Base, A>,
    next: u64,
    top: u64,
    joined: bool,
    is_closed: bool,
}

impl<A: Allocator, W: Window<Packet<A>> + Drop> Model for Arbiter<A, W> {
    ghost use Rattle.std.specs.Prelude.{◌≡◌, ◌≤◌, ◌<◌, ◌+◌, ◌-◌, ℕ, max, length, false, None};
    ghost use Rattle.std.specs.FinMap as map;
    ghost use Rattle.mdp_arbiter.specs.Arbiter.{View};
    ghost use Rattle.mdp_arbiter.specs.Bases.{bases_of};
    ghost use Rattle.mdp_arbiter.specs.Codes.{view_code};
    ghost use Rattle.mdp_arbiter.specs.Fronts.{Leads};

    ghost Value = { View };

    ghost coded = { view_code };

    ghost view = { λ a. record {
      channel = record { room = a.room; ids = a.slots; start = a.start };
      next = a.next;
      top = a.top;
      joined = a.joined;
      is_closed = a.is_closed;
      newest = a.newest.items;
      bases = bases_of a.newest.items a.bases.items;
      held = (W.view a.window).held;
    } };

    ghost invariant = { λ a. ((W.view a.window).first ≡ max a.next (a.top + 1 - a.room))
        × ((W.view a.window).room ≡ a.room) × (1 ≤ a.room) × (a.room ≤ 65536)
        × (1 ≤ a.next) × (a.next ≤ a.top + 1) × (a.top ≤ 4294967295)
        × ((k : ℕ) → a.top < k → map.get (W.view a.window).held k ≡ None)
        × (length a.newest.items ≡ length a.slots) × (length a.bases.items ≡ length a.slots)
        × (a.joined ≡ false → a.next ≡ 1)
        × Leads a.front a.newest.items };
}

impl<A: Allocator + Copy, W: Window<Packet<A>> + Drop> Arbiter<A, W> {
    /// Makes an arbiter that has taken in nothing. The instruments are fit, and the window begins at 1 and holds
    /// nothing. All the room for snapshots is made here.
    pub fn new(
        alloc: A,
        instruments: &[Instrument],
        window: W,
        start: Start,
    ) -> Result<Arbiter<A, W>, Memory>
        requires fit { AreFit instruments.now }
        requires first { (W.view window).first ≡ 1 }
        requires empty { (W.view window).held ≡ map.empty }
        ensures stands { IfOk result (StandsAt []) }
        ensures start { IfOk result (λ arbiter. state arbiter ≡ first_state arbiter.channel) }
        ensures channel { IfOk result (λ arbiter. arbiter.channel
            ≡ channel_of (record { listed = instruments.now; room = (W.view window).room; start = start })) }
    {
        let slots = Slots::of(alloc, instruments)?;
        let newest = none_for(alloc, instruments)?;
        let bases = no_bases(alloc, instruments)?;
        let room = window.capacity();
        Ok(Arbiter {
            window,
            room,
            slots,
            start,
            newest,
            front: FreshFront::NONE,
            bases,
            next: 1,
            top: 0,
            joined: start.has_joined(),
            is_closed: false,
        })
    }

    /// Returns the number of the packet that passes next, from 1 to 4294967296.
    pub fn next(&self) -> u64
        ensures next { result ≡ self.now.next }
        ensures least { 1 ≤ result }
        ensures most { result ≤ 4294967296 }
    {
        self.next
    }

    /// Returns whether the receiver is lost: it has not joined the channel, or a packet came that is so far ahead that
    /// the next one is given up.
    pub fn lost(&self) -> bool
        ensures now { result ≡ is_lost_now self.now }
        ensures stands { (es : List Event) → StandsAt es self.now
            → result ≡ is_lost self.now.channel es (state self.now) }
    {
        !self.joined || self.top >= self.next + self.room
    }

    /// Lends the snapshot of the security at a listed place, from 0, that the latest jump took, if there was a jump.
    pub fn base(&self, slot: usize) -> Option<&Snapshot>
        requires { slot < length self.now.channel.ids }
        ensures { slice_get self.now.bases slot ≡ Some (option_copied result) }
    {
        self.bases[slot].among(&self.newest[slot])
    }

    /// Returns the least of the numbers of the packets that the snapshots of the latest jump include last, from 0 to
    /// 4294967295: the jump went on at the number after it. None where there was no jump. It looks at each listed
    /// security.
    pub fn least_base(&self) -> Option<u32>
        ensures { result ≡ least_last (snapshots_of self.now.bases) }
    {
        least_base(&self.newest, &self.bases)
    }

    /// Lends the newest snapshot of each listed security, in listed order, where there is one. Right after a jump these
    /// are the ones that it took.
    pub fn newest(&self) -> &[Option<Snapshot>]
        ensures { result.now ≡ self.now.newest }
    {
        &self.newest
    }

    /// Returns how many numbers after the next one a packet gives that one up, from 1 to 65536: the window's room.
    pub fn room(&self) -> u64
        ensures room { result ≡ self.now.channel.room }
        ensures least { 1 ≤ result }
        ensures most { result ≤ 65536 }
    {
        self.room
    }

    /// Returns the highest number of a packet that came, or the one before the next, if that is greater.
    pub fn highest(&self) -> u64
        ensures { result ≡ self.now.top }
    {
        self.top
    }

    /// Returns what becomes of a packet of this number, if it comes now.
    pub fn fate_of(&self, number: u32) -> PacketFate
        ensures now { result ≡ fate_of self.now number }
        ensures stands { (es : List Event) → StandsAt es self.now
            → result ≡ packet_fate self.now.channel es (state self.now) number }
    {
        if self.is_closed {
            return PacketFate::AfterClose;
        }
        let number = u64::from(number);
        if number < self.next {
            return PacketFate::Past;
        }
        if number < self.least_held() {
            return PacketFate::Late;
        }
        if self.window.holds(number) {
            return PacketFate::Repeat;
        }
        PacketFate::First
    }

    /// Returns what becomes of a snapshot, if it comes now.
    pub fn fate_of_snapshot(&self, snapshot: &Snapshot) -> SnapshotFate
        ensures now { result ≡ fate_of_snapshot self.now snapshot.now }
        ensures stands { (es : List Event) → StandsAt es self.now
            → result ≡ snapshot_fate self.now.channel.ids es snapshot.now }
    {
        self.see_fate(snapshot)
    }

    /// Returns how many packets wait for one before them.
    pub fn waiting(&self) -> u64
        ensures { result ≡ waiting self.now }
    {
        match self.window.count() {
            Some(count) => count,
            None => self.count_one_by_one(),
        }
    }

    /// Returns the first listed place, from 0, whose newest snapshot is missing, or leaves out a packet that is given
    /// up.
    pub fn first_stale(&self) -> Option<usize>
        ensures { result ≡ first_stale self.now.channel.room self.now.top self.now.newest }
    {
        let mut front = self.front;
        front.first_stale(&self.newest, self.top, self.room)
    }

    /// Closes the channel. From now on `step` is `None`, and every packet and snapshot is handed back.
    pub fn close(&mut self)
        ensures closes { self.new ≡ record self.old { is_closed = true } }
        ensures stands { (es : List Event) → StandsAt es self.old
            → StandsAt (es ++ closed ∷ []) self.new }
    {
        self.is_closed = true;
    }

    /// Takes in a packet, and makes no step. `Back`: an old packet, a repeat, or one after a close. `Memory`: the
    /// window could not grow. Both leave the arbiter unchanged.
    pub fn packet(&mut self, packet: Packet<A>) -> Put<Packet<A>>
        ensures receives { Receives W.ALLOCATES packet self.old self.new result }
        ensures keeps { state self.new ≡ state self.old }
        ensures channel { self.new.channel ≡ self.old.channel }
        ensures stands { (es : List Event) → is_taken_in result ≡ true → StandsAt es self.old
            → StandsAt (es ++ came packet ∷ []) self.new }
    {
        self.receive(packet)
    }

    /// Lets a packet pass at once where nothing stands in its way: it is the one that passes next, and none came with
    /// its number or a later one. That is what [`packet`](Arbiter::packet) and [`step`](Arbiter::step) would do,
    /// without a stay in the window, and no further step is possible then. Returns whether it passed; where not, all is
    /// as before.
    pub fn pass_at_once(&mut self, packet: &Packet<A>) -> bool
        ensures tells { result ≡ passes_at_once packet.now.number self.old }
        ensures keeps { result ≡ false → self.new ≡ self.old }
        ensures channel { self.new.channel ≡ self.old.channel }
        ensures passes { result ≡ true → (es : List Event) → StandsAt es self.old
            → HasPassed packet.now (es ++ came packet.now ∷ []) self.old self.new }
    {
        if !self.is_free(packet.number()) {
            return false;
        }
        self.pass_next();
        true
    }

    /// Takes in a snapshot, and makes no step. What comes back is of no listed security, has no greater number than the
    /// newest, or came after a close, and leaves all as it was.
    pub fn snapshot(&mut self, snapshot: Snapshot) -> Option<Snapshot>
        ensures renews { Renews snapshot self.old self.new result }
        ensures keeps { state self.new ≡ state self.old }
        ensures channel { self.new.channel ≡ self.old.channel }
        ensures stands { (es : List Event) → StandsAt es self.old
            → StandsAt (es ++ recovered snapshot ∷ []) self.new }
    {
        self.renew(snapshot)
    }

    /// Takes in a snapshot that is lent, as [`snapshot`](Arbiter::snapshot) does, and copies it only where it takes its
    /// place; returns whether it does. Where not, all is as it was.
    pub fn snapshot_from(&mut self, snapshot: &Snapshot) -> bool
        ensures renews { Renews snapshot.now self.old self.new
            (if result then None else Some snapshot.now) }
        ensures keeps { state self.new ≡ state self.old }
        ensures channel { self.new.channel ≡ self.old.channel }
        ensures stands { (es : List Event) → StandsAt es self.old
            → StandsAt (es ++ recovered snapshot.now ∷ []) self.new }
    {
        let Some(slot) = self.place_of_news(snapshot) else {
            return false;
        };
        self.put_newest(slot, snapshot.copy());
        true
    }

    /// Makes the one step that is possible, and answers it; none exactly where none is. Each step raises `next`, but
    /// that a first jump which joins may leave it.
    pub fn step(&mut self) -> Option<Step<A>>
        ensures channel { self.new.channel ≡ self.old.channel }
        ensures raises { IfSome result (λ _. (steps_left self.new < steps_left self.old)
            × (self.old.next ≤ self.new.next) × (self.new.next ≤ 4294967296)) }
        ensures steps { (es : List Event) → StandsAt es self.old
            → StepsAs es self.old self.new result }
    {
        self.take_step()
    }

    // Returns what becomes of a snapshot, by what is held.
    fn see_fate(&self, snapshot: &Snapshot) -> SnapshotFate
        ensures { result ≡ fate_of_snapshot self.now snapshot.now }
    {
        if self.is_closed {
            return SnapshotFate::AfterClose;
        }
        let Some(slot) = self.slots.slot_of(snapshot.security()) else {
            return SnapshotFate::Unlisted;
        };
        if renews(&self.newest[slot], snapshot) {
            return SnapshotFate::News;
        }
        SnapshotFate::Older
    }

    // Returns the least number of which packets are held: lower ones have passed or are given up.
    fn least_held(&self) -> u64
        ensures { result ≡ least_held self.now }
    {
        self.next.max((self.top + 1).saturating_sub(self.room))
    }

    // Counts the packet of a number, where one is held.
    fn held_at(&self, number: u64) -> u64
        ensures { result ≡ (if contains_key self.now.held number then 1 else 0) }
    {
        if self.window.holds(number) { 1 } else { 0 }
    }

    // Counts the packets that wait, in a window that doesn't.
    fn count_one_by_one(&self) -> u64
        ensures { result ≡ waiting self.now }
    {
        let first = self.least_held();
        let mut count = 0;
        for n in 0..(self.top + 1).saturating_sub(first) {
            count += self.held_at(first + n);
        }
        count
    }

    // Returns whether a packet of this number passes at once.
    fn is_free(&self, number: u32) -> bool
        ensures { result ≡ passes_at_once number self.now }
    {
        !self.is_closed && self.joined && u64::from(number) == self.next && self.top < self.next
    }

    // Lets the packet of the next number pass, where none came from there on.
    fn pass_next(&mut self)
        requires joined { self.old.joined ≡ true }
        requires none { self.old.top < self.old.next }
        requires most { self.old.next ≤ 4294967295 }
        ensures { LetsPass self.old self.new }
    {
        self.top = self.next;
        self.next += 1;
        self.window.drop_below(self.next);
    }

    // Puts a packet into the window, unless the channel was closed.
    fn receive(&mut self, packet: Packet<A>) -> Put<Packet<A>>
        ensures { Receives W.ALLOCATES packet self.old self.new result }
    {
        if self.is_closed {
            return Put::Back(packet);
        }
        let number = u64::from(packet.number());
        let answer = self.window.put(packet);
        if let Put::Kept = answer {
            self.top = self.top.max(number);
        }
        answer
    }

    // Returns the listed place whose newest snapshot gives way to this one, where there is one and the channel is open.
    fn place_of_news(&self, snapshot: &Snapshot) -> Option<usize>
        ensures some { IfSome result (λ slot. IsNewsAt slot snapshot.now self.now) }
        ensures none { IfNone result (IsNotTaken snapshot.now self.now) }
    {
        if self.is_closed {
            return None;
        }
        let Some(slot) = self.slots.slot_of(snapshot.security()) else {
            return None;
        };
        if !renews(&self.newest[slot], snapshot) {
            return None;
        }
        Some(slot)
    }

    // Puts a snapshot in the place of an older one of its security.
    fn put_newest(&mut self, slot: usize, snapshot: Snapshot)
        requires { IsNewsAt slot snapshot self.old }
        ensures { Renews snapshot self.old self.new None }
    {
        let before = self.newest[slot].replace(snapshot);
        self.bases[slot].keep(before);
    }

    // Takes in a snapshot, where it is news.
    fn renew(&mut self, snapshot: Snapshot) -> Option<Snapshot>
        ensures { Renews snapshot self.old self.new result }
    {
        let Some(slot) = self.place_of_news(&snapshot) else {
            return Some(snapshot);
        };
        self.put_newest(slot, snapshot);
        None
    }

    // Makes the move that is seen.
    fn take_step(&mut self) -> Option<Step<A>>
        ensures answers { Answers (seen_move self.old) result }
        ensures moves { Moves (seen_move self.old) self.old self.new }
    {
        if self.is_closed {
            return None;
        }
        if !self.lost() {
            let packet = self.window.take_first()?;
            self.next += 1;
            return Some(Step::Pass(packet));
        }
        if !self.front.are_all_fresh(&self.newest, self.top, self.room) {
            return None;
        }
        let last = u64::from(least_number(&self.newest)?);
        let old = self.next;
        self.next = last + 1;
        self.joined = true;
        self.top = self.top.max(last);
        self.window.drop_below(last + 1);
        take_newest(&mut self.bases);
        Some(Step::Jump { old, new: last + 1 })
    }
}
