//! The engine: what comes on a channel in, the lines that its moves owe out.

ghost use Rattle.std.specs.Prelude.{◌≡◌, ◌≤◌, ◌++◌, [], ◌∷◌, List, ℕ, true, false, nat_lt, map, IfOk, IfErr, IsErr, OnErr, OnOk};
ghost use Rattle.std.specs.FinMap as map;
ghost use Rattle.mdp_templates.specs.Packet.{PacketContent};
ghost use Rattle.mdp_templates.specs.Instrument.{AreFit};
ghost use Rattle.mdp_templates.specs.declared.instrument.Instrument.{Instrument};
ghost use Rattle.mdp_arbiter.specs.Accepted.{Event as Accepted, came, recovered};
ghost use Rattle.mdp_arbiter.specs.Machine.{is_lost, moves_of, state_at, trace};
ghost use Rattle.mdp_arbiter.specs.Channel.{channel_of};
ghost use Rattle.mdp_arbiter.specs.Arbiter.{is_lost_now, state};
ghost use Rattle.mdp_arbiter.specs.Packets.{passes_at_once};
ghost use Rattle.mdp_arbiter.specs.Standing.{StandsAt};
ghost use Rattle.mdp_print.specs.Pieces.{BeginsWith, BreaksOff};
ghost use Rattle.mdp_desks.specs.Moments.{Moment, moments, shown_lines};
ghost use Rattle.mdp_engine.specs.Kept.{kept_lines};
ghost use Rattle.mdp_desks.specs.Changed.{changed_through};
ghost use Rattle.mdp_engine.specs.Engine.{Advances, AreChanged, BreaksOffOnWay, HasBrokenOff, Stands, TakesIn, View};
ghost use Rattle.mdp_engine.specs.Honest.{IsHonest};
ghost use Rattle.mdp_engine.specs.Owed.{lines, numbered_moves};
ghost use Rattle.mdp_engine.specs.Steps.{event_of, passes_now, stepped_desks, stepped_moments};

use crate::audited_desks::AuditedDesks;
use crate::event::Event;
use crate::held::Held;
use crate::taking::take_in;
use mdp_arbiter::{Arbiter, Start, Step};
use mdp_desks::{Desk, Marked};
use mdp_templates::{Instrument, Memory, Packet, Snapshot};
use mdp_window::Window;
use std::alloc::Allocator;
use std::marker::Model;

/// Arbitrates the feeds of a channel, keeps its books, and holds the lines that are owed until they leave it: they are
/// drained into a text, or lent by `lines` and, once they were handed on, let go by `clear_lines`. Beside them it marks
/// whose books were printed. It can be made to keep no lines.
///
/// Once memory has run out the engine has failed: it takes in nothing more and drains nothing more. What was drained
/// or handed on before, with what a failed engine holds behind it, is a beginning of the lines, and may break off
/// anywhere.
#[derive(Drop)]
pub struct Engine<A: Allocator, W: Window<Packet<A>> + Drop> {
    arbiter: Arbiter<A, W>,
    desks: AuditedDesks<A>,
    held: Held<A>,
    has_failed: bool,
}

impl<A: Allocator, W: Window<Packet<A>> + Drop> Model for Engine<A, W> {
    ghost use Rattle.mdp_engine.specs.Engine.{View, view_code};

    ghost Value = { View };

    ghost coded = { view_code };

    ghost view = { λ e. record {
      arbiter = e.arbiter;
      desks = e.desks;
      held = e.held.text.items;
      changed = e.held.changed;
      keeps_lines = e.held.keeps_lines;
      has_failed = e.has_failed;
    } };
}

impl<A: Allocator + Copy, W: Window<Packet<A>> + Drop> Engine<A, W> {
    /// Makes an engine that has taken in nothing. The instruments are fit, and the window begins at 1 and holds
    /// nothing.
    pub fn new(
        alloc: A,
        instruments: &[Instrument],
        window: W,
        start: Start,
    ) -> Result<Engine<A, W>, Memory>
        requires fit { AreFit instruments.now }
        requires first { (W.view window).first ≡ 1 }
        requires empty { (W.view window).held ≡ map.empty }
        ensures stands { IfOk result (λ engine. Stands instruments.now [] [] engine) }
        ensures channel { IfOk result (λ engine. engine.arbiter.channel
            ≡ channel_of (record { listed = instruments.now; room = (W.view window).room; start = start })) }
        ensures sound { IfOk result (λ engine. engine.has_failed ≡ false) }
        ensures empty { IfOk result (λ engine. engine.held ≡ []) }
        ensures keeps { IfOk result (λ engine. engine.keeps_lines ≡ true) }
    {
        Ok(Engine {
            arbiter: Arbiter::new(alloc, instruments, window, start)?,
            desks: AuditedDesks::new(alloc, instruments)?,
            held: Held::nothing(alloc, instruments)?,
            has_failed: false,
        })
    }

    /// Returns the number of the packet that passes next, from 1 to 4294967296.
    pub fn next(&self) -> u64
        ensures next { result ≡ self.now.arbiter.next }
        ensures least { 1 ≤ result }
        ensures most { result ≤ 4294967296 }
        ensures stands { (listed : List Instrument) (es : List Accepted) (gone : List Moment)
            → Stands listed es gone self.now
            → result ≡ (state_at self.now.arbiter.channel es).next }
    {
        self.arbiter.next()
    }

    /// Returns whether the receiver is lost: it has not joined the channel, or a packet came that is so far ahead that
    /// the next one is given up.
    pub fn lost(&self) -> bool
        ensures now { result ≡ is_lost_now self.now.arbiter }
        ensures stands { (listed : List Instrument) (es : List Accepted) (gone : List Moment)
            → Stands listed es gone self.now
            → result ≡ is_lost self.now.arbiter.channel es (state_at self.now.arbiter.channel es) }
    {
        self.arbiter.lost()
    }

    /// Returns whether a packet of this number would change nothing, whatever it says: its number has passed or was
    /// given up.
    pub fn is_past(&self, number: u32) -> bool
        ensures now { result ≡ nat_lt number self.now.arbiter.next }
        ensures stands { result ≡ true → (listed : List Instrument) (es : List Accepted)
            (gone : List Moment) (packet : PacketContent)
            → packet.number ≡ number → Stands listed es gone self.now
            → Stands listed (es ++ came packet ∷ []) gone self.now }
    {
        u64::from(number) < self.next()
    }

    /// Lends the arbiter.
    pub fn arbiter(&self) -> &Arbiter<A, W>
        ensures { result.now ≡ self.now.arbiter }
    {
        &self.arbiter
    }

    /// Lends the desks of the listed securities, in listed order.
    pub fn desks(&self) -> &[Desk]
        ensures { result.now ≡ self.now.desks }
    {
        self.desks.as_slice()
    }

    /// Returns whether memory ran out in an earlier call.
    pub fn has_failed(&self) -> bool
        ensures { result ≡ self.now.has_failed }
    {
        self.has_failed
    }

    /// Fails, since memory ran out where what it would have taken in was made.
    pub fn fail(&mut self)
        ensures { self.new ≡ record self.old { has_failed = true } }
    {
        self.has_failed = true;
    }

    /// Takes in an event and makes all moves that are then possible; the lines that they owe are held.
    ///
    /// # Errors
    ///
    /// Memory ran out, now or in an earlier call.
    pub fn on(&mut self, event: Event<A>) -> Result<(), Memory>
        ensures stands { OnOk result ((listed : List Instrument) (es : List Accepted)
            (gone : List Moment) → Stands listed es gone self.old
            → Stands listed (es ++ event_of event ∷ []) gone self.new) }
        ensures takes { TakesIn (event_of event ∷ []) result self.old self.new }
    {
        self.still_sound()?;
        let Ok(()) = self.advance(event) else {
            self.has_failed = true;
            return Err(Memory);
        };
        Ok(())
    }

    /// Takes in a snapshot that is lent and makes all moves that are then possible, as [`on`](Engine::on) does of its
    /// event; the snapshot is copied only where it is kept.
    ///
    /// # Errors
    ///
    /// Memory ran out, now or in an earlier call.
    pub fn on_snapshot(&mut self, snapshot: &Snapshot) -> Result<(), Memory>
        ensures stands { OnOk result ((listed : List Instrument) (es : List Accepted)
            (gone : List Moment) → Stands listed es gone self.old
            → Stands listed (es ++ recovered snapshot.now ∷ []) gone self.new) }
        ensures takes { TakesIn (recovered snapshot.now ∷ []) result self.old self.new }
    {
        self.still_sound()?;
        let Ok(()) = self.recover(snapshot) else {
            self.has_failed = true;
            return Err(Memory);
        };
        Ok(())
    }

    /// Takes in a packet that is lent, where it passes at once, and holds the lines that it owes, as [`on`](Engine::on)
    /// does of its event. Returns whether it passed, as the arbiter's
    /// [`pass_at_once`](mdp_arbiter::Arbiter::pass_at_once) does; where not, all is as before.
    ///
    /// # Errors
    ///
    /// Memory ran out, now or in an earlier call.
    pub fn on_next(&mut self, packet: &Packet<A>) -> Result<bool, Memory>
        ensures tells { IfOk result (λ passed. passed
            ≡ passes_at_once packet.now.number self.old.arbiter) }
        ensures passed { IfOk result (λ passed. passed ≡ true
            → (listed : List Instrument) (es : List Accepted) (gone : List Moment)
            → Stands listed es gone self.old → Stands listed (es ++ came packet.now ∷ []) gone self.new) }
        ensures kept { IfOk result (λ passed. passed ≡ false → self.new ≡ self.old) }
        ensures takes { TakesIn (came packet.now ∷ []) result self.old self.new }
    {
        self.still_sound()?;
        let Ok(passed) = self.pass_packet(packet) else {
            self.has_failed = true;
            return Err(Memory);
        };
        Ok(passed)
    }

    /// Keeps no lines from now on, for those who read books alone, and forgets those that it holds. The marks of what
    /// changed stay, and `clear_lines` lets them go as before.
    #[tactic(auto, using(crate::proofs::Moving::stands_unkept))]
    pub fn keep_no_lines(&mut self)
        ensures none { self.new ≡ record self.old { held = []; keeps_lines = false } }
        ensures stands { (listed : List Instrument) (es : List Accepted) (gone : List Moment)
            → Stands listed es gone self.old → Stands listed es gone self.new }
    {
        self.held.text.clear();
        self.held.keeps_lines = false;
    }

    /// Appends the lines that are held, and lets go what is held.
    ///
    /// # Errors
    ///
    /// Memory ran out, now or in an earlier call. Then nothing is appended, and what is held stays.
    #[tactic(auto, using(crate::proofs::Moving::stands_cleared))]
    pub fn drain_lines(&mut self, out: &mut Vec<u8, A>) -> Result<(), Memory>
        ensures text { OnOk result (out.new.items ≡ out.old.items ++ self.old.held) }
        ensures gone { OnOk result (self.new
            ≡ record self.old { held = []; changed = map (λ _. false) self.old.changed }) }
        ensures stands { OnOk result ((listed : List Instrument) (es : List Accepted)
            (gone : List Moment) → Stands listed es gone self.old
            → Stands listed es (moments listed (trace self.old.arbiter.channel es)) self.new) }
        ensures kept { IfErr result (λ _. out.new.items ≡ out.old.items) }
        ensures fails { OnErr result (self.new ≡ record self.old { has_failed = true }) }
        ensures stays { self.old.has_failed ≡ true → IsErr result }
    {
        self.still_sound()?;
        if out.extend_from_slice(&self.held.text).is_err() {
            self.has_failed = true;
            return Err(Memory);
        }
        self.clear_lines();
        Ok(())
    }

    /// Lends the lines that are held.
    pub fn lines(&self) -> &[u8]
        ensures { result.now ≡ self.now.held }
    {
        self.held.text.as_slice()
    }

    /// Lends a mark for each listed security, in listed order. It is set for those whose book an event end printed
    /// since lines were let go last. After want of memory nothing is known of the marks.
    #[tactic(auto, using(crate::proofs::Moving::changed_since))]
    pub fn changed(&self) -> &Marked<A>
        ensures now { result.now ≡ self.now.changed }
        ensures stands { (listed : List Instrument) (es : List Accepted) (gone : List Moment)
            → Stands listed es gone self.now
            → AreChanged listed (moments listed (trace self.now.arbiter.channel es)) gone
            result.now }
    {
        &self.held.changed
    }

    /// Lets go the lines that are held, since they were handed on, and the marks of what changed. The room that the
    /// lines took is kept for those that come.
    #[tactic(auto, using(crate::proofs::Moving::stands_cleared))]
    pub fn clear_lines(&mut self)
        ensures gone { self.new
            ≡ record self.old { held = []; changed = map (λ _. false) self.old.changed } }
        ensures stands { (listed : List Instrument) (es : List Accepted) (gone : List Moment)
            → Stands listed es gone self.old
            → Stands listed es (moments listed (trace self.old.arbiter.channel es)) self.new }
    {
        self.held.clear();
    }

    // Answers `Memory` once memory has run out.
    fn still_sound(&self) -> Result<(), Memory>
        ensures sound { OnOk result (self.now.has_failed ≡ false) }
        ensures failed { IfErr result (λ _. self.now.has_failed ≡ true) }
    {
        if self.has_failed {
            return Err(Memory);
        }
        Ok(())
    }

    // Takes in an event, and makes moves until none is possible.
    fn advance(&mut self, event: Event<A>) -> Result<(), Memory>
        ensures stands { OnOk result ((listed : List Instrument) (es : List Accepted)
            (gone : List Moment) → Stands listed es gone self.old
            → Stands listed (es ++ event_of event ∷ []) gone self.new) }
        ensures channel { OnOk result (self.new.arbiter.channel ≡ self.old.arbiter.channel) }
        ensures keeps { self.new.keeps_lines ≡ self.old.keeps_lines }
        ensures sound { OnOk result (self.new.has_failed ≡ self.old.has_failed) }
        ensures front { BeginsWith self.new.held self.old.held }
        ensures begins { OnErr result (HasBrokenOff (event_of event ∷ []) self.old self.new) }
    {
        if self.pass_at_once(&event)? {
            return Ok(());
        }
        self.take_in(event)?;
        self.move_on()?;
        Ok(())
    }

    // Takes in a snapshot that is lent, and makes moves until none is possible.
    fn recover(&mut self, snapshot: &Snapshot) -> Result<(), Memory>
        ensures stands { OnOk result ((listed : List Instrument) (es : List Accepted)
            (gone : List Moment) → Stands listed es gone self.old
            → Stands listed (es ++ recovered snapshot.now ∷ []) gone self.new) }
        ensures channel { OnOk result (self.new.arbiter.channel ≡ self.old.arbiter.channel) }
        ensures keeps { self.new.keeps_lines ≡ self.old.keeps_lines }
        ensures sound { OnOk result (self.new.has_failed ≡ self.old.has_failed) }
        ensures front { BeginsWith self.new.held self.old.held }
        ensures begins { OnErr result
            (HasBrokenOff (recovered snapshot.now ∷ []) self.old self.new) }
    {
        self.take_lent(snapshot);
        self.move_on()?;
        Ok(())
    }

    // Takes in a snapshot that is lent, and makes no move. It is copied only where it is news: most are older ones.
    fn take_lent(&mut self, snapshot: &Snapshot)
        ensures stands { (es : List Accepted) → StandsAt es self.old.arbiter
            → StandsAt (es ++ recovered snapshot.now ∷ []) self.new.arbiter }
        ensures keeps { state self.new.arbiter ≡ state self.old.arbiter }
        ensures channel { self.new.arbiter.channel ≡ self.old.arbiter.channel }
        ensures rest { self.new ≡ record self.old { arbiter = self.new.arbiter } }
    {
        self.arbiter.snapshot_from(snapshot);
    }

    // Takes in a packet that passes at once and shows it, where the event is one, and returns whether it is.
    fn pass_at_once(&mut self, event: &Event<A>) -> Result<bool, Memory>
        ensures tells { IfOk result (λ passed. passed
            ≡ passes_now (event_of event.now) self.old.arbiter) }
        ensures passed { IfOk result (λ passed. passed ≡ true
            → (listed : List Instrument) (es : List Accepted) (gone : List Moment)
            → Stands listed es gone self.old → Stands listed (es ++ event_of event.now ∷ []) gone self.new) }
        ensures kept { IfOk result (λ passed. passed ≡ false → self.new ≡ self.old) }
        ensures channel { OnOk result (self.new.arbiter.channel ≡ self.old.arbiter.channel) }
        ensures keeps { self.new.keeps_lines ≡ self.old.keeps_lines }
        ensures sound { OnOk result (self.new.has_failed ≡ self.old.has_failed) }
        ensures front { BeginsWith self.new.held self.old.held }
        ensures begins { OnErr result (HasBrokenOff (event_of event.now ∷ []) self.old self.new) }
    {
        match event {
            Event::Packet(packet) => self.pass_packet(packet),
            _ => Ok(false),
        }
    }

    // Takes in a packet that passes at once and shows it, and returns whether it does.
    fn pass_packet(&mut self, packet: &Packet<A>) -> Result<bool, Memory>
        ensures tells { IfOk result (λ passed. passed
            ≡ passes_at_once packet.now.number self.old.arbiter) }
        ensures passed { IfOk result (λ passed. passed ≡ true
            → (listed : List Instrument) (es : List Accepted) (gone : List Moment)
            → Stands listed es gone self.old → Stands listed (es ++ came packet.now ∷ []) gone self.new) }
        ensures kept { IfOk result (λ passed. passed ≡ false → self.new ≡ self.old) }
        ensures channel { OnOk result (self.new.arbiter.channel ≡ self.old.arbiter.channel) }
        ensures keeps { self.new.keeps_lines ≡ self.old.keeps_lines }
        ensures sound { OnOk result (self.new.has_failed ≡ self.old.has_failed) }
        ensures front { BeginsWith self.new.held self.old.held }
        ensures begins { OnErr result (HasBrokenOff (came packet.now ∷ []) self.old self.new) }
    {
        if !self.arbiter.pass_at_once(packet) {
            return Ok(false);
        }
        self.desks.pass(&mut self.held, packet)?;
        Ok(true)
    }

    // Takes in an event, and makes no move.
    fn take_in(&mut self, event: Event<A>) -> Result<(), Memory>
        ensures stands { OnOk result ((es : List Accepted) → StandsAt es self.old.arbiter
            → StandsAt (es ++ event_of event ∷ []) self.new.arbiter) }
        ensures keeps { OnOk result (state self.new.arbiter ≡ state self.old.arbiter) }
        ensures channel { OnOk result (self.new.arbiter.channel ≡ self.old.arbiter.channel) }
        ensures rest { self.new ≡ record self.old { arbiter = self.new.arbiter } }
    {
        take_in(&mut self.arbiter, event)
    }

    // Makes moves until none is possible.
    fn move_on(&mut self) -> Result<(), Memory>
        ensures advances { OnOk result (Advances self.old self.new) }
        ensures channel { OnOk result (self.new.arbiter.channel ≡ self.old.arbiter.channel) }
        ensures keeps { self.new.keeps_lines ≡ self.old.keeps_lines }
        ensures sound { OnOk result (self.new.has_failed ≡ self.old.has_failed) }
        ensures front { BeginsWith self.new.held self.old.held }
        ensures begins { OnErr result (BreaksOffOnWay self.old self.new) }
    {
        while let Some(step) = self.arbiter.step() {
            self.take_step(step)?;
        }
        Ok(())
    }

    // Shows a step: a packet that passes, or a jump to the newest snapshots, which the arbiter took.
    fn take_step(&mut self, step: Step<A>) -> Result<(), Memory>
        ensures desks { OnOk result (self.new.desks
            ≡ stepped_desks step self.old.arbiter.newest self.old.desks) }
        ensures text { OnOk result (self.new.held ≡ self.old.held
            ++ kept_lines self.old.keeps_lines (stepped_moments step self.old.desks)) }
        ensures changed { OnOk result (self.new.changed
            ≡ changed_through self.old.changed (stepped_moments step self.old.desks)) }
        ensures keeps { self.new.keeps_lines ≡ self.old.keeps_lines }
        ensures arbiter { OnOk result (self.new.arbiter ≡ self.old.arbiter) }
        ensures sound { OnOk result (self.new.has_failed ≡ self.old.has_failed) }
        ensures err { OnErr result (BreaksOff
            (kept_lines self.old.keeps_lines (stepped_moments step self.old.desks)) self.old.held
            self.new.held) }
    {
        match step {
            Step::Pass(packet) => {
                self.desks.pass(&mut self.held, &packet)?;
                Ok(())
            }
            Step::Jump { old, new } => {
                let taken = self.arbiter.newest();
                self.desks.jump(&mut self.held, old, new, taken)?;
                Ok(())
            }
        }
    }
}

/// Gives the lines that the moves of these events show, which are those that each complete feed owes that agrees with
/// them, from an engine of its own. The conditions are those of [`Engine::new`].
///
/// # Errors
///
/// Memory ran out.
pub fn replay<A: Allocator + Copy, W: Window<Packet<A>> + Drop>(
    alloc: A,
    events: &[Event<A>],
    instruments: &[Instrument],
    window: W,
    start: Start,
) -> Result<Vec<u8, A>, Memory>
    requires fit { AreFit instruments.now }
    requires first { (W.view window).first ≡ 1 }
    requires empty { (W.view window).held ≡ map.empty }
    ensures shown { IfOk result (λ text. text.items
        ≡ shown_lines instruments.now
        (moves_of (record { listed = instruments.now; room = (W.view window).room; start = start })
        (map event_of events.now))) }
    ensures owed { IfOk result (λ text. (feed : List PacketContent)
        → IsHonest instruments.now feed (map event_of events.now)
        → text.items ≡ lines instruments.now feed (numbered_moves
        (moves_of (record { listed = instruments.now; room = (W.view window).room; start = start })
        (map event_of events.now)))) }
{
    let mut engine = Engine::new(alloc, instruments, window, start)?;
    lines_of(&mut engine, alloc, events)
}

// Takes in the first events of an engine, and gives the lines that they show.
fn lines_of<A: Allocator + Copy, W: Window<Packet<A>> + Drop>(
    engine: &mut Engine<A, W>,
    alloc: A,
    events: &[Event<A>],
) -> Result<Vec<u8, A>, Memory>
    ensures { IfOk result (λ text. (listed : List Instrument) → Stands listed [] [] engine.old
        → (then : View) × Stands listed (map event_of events.now) [] then
        × (then.keeps_lines ≡ engine.old.keeps_lines)
        × (then.arbiter.channel ≡ engine.old.arbiter.channel) × (text.items ≡ then.held)) }
{
    for event in events {
        engine.on(event.copy(alloc)?)?;
    }
    let mut text = Vec::new(alloc);
    engine.drain_lines(&mut text)?;
    Ok(text)
}
