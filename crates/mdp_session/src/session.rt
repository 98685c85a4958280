//! A handler whose memory is the heap's.

ghost use Rattle.std.specs.Prelude.{◌≡◌, ◌≤◌, [], ◌∷◌, List, true, false, map, slice_get, option_and_then, option_copied, IfOk, IfErr, IsErr, OnErr, OnOk};
ghost use Rattle.std.specs.Option.{option_map};
ghost use Rattle.mdp_templates.specs.Instrument.{AreFit};
ghost use Rattle.mdp_templates.specs.declared.instrument.Instrument.{Instrument};
ghost use Rattle.mdp_print.specs.Pieces.{BeginsWith};
ghost use Rattle.mdp_quotes.specs.Consolidation.{consolidation_of};
ghost use Rattle.mdp_quotes.specs.Top.{top_of_book};
ghost use Rattle.mdp_arbiter.specs.Accepted.{Event as Accepted, closed};
ghost use Rattle.mdp_arbiter.specs.Machine.{trace};
ghost use Rattle.mdp_desks.specs.Moments.{Moment, moments};
ghost use Rattle.mdp_engine.specs.Engine.{AreChanged, HasBrokenOff, Stands};
ghost use Rattle.mdp_receiver.specs.Handling.{GoesOn, Handles, HasBrokenOffAt, MovesDatagram, is_current, state_of};

use mdp_arbiter::Start;
use mdp_books::Book;
use mdp_desks::Marked;
use mdp_quotes::{Consolidated, TopOfBook};
use mdp_receiver::{ChannelState, Handler, Moved, Taken};
use mdp_templates::{Feed, Instrument, Memory};
use std::alloc::Global;
use std::marker::Model;

/// A handler of one channel, seen as what the handler holds. It asks the heap for memory, and has no type parameters,
/// so that a box of it can lie behind a pointer. Each method does what the handler's of that name does.
pub struct Session {
    handler: Handler<Global>,
}

impl Model for Session {
    ghost use Rattle.mdp_engine.specs.Engine.{View, view_code};

    ghost Value = { View };

    ghost coded = { view_code };

    ghost view = { λ s. s.handler };
}

// A box of a session is let go where all that is known of the session is that it can be: so it tells how by itself.
impl Drop for Session {
    fn drop(self) {
        let Session { handler: _handler } = self;
    }
}

impl Session {
    /// Makes a session that has taken nothing, of these instruments, which are fit. The packet `window` numbers after
    /// the next one gives that one up.
    ///
    /// # Errors
    ///
    /// Memory ran out.
    pub fn new(
        alloc: Global,
        instruments: &[Instrument],
        window: u32,
        start: Start,
    ) -> Result<Session, Memory>
        requires fit { AreFit instruments.now }
        requires some { 1 ≤ window }
        requires most { window ≤ 65536 }
        ensures handles { IfOk result (Handles
            (record { listed = instruments.now; room = window; start = start }) [] []) }
        ensures sound { IfOk result (λ session. session.has_failed ≡ false) }
        ensures empty { IfOk result (λ session. session.held ≡ []) }
        ensures keeps { IfOk result (λ session. session.keeps_lines ≡ true) }
    {
        Ok(Session {
            handler: Handler::new(alloc, instruments, window, start)?,
        })
    }

    /// Keeps no lines from now on, and forgets those that it holds. The marks of what changed stay.
    pub fn keep_no_lines(&mut self)
        ensures none { self.new ≡ record self.old { held = []; keeps_lines = false } }
        ensures stands { (listed : List Instrument) (events : List Accepted) (gone : List Moment)
            → Stands listed events gone self.old → Stands listed events gone self.new }
    {
        self.handler.keep_no_lines();
    }

    /// Takes a datagram of a feed, and tells what became of it and what it moved. A datagram that is refused changes
    /// nothing.
    ///
    /// # Errors
    ///
    /// Memory ran out, now or in an earlier call.
    pub fn datagram_with_moves(
        &mut self,
        alloc: Global,
        feed: Feed,
        bytes: &[u8],
    ) -> Result<(Taken, Moved), Memory>
        ensures taken { IfOk result
            (λ told. MovesDatagram feed bytes.now told self.old self.new) }
        ensures sound { OnOk result (self.old.has_failed ≡ false) }
        ensures keeps { self.new.keeps_lines ≡ self.old.keeps_lines }
        ensures fails { IfErr result (λ _. self.new.has_failed ≡ true) }
        ensures err { OnErr result (BeginsWith self.new.held self.old.held) }
        ensures begins { OnErr result (HasBrokenOffAt feed bytes.now self.old self.new) }
        ensures stays { self.old.has_failed ≡ true → IsErr result }
        ensures rests { self.old.has_failed ≡ true → self.new ≡ self.old }
    {
        self.handler.datagram_with_moves(alloc, feed, bytes)
    }

    /// Closes the channel: from now on no packet passes, and no snapshot counts.
    ///
    /// # Errors
    ///
    /// Memory ran out in an earlier call.
    pub fn close(&mut self) -> Result<(), Memory>
        ensures goes { OnOk result (GoesOn (closed ∷ []) self.old self.new) }
        ensures keeps { self.new.keeps_lines ≡ self.old.keeps_lines }
        ensures fails { IfErr result (λ _. self.new.has_failed ≡ true) }
        ensures err { OnErr result (BeginsWith self.new.held self.old.held) }
        ensures begins { OnErr result (HasBrokenOff (closed ∷ []) self.old self.new) }
        ensures stays { self.old.has_failed ≡ true → IsErr result }
        ensures rests { self.old.has_failed ≡ true → self.new ≡ self.old }
    {
        self.handler.close()
    }

    /// Lends the lines that are held.
    pub fn lines(&self) -> &[u8]
        ensures { result.now ≡ self.now.held }
    {
        self.handler.lines()
    }

    /// Lends a mark for each slot, set for those whose book an event end printed since lines were cleared last.
    pub fn changed(&self) -> &Marked<Global>
        ensures now { result.now ≡ self.now.changed }
        ensures stands { (listed : List Instrument) (events : List Accepted) (gone : List Moment)
            → Stands listed events gone self.now
            → AreChanged listed (moments listed (trace self.now.arbiter.channel events)) gone
            result.now }
    {
        self.handler.changed()
    }

    /// Forgets the lines that are held, since they were handed on, and the marks of what changed.
    pub fn clear_lines(&mut self)
        ensures cleared { self.new
            ≡ record self.old { held = []; changed = map (λ _. false) self.old.changed } }
        ensures stands { (listed : List Instrument) (events : List Accepted) (gone : List Moment)
            → Stands listed events gone self.old
            → Stands listed events (moments listed (trace self.old.arbiter.channel events))
            self.new }
    {
        self.handler.clear_lines();
    }

    /// Returns where the channel stands.
    pub fn state(&self) -> ChannelState
        ensures { result ≡ state_of self.now }
    {
        self.handler.state()
    }

    /// Lends the book at a slot, whole: its four sides, or the place of its fault.
    pub fn book(&self, slot: usize) -> Option<&Book>
        ensures { option_copied result ≡ option_map (λ d. d.book) (slice_get self.now.desks slot) }
    {
        self.handler.book(slot)
    }

    /// Gives the consolidated levels of the book at a slot; none where the book is faulty or no security is listed
    /// there.
    pub fn consolidated(&self, slot: usize) -> Option<Consolidated>
        ensures { result
            ≡ option_and_then (λ d. consolidation_of d.book) (slice_get self.now.desks slot) }
    {
        self.handler.consolidated(slot)
    }

    /// Gives the best level of each consolidated side of the book at a slot; none where the book is faulty or no
    /// security is listed there.
    pub fn best(&self, slot: usize) -> Option<TopOfBook>
        ensures { result
            ≡ option_and_then (λ d. top_of_book d.book) (slice_get self.now.desks slot) }
    {
        self.handler.best(slot)
    }

    /// Returns whether the book at a slot is the complete feed's right before the packet that comes next.
    pub fn is_current(&self, slot: usize) -> bool
        ensures { result ≡ is_current self.now slot }
    {
        self.handler.is_current(slot)
    }
}
