//! A listed security: its book, moved forward in place, and its mark.

ghost use Rattle.std.specs.Prelude.{◌≡◌, ◌++◌, OnErr, OnOk};
ghost use Rattle.mdp_templates.specs.Instrument.{HasDepth};
ghost use Rattle.mdp_desks.specs.Desks.{desk_at_start, desk_entered, desk_jumped, desk_rebased, desk_settled, desk_standing};
ghost use Rattle.mdp_desks.specs.Lines.{text_of};
ghost use Rattle.mdp_print.specs.Pieces.{BreaksOff};

use crate::lines::put_book;
use mdp_books::{EventEnd, Place};
use mdp_quotes::Live;
use mdp_templates::{Entry, Instrument, Memory, Snapshot};
use std::alloc::Allocator;

/// A security's book, and the number of the last packet that its snapshot included, 0 with none. It is
/// marked if it is to be printed at the next event end behind that packet.
#[derive(Drop)]
pub struct Desk {
    pub instrument: Instrument,
    pub base: u32,
    pub book: Live,
    pub marked: bool,
}

impl Desk {
    /// Makes the desk of a security before any packet.
    pub fn new(instrument: Instrument) -> Desk
        requires { HasDepth instrument }
        ensures { result ≡ desk_at_start instrument }
    {
        let book = Live::empty(instrument.depth);
        Desk {
            instrument,
            base: 0,
            book,
            marked: false,
        }
    }

    /// Takes an entry that names the security.
    pub fn enter(&mut self, place: Place, entry: &Entry)
        ensures { self.new ≡ desk_entered place entry.now self.old }
    {
        if place.packet > self.base {
            self.book.apply(place, entry);
            self.marked = true;
        }
    }

    /// Takes a snapshot of the security as its base, and waits for the first event end behind it.
    pub fn rebase(&mut self, snapshot: &Snapshot)
        requires { HasDepth self.old.instrument }
        ensures { self.new ≡ desk_rebased snapshot.now self.old }
    {
        self.marked = true;
        self.base = snapshot.last();
        self.book = Live::of_snapshot(snapshot, self.instrument.depth);
    }

    /// Jumps to a snapshot of the security, if there is one.
    pub fn jump(&mut self, base: &Option<Snapshot>)
        requires { HasDepth self.old.instrument }
        ensures { self.new ≡ desk_jumped base.now self.old }
    {
        if let Some(snapshot) = base {
            self.rebase(snapshot);
        }
    }

    /// Forgets the mark where an event ended in this packet.
    pub fn settle(&mut self, packet: u32)
        ensures { self.new ≡ desk_settled packet self.old }
    {
        if packet > self.base {
            self.marked = false;
        }
    }

    /// Appends the lines that are owed where an event ends. Where memory runs out, they break off.
    pub fn put<A: Allocator>(&self, out: &mut Vec<u8, A>, end: EventEnd) -> Result<(), Memory>
        ensures ok { OnOk result (out.new.items ≡ out.old.items
            ++ text_of end (desk_standing end.packet self.now)) }
        ensures err { OnErr result (BreaksOff (text_of end (desk_standing end.packet self.now))
            out.old.items out.new.items) }
    {
        if end.packet > self.base && self.marked {
            put_book(out, end, &self.instrument.name, &self.book)?;
        }
        Ok(())
    }
}
