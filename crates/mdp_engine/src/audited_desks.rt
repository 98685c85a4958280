//! The desks of all listed securities, with their calendar spreads.

ghost use Rattle.std.specs.Prelude.{◌≡◌, ◌++◌, ◌∷◌, [], ◌≤◌, IfOk, OnErr, OnOk, map, length};
ghost use Rattle.std.specs.List.{flat_map};
ghost use Rattle.mdp_templates.specs.Instrument.{AreFit};
ghost use Rattle.mdp_books.specs.Feed.{sent_as, sent_in};
ghost use Rattle.mdp_print.specs.Pieces.{BreaksOff};
ghost use Rattle.mdp_desks.specs.Desks.{desk_at_start, desk_settled, desk_standing, desks_after, desks_moment, desks_through, passed_desks, passed_moments, rebased_desks};
ghost use Rattle.mdp_desks.specs.Lines.{audit_text, lines_as};
ghost use Rattle.mdp_desks.specs.Moments.{at_event_end, at_jump};
ghost use Rattle.mdp_desks.specs.Changed.{changed_by, changed_through};
ghost use Rattle.mdp_engine.specs.Kept.{kept_lines};

use crate::audits::put_due_audits;
use crate::held::Held;
use crate::parts::{mark_spreads, parts_of};
use crate::spreads::{Spread, spreads_of};
use mdp_books::EventEnd;
use mdp_desks::{Desk, Desks, Marked};
use mdp_print::put_jump;
use mdp_templates::{Entry, Instrument, Memory, Message, Packet, Snapshot};
use std::alloc::Allocator;
use std::marker::Model;

/// The desks of the listed securities and the places of the calendar spreads among them, seen as the list of desks.
/// Between event ends no spread's mark in `due` is set.
#[derive(Drop)]
pub struct AuditedDesks<A: Allocator> {
    desks: Desks<A>,
    spreads: Vec<Spread, A>,
    parts: Vec<Vec<usize, A>, A>,
    due: Marked<A>,
}

impl<A: Allocator> Model for AuditedDesks<A> {
    ghost use Rattle.std.specs.Prelude.{List};
    ghost use Rattle.mdp_desks.specs.declared.desk.Desk.{Desk};
    ghost use Rattle.mdp_desks.specs.Beside.{listed_in};
    ghost use Rattle.mdp_engine.specs.Parts.{AreAudited, lists_in};

    ghost Value = { List Desk };

    ghost view = { λ d. d.desks };

    ghost invariant = { λ d. AreAudited (listed_in d.desks) d.spreads.items (lists_in d.parts.items) d.due };
}

impl<A: Allocator + Copy> AuditedDesks<A> {
    /// Makes the desks of these securities before any packet.
    pub fn new(alloc: A, instruments: &[Instrument]) -> Result<AuditedDesks<A>, Memory>
        requires { AreFit instruments.now }
        ensures { IfOk result (λ d. d ≡ map desk_at_start instruments.now) }
    {
        let desks = Desks::new(alloc, instruments)?;
        let spreads = spreads_of(alloc, desks.slots(), instruments)?;
        let parts = parts_of(alloc, instruments.len(), &spreads)?;
        let due = Marked::none(alloc, spreads.len())?;
        Ok(AuditedDesks {
            desks,
            spreads,
            parts,
            due,
        })
    }

    /// Lends the desks, in listed order.
    pub fn as_slice(&self) -> &[Desk]
        ensures { result.now ≡ self.now }
    {
        self.desks.as_slice()
    }

    // Takes the entries of a message.
    fn hear(&mut self, end: EventEnd, entries: &[Entry])
        requires { length entries.now ≤ 255 }
        ensures { self.new ≡ desks_through end.packet end.message 1 entries.now self.old }
    {
        self.desks.hear(end, entries);
    }

    // Appends the lines of the calendar spreads that an event end audits.
    fn put_spreads(&mut self, out: &mut Vec<u8, A>, end: EventEnd) -> Result<(), Memory>
        ensures same { self.new ≡ self.old }
        ensures text { OnOk result (out.new.items ≡ out.old.items
            ++ flat_map (audit_text end (map (desk_standing end.packet) self.old))
            (map (desk_standing end.packet) self.old)) }
        ensures err { OnErr result (BreaksOff
            (flat_map (audit_text end (map (desk_standing end.packet) self.old))
            (map (desk_standing end.packet) self.old)) out.old.items out.new.items) }
    {
        mark_spreads(&mut self.due, self.desks.due_at(end.packet), &self.parts);
        put_due_audits(
            out,
            end,
            self.desks.as_slice(),
            self.desks.marked(),
            &self.spreads,
            &mut self.due,
        )
    }

    // Appends the lines that an event end owes.
    #[tactic(auto, unfolding(mdp_desks::specs::Lines::lines_as))]
    fn put(&mut self, out: &mut Vec<u8, A>, end: EventEnd) -> Result<(), Memory>
        ensures same { self.new ≡ self.old }
        ensures text { OnOk result (out.new.items ≡ out.old.items
            ++ lines_as end (map (desk_standing end.packet) self.old)) }
        ensures err { OnErr result (BreaksOff
            (lines_as end (map (desk_standing end.packet) self.old)) out.old.items out.new.items) }
    {
        self.desks.put_books(out, end)?;
        self.put_spreads(out, end)
    }

    // Shows an event end: marks the desks whose books it prints and, where lines are kept, appends its lines.
    fn show(&mut self, out: &mut Held<A>, end: EventEnd) -> Result<(), Memory>
        ensures same { self.new ≡ self.old }
        ensures text { OnOk result (out.new.text.items ≡ out.old.text.items
            ++ kept_lines out.old.keeps_lines
            (at_event_end end (map (desk_standing end.packet) self.old) ∷ [])) }
        ensures changed { out.new.changed ≡ changed_by out.old.changed
            (at_event_end end (map (desk_standing end.packet) self.old)) }
        ensures keeps { out.new.keeps_lines ≡ out.old.keeps_lines }
        ensures err { OnErr result (BreaksOff (kept_lines out.old.keeps_lines
            (at_event_end end (map (desk_standing end.packet) self.old) ∷ []))
            out.old.text.items out.new.text.items) }
    {
        self.desks.mark_printed(&mut out.changed, end.packet);
        if !out.keeps_lines {
            return Ok(());
        }
        self.put(&mut out.text, end)
    }

    // Finds the desks that an event end in this packet has lines of, where some waited for it.
    fn ripen(&mut self, packet: u32)
        ensures { self.new ≡ self.old }
    {
        self.desks.ripen(packet);
    }

    // Forgets the marks where an event ended.
    fn settle(&mut self, packet: u32)
        ensures { self.new ≡ map (desk_settled packet) self.old }
    {
        self.desks.settle(packet);
    }

    // Takes the message that stands where an event may end, and shows the event end, if it is one.
    fn take(&mut self, out: &mut Held<A>, end: EventEnd, taken: &Message<'_>) -> Result<(), Memory>
        ensures desks { OnOk result (self.new
            ≡ desks_after (sent_as end.packet end.message taken.now) self.old) }
        ensures text { OnOk result (out.new.text.items ≡ out.old.text.items
            ++ kept_lines out.old.keeps_lines
            (desks_moment (sent_as end.packet end.message taken.now) self.old)) }
        ensures changed { OnOk result (out.new.changed ≡ changed_through out.old.changed
            (desks_moment (sent_as end.packet end.message taken.now) self.old)) }
        ensures keeps { out.new.keeps_lines ≡ out.old.keeps_lines }
        ensures err { OnErr result (BreaksOff (kept_lines out.old.keeps_lines
            (desks_moment (sent_as end.packet end.message taken.now) self.old))
            out.old.text.items out.new.text.items) }
    {
        self.hear(end, taken.entries());
        if taken.is_end() {
            self.ripen(end.packet);
            self.show(out, end)?;
            self.settle(end.packet);
        }
        Ok(())
    }

    /// Passes a packet, and shows the event ends in it: it marks the desks whose books they print and, where lines are
    /// kept, appends their lines. After want of memory these break off, and the desks are of no more use.
    pub fn pass(&mut self, out: &mut Held<A>, packet: &Packet<A>) -> Result<(), Memory>
        ensures desks { OnOk result (self.new ≡ passed_desks (sent_in packet.now) self.old) }
        ensures text { OnOk result (out.new.text.items ≡ out.old.text.items
            ++ kept_lines out.old.keeps_lines (passed_moments (sent_in packet.now) self.old)) }
        ensures changed { OnOk result (out.new.changed ≡ changed_through out.old.changed
            (passed_moments (sent_in packet.now) self.old)) }
        ensures keeps { out.new.keeps_lines ≡ out.old.keeps_lines }
        ensures err { OnErr result (BreaksOff
            (kept_lines out.old.keeps_lines (passed_moments (sent_in packet.now) self.old))
            out.old.text.items out.new.text.items) }
    {
        let number = packet.number();
        for n in 0..packet.len() {
            let end = EventEnd {
                packet: number,
                message: n as u64 + 1,
            };
            self.take(out, end, &packet.message(n))?;
        }
        Ok(())
    }

    // Replaces each book by its security's snapshot, where there is one.
    fn rebase(&mut self, bases: &[Option<Snapshot>])
        ensures { self.new ≡ rebased_desks bases.now self.old }
    {
        self.desks.rebase(bases);
    }

    /// Jumps from packet number `old` to `new`: where lines are kept, appends the line of the jump; and replaces each
    /// book by its security's snapshot, listed side by side, where there is one. After want of memory nothing is
    /// appended, and the desks are of no more use.
    pub fn jump(
        &mut self,
        out: &mut Held<A>,
        old: u64,
        new: u64,
        bases: &[Option<Snapshot>],
    ) -> Result<(), Memory>
        ensures desks { OnOk result (self.new ≡ rebased_desks bases.now self.old) }
        ensures text { OnOk result (out.new.text.items ≡ out.old.text.items
            ++ kept_lines out.old.keeps_lines (at_jump old new ∷ [])) }
        ensures changed { out.new.changed ≡ out.old.changed }
        ensures keeps { out.new.keeps_lines ≡ out.old.keeps_lines }
        ensures err { OnErr result (out.new.text.items ≡ out.old.text.items) }
    {
        if out.keeps_lines {
            put_jump(&mut out.text, old, new)?;
        }
        self.rebase(bases);
        Ok(())
    }
}
