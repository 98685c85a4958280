//! The reports of several moments.

ghost use Rattle.std.specs.List.{slice_range};
ghost use Rattle.std.specs.Prelude.{◌≡◌, ◌++◌, ◌∷◌, [], ◌≤◌, length, OnOk, IfErr, IfOk};
ghost use Rattle.mdp_desks.specs.Reports.{of_event_end, of_jump};
ghost use Rattle.mdp_reports.specs.Contents.{heading_at, place_at, told_at};
ghost use Rattle.mdp_reports.specs.Flat.{told_of_book, places_to, reports_with};
ghost use Rattle.mdp_reports.specs.Recent.{no_room};

use crate::places::{Heading, ReportAt, ToldAt};
use crate::rest::Rest;
use mdp_books::EventEnd;
use mdp_desks::put_book;
use mdp_quotes::{Best, Live};
use mdp_templates::{Memory, Name};
use std::alloc::Allocator;
use std::marker::Model;

/// How much reports hold, so that the next ones can be made with room for as much.
#[derive(Clone, Copy)]
pub struct Room {
    pub(crate) bytes: usize,
    pub(crate) rows: usize,
    pub(crate) places: usize,
}

impl Room {
    /// Makes room for nothing.
    pub fn none() -> Room
        ensures { result ≡ no_room }
    {
        Room {
            bytes: 0,
            rows: 0,
            places: 0,
        }
    }
}

/// What a worker reports of moments, one after another, seen as the list of its reports.
#[derive(Drop)]
pub struct Reports<A: Allocator> {
    bytes: Vec<u8, A>,
    rows: Vec<ToldAt, A>,
    places: Vec<ReportAt, A>,
}

impl<A: Allocator> Model for Reports<A> {
    ghost use Rattle.std.specs.Prelude.{List};
    ghost use Rattle.mdp_desks.specs.Reports.{Report};
    ghost use Rattle.mdp_reports.specs.Flat.{AreFlat, reports_in};
    ghost use Rattle.mdp_reports.specs.ReportCode.{reports_code};

    ghost Value = { List Report };

    ghost coded = { reports_code };

    ghost view = { λ r. reports_in r.bytes.items r.rows.items r.places.items };

    ghost invariant = { λ r. AreFlat r.bytes.items r.rows.items r.places.items };
}

// Lets the last moment reach to this row, where it is an event end.
fn widen<A: Allocator>(places: &mut Vec<ReportAt, A>, to: usize) -> Result<(), Memory>
    ensures { OnOk result (places.new.items ≡ places_to to places.old.items) }
{
    match places.pop() {
        Some(ReportAt::Event { end, from, to: _ }) => places.push(ReportAt::Event {
            end,
            from,
            to,
        })?,
        Some(ReportAt::Jump { old, new }) => places.push(ReportAt::Jump { old, new })?,
        None => {}
    }
    Ok(())
}

// Appends a row with its lines.
fn put_told<A: Allocator>(
    bytes: &mut Vec<u8, A>,
    rows: &mut Vec<ToldAt, A>,
    places: &mut Vec<ReportAt, A>,
    end: EventEnd,
    slot: u16,
    name: &Name,
    live: &Live,
) -> Result<(), Memory>
    ensures bytes { OnOk result (bytes.new.items ≡ bytes.old.items
        ++ (told_of_book end slot name.now live.now).lines) }
    ensures rows { OnOk result (rows.new.items ≡ rows.old.items
        ++ record {
          slot = slot;
          from = length bytes.old.items;
          to = length bytes.new.items;
          best = (told_of_book end slot name.now live.now).best;
          top = (told_of_book end slot name.now live.now).top;
        } ∷ []) }
    ensures places { OnOk result (places.new.items
        ≡ places_to (length rows.new.items) places.old.items) }
{
    let from = bytes.len();
    let top = put_book(bytes, end, name, live)?;
    let best = Best::of(live.book());
    rows.push(ToldAt {
        slot,
        from,
        to: bytes.len(),
        best,
        top,
    })?;
    widen(places, rows.len())
}

// Returns where the rows of a moment stand that is an event end.
fn place_of(places: &[ReportAt], n: usize) -> Option<(usize, usize)>
    ensures { result ≡ place_at n places.now }
{
    match places.get(n) {
        Some(ReportAt::Event { from, to, .. }) => Some((*from, *to)),
        Some(ReportAt::Jump { .. }) => None,
        None => None,
    }
}

// Lends the rows from one place to another.
fn rows_between(rows: &[ToldAt], from: usize, to: usize) -> &[ToldAt]
    requires order { from ≤ to }
    requires within { to ≤ length rows.now }
    ensures { result.now ≡ slice_range rows.now from to }
{
    &rows[from..to]
}

impl<A: Allocator + Copy> Reports<A> {
    /// Makes a list with no reports, with room for as much as others held, and a quarter more.
    ///
    /// # Errors
    ///
    /// Memory ran out.
    pub fn with_room(alloc: A, room: Room) -> Result<Reports<A>, Memory>
        ensures { IfOk result (λ reports. reports ≡ []) }
    {
        Ok(Reports {
            bytes: Vec::with_capacity(alloc, room.bytes.saturating_add(room.bytes / 4))?,
            rows: Vec::with_capacity(alloc, room.rows.saturating_add(room.rows / 4))?,
            places: Vec::with_capacity(alloc, room.places.saturating_add(room.places / 4))?,
        })
    }

    /// Returns how much these reports hold.
    pub fn room(&self) -> Room {
        Room {
            bytes: self.bytes.len(),
            rows: self.rows.len(),
            places: self.places.len(),
        }
    }

    /// Begins the report of an event end, which tells of no security yet.
    ///
    /// # Errors
    ///
    /// Memory ran out. Then no report was begun.
    pub fn begin(&mut self, end: EventEnd) -> Result<(), Memory>
        ensures begun { OnOk result (self.new ≡ self.old ++ of_event_end end [] ∷ []) }
        ensures same { IfErr result (λ _. self.new ≡ self.old) }
    {
        let from = self.rows.len();
        self.places.push(ReportAt::Event {
            end,
            from,
            to: from,
        })?;
        Ok(())
    }

    /// Returns in the last report, where that is of an event end, of one more security: its slot among all listed ones,
    /// the lines of its book there, its best levels and the top of its consolidated book.
    ///
    /// # Errors
    ///
    /// Memory ran out. Then no report is left.
    pub fn put_row(
        &mut self,
        end: EventEnd,
        slot: u16,
        name: &Name,
        live: &Live,
    ) -> Result<(), Memory>
        ensures told { OnOk result (self.new
            ≡ reports_with (told_of_book end slot name.now live.now) self.old) }
        ensures emptied { IfErr result (λ _. self.new ≡ []) }
    {
        let Ok(()) = put_told(
            &mut self.bytes,
            &mut self.rows,
            &mut self.places,
            end,
            slot,
            name,
            live,
        ) else {
            self.bytes.clear();
            self.rows.clear();
            self.places.clear();
            return Err(Memory);
        };
        Ok(())
    }

    /// Reports a jump from packet number `old` to `new`.
    ///
    /// # Errors
    ///
    /// Memory ran out. Then nothing was reported.
    pub fn put_jump(&mut self, old: u64, new: u64) -> Result<(), Memory>
        ensures told { OnOk result (self.new ≡ self.old ++ of_jump old new ∷ []) }
        ensures same { IfErr result (λ _. self.new ≡ self.old) }
    {
        self.places.push(ReportAt::Jump { old, new })?;
        Ok(())
    }

    /// Returns how many reports there are.
    pub fn len(&self) -> usize
        ensures { result ≡ length self.now }
    {
        self.places.len()
    }

    /// Gives the moment that the report at place `n` is of, from 0; none where there is no report.
    pub fn heading(&self, n: usize) -> Option<Heading>
        ensures { result ≡ heading_at n self.now }
    {
        match self.places.get(n) {
            Some(ReportAt::Event { end, .. }) => Some(Heading::Event(*end)),
            Some(ReportAt::Jump { old, new }) => Some(Heading::Jump {
                old: *old,
                new: *new,
            }),
            None => None,
        }
    }

    /// Lends what the report at place `n` tells, from 0; nothing of a jump, and nothing where there is no report.
    pub fn rest(&self, n: usize) -> Rest<'_>
        ensures { result ≡ told_at n self.now }
    {
        match place_of(&self.places, n) {
            Some((from, to)) => Rest::of(&self.bytes, rows_between(&self.rows, from, to)),
            None => Rest::none(),
        }
    }
}
