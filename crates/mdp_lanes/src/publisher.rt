//! The end of a board that publishes.

ghost use Rattle.std.specs.Prelude.{◌≡◌, [], drop, length, vec_len, MatchResult};
ghost use Rattle.mdp_lanes.specs.declared.step.Step.TheVariants.{Jump, Event};
ghost use Rattle.mdp_lanes.specs.Boards.{with_step, AreRowsAfter, Continues, IsSheet};
ghost use Rattle.mdp_lanes.specs.Updates.{step_of};

use crate::history::{self, Front, Head};
use crate::row::Row;
use crate::sheet::{Face, Sheet};
use crate::shown::{IsShown, Known, Look};
use crate::told::Told;
use crate::update::{Change, Update};
use core::mem::replace_with;
use crossbeam_utils::rule::Protocol;
use left_right::Absorb;
use left_right::writer::Writer;
use mdp_templates::Memory;
use std::alloc::Allocator;
use std::marker::Model;
use std::sync::Wait;

pub(crate) type BoardWriter<A> = Writer<Sheet<A>, Update<A>, Known, IsShown, A>;

/// Publishes steps, one after the other. A contract sees its board, the number of slots, and the steps that were
/// published. End it by
/// `end`.
pub struct Publisher<A: Allocator + Copy>
where
    Sheet<A>: Absorb<Update<A>, State = Face>,
    IsShown: Protocol<Sheet<A>, Known>,
{
    pub(crate) alloc: A,
    pub(crate) slots: usize,
    pub(crate) head: Head,
    pub(crate) count: u64,
    pub(crate) front: Front,
    pub(crate) writer: BoardWriter<A>,
}

impl<A: Allocator + Copy> Model for Publisher<A>
where
    Sheet<A>: Absorb<Update<A>, State = Face>,
    IsShown: Protocol<Sheet<A>, Known>,
{
    ghost use Rattle.std.specs.Prelude.{◌≡◌, [], drop, length};
    ghost use Rattle.mdp_lanes.specs.Boards.{Published, IsSheet};
    ghost use Rattle.mdp_lanes.specs.History.{head_of};

    ghost Value = { Published };

    ghost view = { λ p. record { board = p.front.book; slots = p.slots; steps = p.front.log } };

    ghost invariant = { λ p.
        (p.head ≡ head_of p.front.book)
        × (p.count ≡ length p.front.log)
        × (p.writer.desk.shown.value.front ≡ p.front)
        × (length p.writer.desk.shown.value.rows.items ≡ p.slots)
        × IsSheet p.writer.desk.shown.value
        × (drop p.writer.behind p.writer.log.items ≡ []) };
}

/// Shows readers a copy with the update. Without memory they see what they saw.
pub(crate) fn send<R: Wait, A: Allocator + Copy>(
    writer: BoardWriter<A>,
    rt: &R,
    update: Update<A>,
) -> (BoardWriter<A>, Result<(), Memory>)
    requires pending { drop writer.behind writer.log.items ≡ [] }
    requires sheet { IsSheet writer.desk.shown.value }
    requires continues { Continues writer.desk.shown.value update }
    ensures pending { drop result.0.behind result.0.log.items ≡ [] }
    ensures sheet { IsSheet result.0.desk.shown.value }
    ensures slots { length result.0.desk.shown.value.rows.items
        ≡ length writer.desk.shown.value.rows.items }
    ensures shown { MatchResult result.1
        (λ _. result.0.desk.shown.value.front ≡ update.front)
        (λ _. result.0.desk.shown.value.front ≡ writer.desk.shown.value.front) }
{
    let mut writer = writer;
    if writer.append(update).is_err() {
        return (writer, Err(Memory));
    }
    match writer.publish_as::<Look, R>(rt) {
        (writer, Ok(())) => (writer, Ok(())),
        (writer, Err(_)) => (writer, Err(Memory)),
    }
}

impl<A: Allocator + Copy> Publisher<A> {
    /// Publishes an event's rows, all at once: each pair gives its slot, from 0, its row, and of several for one slot
    /// the last stands. With no pair it's a step too. A row for a slot that the board hasn't is never shown. It waits
    /// for readers that are inside a read.
    ///
    /// # Errors
    ///
    /// Memory ran out, or 2^64 - 1 steps were published. Then nothing was published.
    pub fn event<R: Wait>(&mut self, rt: &R, rows: &[(u16, Row)]) -> Result<(), Memory>
        ensures { MatchResult result (λ _. self.new ≡ with_step self.old (Event rows.now))
            (λ _. self.new ≡ self.old) }
    {
        let mut pairs = Vec::new(self.alloc);
        pairs.extend_from_slice(rows)?;
        self.publish(rt, Change::Give(pairs))
    }

    /// Publishes a jump: each row is stale until a later event gives another. It waits for readers that are inside a
    /// read.
    ///
    /// # Errors
    ///
    /// As `event`.
    pub fn jump<R: Wait>(&mut self, rt: &R) -> Result<(), Memory>
        ensures { MatchResult result (λ _. self.new ≡ with_step self.old Jump)
            (λ _. self.new ≡ self.old) }
    {
        self.publish(rt, Change::Wipe)
    }

    // Publishes a step. The history has it before readers see it.
    fn publish<R: Wait>(&mut self, rt: &R, change: Change<A>) -> Result<(), Memory>
        ensures { MatchResult result (λ _. self.new ≡ with_step self.old (step_of change))
            (λ _. self.new ≡ self.old) }
    {
        let Some(count) = self.count.checked_add(1) else {
            return Err(Memory);
        };
        let mut front = self.front.again();
        if !history::add(&self.head, &mut front, &change, self.count) {
            return Err(Memory);
        }
        let update = Update {
            change,
            length: count,
            front: front.again(),
        };
        replace_with(
            &mut self.writer,
            (rt, update),
            |writer: BoardWriter<A>, (rt, update): (&R, Update<A>)| -> (
                BoardWriter<A>,
                Result<(), Memory>,
            )
                requires pending { drop writer.behind writer.log.items ≡ [] }
                requires sheet { IsSheet writer.desk.shown.value }
                requires continues { Continues writer.desk.shown.value update }
                ensures pending { drop result.0.behind result.0.log.items ≡ [] }
                ensures sheet { IsSheet result.0.desk.shown.value }
                ensures slots { length result.0.desk.shown.value.rows.items
                    ≡ length writer.desk.shown.value.rows.items }
                ensures shown { MatchResult result.1
                    (λ _. result.0.desk.shown.value.front ≡ update.front)
                    (λ _. result.0.desk.shown.value.front ≡ writer.desk.shown.value.front) }
            { send(writer, rt, update) },
        )?;
        self.count = count;
        self.front = front;
        Ok(())
    }

    /// Makes a token of all that was published. A reader that learns it never shows less from then on.
    pub fn tell(&mut self) -> Told
        ensures told { (result.board ≡ self.old.board) × (result.steps ≡ self.old.steps) }
        ensures same { self.new ≡ self.old }
    {
        Told {
            count: self.count,
            front: self.front.again(),
        }
    }

    /// Lets the board go, and hands back the row of each slot as all steps left it, which is what readers saw last. It
    /// waits for readers that are inside a read; a later read answers none.
    pub fn end<R: Wait>(self, rt: &R) -> Vec<Row, A>
        ensures many { vec_len result ≡ self.slots }
        ensures rows { AreRowsAfter result.items self.steps }
    {
        let Self {
            alloc: _,
            slots: _,
            head: _head,
            count: _,
            front: _front,
            writer,
        } = self;
        let Sheet {
            rows,
            length: _,
            front: _,
        } = Box::into_inner(writer.take(rt));
        rows
    }
}
