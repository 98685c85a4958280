//! The end of a board that reads, and never waits.

ghost use Rattle.std.specs.Prelude.{◌≡◌, ◌<◌, ◌≤◌, ◌⊎◌, length, map, slice_index_or, All, IfSome, IfNone};
ghost use mathlib.Core.List.{IsPrefix};
ghost use Rattle.left_right.specs.Sides.{view};
ghost use Rattle.mdp_lanes.specs.declared.row.Row.TheVariants.{Never};
ghost use Rattle.mdp_lanes.specs.Rows.{rows_after};
ghost use Rattle.mdp_lanes.specs.Boards.{Knows};

use crate::history::Front;
use crate::row::Row;
use crate::sheet::Sheet;
use crate::shown::{IsShown, Known, Look};
use crate::told::Told;
use crossbeam_utils::rule::Protocol;
use left_right::reader::Reader as Side;
use std::alloc::Allocator;
use std::marker::Model;

pub(crate) type BoardSide<A> = Side<Sheet<A>, Known, IsShown, A>;

/// Reads rows. A contract sees its board, the number of slots, and the longest front of the published steps that it has
/// read or was told of.
#[derive(Drop)]
pub struct Reader<A: Allocator + Copy>
where
    IsShown: Protocol<Sheet<A>, Known>,
{
    pub(crate) slots: usize,
    pub(crate) count: u64,
    pub(crate) front: Front,
    // None while it is inside a read.
    pub(crate) side: Option<BoardSide<A>>,
}

impl<A: Allocator + Copy> Model for Reader<A>
where
    IsShown: Protocol<Sheet<A>, Known>,
{
    ghost use Rattle.std.specs.Prelude.{◌≡◌, ◌<◌, length, IfSome};
    ghost use Rattle.left_right.specs.Sides.{view as seat_view};
    ghost use Rattle.mdp_lanes.specs.Boards.{Knows, ReaderView};

    ghost Value = { ReaderView };

    ghost view = { λ r. record { board = r.front.book; slots = r.slots; front = r.front.log } };

    ghost invariant = { λ r.
        (0 < r.slots)
        × (r.count ≡ length r.front.log)
        × IfSome r.side (λ s. Knows (seat_view s.place) r.front.book r.slots) };
}

impl<A: Allocator + Copy> Reader<A> {
    /// Takes in what the publisher of this board told. From now on no read shows less.
    pub fn learn(&mut self, told: Told)
        requires { told.board ≡ self.old.board }
        ensures same { (self.new.board ≡ self.old.board) × (self.new.slots ≡ self.old.slots) }
        ensures one { (self.new.front ≡ self.old.front) ⊎ (self.new.front ≡ told.steps) }
        ensures this { IsPrefix self.old.front self.new.front }
        ensures that { IsPrefix told.steps self.new.front }
    {
        let mut both = self.front.again();
        both.learn(&told.front);
        if self.count < told.count {
            self.count = told.count;
            self.front = told.front;
        }
    }

    /// Reads the rows of these slots, all as one front of the published steps leaves them, and answers how many steps
    /// that front has. It begins with what this reader has read and was told of. The condition is as many places for
    /// rows as slots, each slot being one of the board's.
    ///
    /// None where the publisher has ended, or where the copy that is shown lies behind what this reader was told of,
    /// which the order of the publisher's steps rules out. Then no row was read.
    pub fn read(&mut self, slots: &[u16], out: &mut [Row]) -> Option<u64>
        requires slots { All (λ slot. slot < self.old.slots) slots.now }
        requires out { length out.old ≡ length slots.now }
        ensures same { (self.new.board ≡ self.old.board) × (self.new.slots ≡ self.old.slots) }
        ensures front { IfSome result (λ n. (n ≡ length self.new.front)
            × IsPrefix self.old.front self.new.front) }
        ensures rows { IfSome result (λ _. out.new ≡ rows_after slots.now self.new.front) }
        ensures none { IfNone result ((self.new ≡ self.old) × (out.new ≡ out.old)) }
    {
        let side = self.side.take()?;
        let (side, found) = look(side, &self.front, self.count, slots, out);
        self.side = Some(side);
        let (front, count) = found?;
        self.front = front;
        self.count = count;
        Some(count)
    }
}

// Copies rows from the copy that is shown, and answers its front, whose length is beside it. Where that is shorter than
// `front`, whose length is `count`, nothing is copied.
fn look<A: Allocator + Copy>(
    side: BoardSide<A>,
    front: &Front,
    count: u64,
    slots: &[u16],
    out: &mut [Row],
) -> (BoardSide<A>, Option<(Front, u64)>)
    requires some { 0 < (view side.place).slots }
    requires board { (view side.place).front.book ≡ front.now.book }
    requires count { count ≡ length front.now.log }
    requires slots { All (λ slot. slot < (view side.place).slots) slots.now }
    requires out { length out.old ≡ length slots.now }
    ensures known { Knows (view result.0.place) front.now.book (view side.place).slots }
    ensures front { IfSome result.1 (λ f. (f.0.book ≡ front.now.book) × (f.1 ≡ length f.0.log)
        × IsPrefix front.now.log f.0.log) }
    ensures rows { IfSome result.1 (λ f. out.new ≡ rows_after slots.now f.0.log) }
    ensures none { IfNone result.1 (out.new ≡ out.old) }
{
    let reading = match side.enter_as::<Look>() {
        Ok(reading) => reading,
        Err(side) => return (side, None),
    };
    let sheet = reading.get();
    if sheet.length < count {
        return (reading.leave(), None);
    }
    let mut both = front.again();
    both.learn(&sheet.front);
    copy_rows(sheet.rows.as_slice(), slots, out);
    let found = (sheet.front.again(), sheet.length);
    (reading.leave(), Some(found))
}

// Copies the row of each slot.
fn copy_rows(rows: &[Row], slots: &[u16], out: &mut [Row])
    requires slots { All (λ slot. slot < length rows.now) slots.now }
    requires out { length out.old ≡ length slots.now }
    ensures { out.new ≡ map (λ slot. slice_index_or rows.now slot Never) slots.now }
{
    for (k, slot) in slots.iter().enumerate() {
        out[k] = rows[*slot as usize];
    }
}
