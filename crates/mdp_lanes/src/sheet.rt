//! The copies of a board's rows: readers look at one while the publisher changes the other.

ghost use Rattle.std.specs.Prelude.{◌≡◌, length, replicate, fold, slice_set};
ghost use Rattle.mdp_lanes.specs.declared.row.Row.TheVariants.{Stale};
ghost use Rattle.mdp_lanes.specs.Updates.{with_row};

use crate::history::Front;
use crate::row::Row;
use crate::update::{Change, Update};
use left_right::Absorb;
use std::alloc::{AllocError, Allocator};

/// One copy: a row for each slot, as the steps of `front` leave it, and how many steps these are.
#[derive(Drop)]
pub struct Sheet<A: Allocator> {
    pub rows: Vec<Row, A>,
    pub length: u64,
    pub front: Front,
}

/// What both copies come to show alike. No value of it is made.
pub struct Face {
    pub rows: [Row; 0],
    pub length: u64,
    pub front: Front,
}

impl<A: Allocator> Absorb<Update<A>> for Sheet<A> {
    ghost use Rattle.mdp_lanes.specs.Updates.{face, next_face};

    type State = Face;

    ghost state = { face };

    ghost applied = { next_face };

    ghost never_fails = { Unit {0} };

    fn absorb_first(&mut self, operation: &Update<A>, _other: &Sheet<A>) -> Result<(), AllocError> {
        match &operation.change {
            Change::Wipe => self.rows.as_mut_slice().fill(Row::Stale),
            Change::Give(pairs) => give(self.rows.as_mut_slice(), pairs.as_slice()),
        }
        self.length = operation.length;
        self.front = operation.front.again();
        Ok(())
    }
}

// Gives each slot its row, one pair after the other.
fn give(rows: &mut [Row], pairs: &[(u16, Row)])
    ensures { rows.new ≡ fold with_row rows.old pairs.now }
{
    for (slot, row) in pairs {
        give_one(rows, *slot as usize, *row);
    }
}

// Gives a slot its row, where there is such a slot.
fn give_one(rows: &mut [Row], slot: usize, row: Row)
    ensures { rows.new ≡ slice_set rows.old slot row }
{
    if slot < rows.len() {
        rows[slot] = row;
    }
}
