//! The room that a batch's reports are made with, reckoned from the batches before.

ghost use Rattle.std.specs.Prelude.{◌≡◌, ◌<◌};
ghost use Rattle.mdp_reports.specs.Recent.{IsAtMostHalf, before_batches, portion_of, room_for_batch, three_quarters_and, with_batch};

use crate::reports::Room;

// Gives what falls to so many moves of a number that is of `all` moves.
fn share_of(number: usize, moves: usize, all: usize) -> usize
    requires { 0 < all }
    ensures { result ≡ portion_of number moves all }
{
    number.saturating_mul(moves) / all
}

// Gives three quarters of a number, and another one.
fn three_quarters_and(number: usize, more: usize) -> usize
    ensures { result ≡ three_quarters_and number more }
{
    (number - number / 4).saturating_add(more)
}

/// How much the reports of the last batches held, and how many moves these had: sums in which each batch counts three
/// quarters as much as the one behind it.
#[derive(Clone, Copy)]
pub struct RecentRoom {
    room: Room,
    moves: usize,
}

impl RecentRoom {
    /// Begins before any batch.
    pub fn none() -> RecentRoom
        ensures { result ≡ before_batches }
    {
        RecentRoom {
            room: Room::none(),
            moves: 0,
        }
    }

    /// Reckons the room for the reports of a batch of so many moves, as the last batches needed for each move, and a
    /// quarter more, since some moves have more lines than others. It is never more than half of the sums, which is
    /// twice what the reports of one batch have held.
    pub fn room_for(&self, moves: usize) -> Room
        ensures room { result ≡ room_for_batch moves self.now }
        ensures half { IsAtMostHalf result self.now }
    {
        if self.moves == 0 {
            return Room::none();
        }
        let parts = moves.saturating_add(moves / 4).min(self.moves / 2);
        Room {
            bytes: share_of(self.room.bytes, parts, self.moves),
            rows: share_of(self.room.rows, parts, self.moves),
            places: share_of(self.room.places, parts, self.moves),
        }
    }

    /// Counts a batch of so many moves, whose reports held as much.
    pub fn count(&mut self, moves: usize, room: Room)
        ensures { self.new ≡ with_batch moves room self.old }
    {
        self.room = Room {
            bytes: three_quarters_and(self.room.bytes, room.bytes),
            rows: three_quarters_and(self.room.rows, room.rows),
            places: three_quarters_and(self.room.places, room.places),
        };
        self.moves = three_quarters_and(self.moves, moves);
    }
}
