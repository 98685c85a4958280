//! What a publisher tells readers.

ghost use Rattle.std.specs.Prelude.{◌≡◌, ◌↔◌, IsTrue};
ghost use mathlib.Core.List.{IsPrefix};

use crate::history::Front;
use crate::reader::Reader;
use std::alloc::Allocator;
use std::marker::Model;

/// A token of all that was published when it was made. A contract sees it as its board and those steps; it has their
/// number alone.
#[derive(Drop)]
pub struct Told {
    pub(crate) count: u64,
    pub(crate) front: Front,
}

impl Model for Told {
    ghost use Rattle.std.specs.Prelude.{◌≡◌, length};
    ghost use Rattle.mdp_lanes.specs.Boards.{ToldView};

    ghost Value = { ToldView };

    ghost view = { λ t. record { board = t.front.book; steps = t.front.log } };

    ghost invariant = { λ t. t.count ≡ length t.front.log };
}

impl Told {
    /// Returns whether all that this reader has read and was told of is among these steps, of which it is then a
    /// beginning. A token that the publisher made after the reader's last read covers it, but no clause knows which of
    /// two calls came first.
    pub fn covers<A: Allocator + Copy>(&self, reader: &Reader<A>) -> bool
        requires { reader.now.board ≡ self.now.board }
        ensures { IsTrue result ↔ IsPrefix reader.now.front self.now.steps }
    {
        let mut both = self.front.again();
        both.learn(&reader.front);
        reader.count <= self.count
    }
}
