//! A window that keeps no count of what it holds, as one of a caller's own may.

ghost use Rattle.std.specs.Prelude.{◌≡◌, ◌≤◌, true};
ghost use Rattle.std.specs.FinMap as map;

use mdp_templates::Packet;
use mdp_window::{MapWindow, Put, Window};
use std::alloc::Global;

/// A map window without its count.
#[derive(Drop)]
pub(crate) struct Uncounted {
    window: MapWindow<Packet<Global>, Global>,
}

impl Uncounted {
    /// A window of this room that begins at 1 and holds nothing.
    pub(crate) fn new(alloc: Global, capacity: u64) -> Uncounted
        requires least { 1 ≤ capacity }
        requires most { capacity ≤ 65536 }
        ensures { result.window ≡ record { first = 1; room = capacity; held = map.empty } }
    {
        Uncounted {
            window: MapWindow::new(alloc, capacity),
        }
    }
}

impl Window<Packet<Global>> for Uncounted {
    const ALLOCATES: bool = true;

    ghost ALLOCATES = { true };

    ghost view = { λ u. u.window };

    fn capacity(&self) -> u64 {
        self.window.capacity()
    }

    fn holds(&self, number: u64) -> bool {
        self.window.holds(number)
    }

    fn put(&mut self, item: Packet<Global>) -> Put<Packet<Global>> {
        self.window.put(item)
    }

    fn take_first(&mut self) -> Option<Packet<Global>> {
        self.window.take_first()
    }

    fn drop_below(&mut self, number: u64) {
        self.window.drop_below(number);
    }
}
