//! What a reader hands over at a time.

ghost use Rattle.std.specs.Prelude.{◌≡◌};

use mdp_engine::Event;
use mdp_lanes::Ends;
use std::alloc::Allocator;

/// Events of one reader in their order, and whether they are its last.
#[derive(Drop)]
pub struct Batch<A: Allocator> {
    pub events: Vec<Event<A>, A>,
    pub is_last: bool,
}

impl<A: Allocator> Ends for Batch<A> {
    ghost is_end = { λ b. b.is_last };

    fn is_end(&self) -> bool {
        self.is_last
    }
}
