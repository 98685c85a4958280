//! The last orders of the arbiter, of which it holds a share.

use crate::shared_moves::SharedMoves;
use arrayvec::ArrayVec;
use std::alloc::Allocator;

/// How many orders are held: more than a worker can be behind, which is a lane full of them and one at work.
const MOST_HELD: usize = 80;

/// Shares of the orders that were sent last. Who lets go of an order's last share frees its packets. Held here until
/// the workers are through with it, that is the arbiter, which has less to do than they.
#[derive(Drop)]
pub struct LastOrders<A: Allocator> {
    shares: ArrayVec<Option<SharedMoves<A>>, MOST_HELD>,
    // where the next one goes, in the place of the oldest once all places are taken
    next: usize,
}

impl<A: Allocator> LastOrders<A> {
    /// Holds none.
    pub fn new() -> LastOrders<A> {
        LastOrders {
            shares: ArrayVec::new(),
            next: 0,
        }
    }

    /// Holds one more, and lets go of the oldest where there is no room.
    pub fn hold(&mut self, order: SharedMoves<A>) {
        let place = self.next % MOST_HELD;
        match self.shares.get_mut(place) {
            Some(held) => *held = Some(order),
            None => {
                let _ = self.shares.try_push(Some(order));
            }
        }
        self.next = place + 1;
    }
}
