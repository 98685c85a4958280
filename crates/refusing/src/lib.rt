//! An allocator for tests, which refuses one allocation of the test's choice.
//!
//! A [`Refusing`] is lent: `&Refusing<Global>` is an allocator that is `Copy`, and other threads may take
//! from it too. A test runs its code with the first allocation refused, then with the second, and so on
//! until nothing was refused.
#![tactic(auto)]

use std::alloc::{AllocError, Allocator};
use std::sync::atomic::{AtomicU64, Ordering};

#[cfg(test)]
mod tests;

/// Whose turn it is to be refused, of the allocations of all threads.
#[derive(Drop)]
struct Turn {
    number: u64,
    asked: AtomicU64,
}

impl Turn {
    // Counts an allocation, and answers whether it is the one to refuse.
    fn is_up(&self) -> bool {
        let before = self.asked.fetch_add(1, Ordering::SeqCst);
        before.wrapping_add(1) == self.number
    }
}

/// Passes each call on to the allocator inside, but refuses one allocation. A growth of a collection is
/// an allocation; what is freed is not counted.
pub struct Refusing<B: Allocator> {
    inner: B,
    turn: Turn,
}

impl<B: Allocator> Refusing<B> {
    /// Refuses the allocation of this number, counted from 1, and with 0 none.
    pub fn new(inner: B, number: u64) -> Refusing<B> {
        Refusing {
            inner,
            turn: Turn {
                number,
                asked: AtomicU64::new(0),
            },
        }
    }

    /// Returns whether an allocation was refused.
    pub fn has_refused(&self) -> bool {
        0 < self.turn.number && self.turn.number <= self.turn.asked.load(Ordering::SeqCst)
    }
}

impl<B: Allocator> Drop for Refusing<B> {
    fn drop(self) {
        let Self { inner: _, turn: _ } = self;
    }
}

unsafe impl<B: Allocator> Allocator for Refusing<B> {
    ghost dealloc_token = { λ heap ty ptr. B.dealloc_token heap.inner ty ptr };

    fn allocate(&self, size: usize, align: usize) -> Result<*mut u8, AllocError> {
        if self.turn.is_up() {
            return Err(AllocError);
        }
        self.inner.allocate(size, align)
    }

    unsafe fn deallocate(&self, ptr: *mut u8, size: usize, align: usize) {
        self.inner.deallocate(ptr, size, align);
    }
}
