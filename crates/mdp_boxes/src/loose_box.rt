//! A box as its address.

ghost use Rattle.std.specs.Prelude.{◌≡◌};
ghost use Rattle.std_alloc.specs.Box.Ownership.{box_owns};

use std::alloc::Allocator;
use std::marker::Model;

/// A box taken apart. It owns the value at its address and the right to free the block there, as the box did; a ghost
/// field says which value that is.
pub struct LooseBox<T, A: Allocator> {
    /// Where the value lies.
    pub address: *mut T,
    /// What frees the block.
    pub alloc: A,
    pub ghost value: { T },
}

impl<T, A: Allocator> Model for LooseBox<T, A> {
    ghost also_owns = { λ l. box_owns (A.dealloc_token l.alloc) T.row l.address l.value };
}

impl<T: Drop, A: Allocator> LooseBox<T, A> {
    /// Takes a box apart.
    pub fn from_box(whole: Box<T, A>) -> LooseBox<T, A>
        ensures { result.value ≡ whole.value }
    {
        let (address, alloc) = Box::into_raw_with_allocator(whole);
        LooseBox { address, alloc }
    }

    /// Puts the box together again.
    pub fn into_box(self) -> Box<T, A>
        ensures { result.value ≡ self.value }
    {
        let LooseBox { address, alloc } = self;
        unsafe { Box::from_raw(alloc, address) }
    }
}
