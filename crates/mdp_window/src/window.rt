//! What holds the packets that came ahead of the next number.

ghost use Rattle.std.specs.Prelude.{◌≡◌, ◌≤◌, ℕ, Bool, IfSome};
ghost use Rattle.std.specs.FinMap.{contains_key};
ghost use Rattle.mdp_window.specs.Window.{View, IsInRange, Puts, Takes, DropsBelow, count_held};

use mdp_templates::Packet;
use std::alloc::Allocator;

/// What has a packet sequence number.
pub trait Numbered {
    ghost number: { Self → ℕ };

    /// Returns the packet sequence number.
    fn number(&self) -> u32
        ensures { result ≡ number self.now };
}

impl<A: Allocator> Numbered for Packet<A> {
    ghost number = { λ packet. packet.number };

    fn number(&self) -> u32 {
        self.number()
    }
}

/// What became of an item that was put into a window.
#[derive(Drop)]
pub enum Put<T> {
    /// It is held.
    Kept,
    /// It is handed back, since its number lies below the window or is held already.
    Back(T),
    /// It is handed back, since memory was refused for a number that would be held.
    Memory(T),
}

/// A stretch of numbers, as many as its room, and the items that came with numbers in it. It is seen as its first
/// number, of 1 to 4294967296, its room, of 1 to 65536, and a finite map from numbers to items.
pub trait Window<T: Numbered> {
    /// Whether `put` takes memory. Where it doesn't, `put` never answers `Memory`.
    const ALLOCATES: bool;

    ghost ALLOCATES: { Bool };

    ghost view: { Self → View T };

    /// Returns how many numbers the window covers, of 1 to 65536.
    fn capacity(&self) -> u64
        ensures room { result ≡ (view self.now).room }
        ensures in_range { IsInRange (view self.now) };

    /// Returns whether an item is held under this number.
    fn holds(&self, number: u64) -> bool
        ensures { result ≡ contains_key (view self.now).held number };

    /// Holds an item under its number. A number past the window first moves the window up until that is its last one,
    /// and drops what then lies below. An old number, or one that is held, changes nothing, nor does want of memory.
    fn put(&mut self, item: T) -> Put<T>
        ensures { Puts ALLOCATES (T.number item) item (view self.old) (view self.new) result };

    /// Takes out the item at the first number, which then goes up by 1. Where none is held there, nothing changes.
    fn take_first(&mut self) -> Option<T>
        ensures { Takes (view self.old) (view self.new) result };

    /// Moves the window up to a number, if it begins lower, and drops what then lies below.
    fn drop_below(&mut self, number: u64)
        requires { number ≤ 4294967296 }
        ensures { DropsBelow number (view self.old) (view self.new) };

    /// Returns how many items are held, where the window keeps count of them; None where it doesn't.
    fn count(&self) -> Option<u64>
        ensures { IfSome result (λ n. n ≡ count_held (view self.now).held
            (view self.now).first (view self.now).room) }
    {
        None
    }
}
