//! A window over a ring of places.

ghost use Rattle.std.specs.Prelude.{◌≡◌, ◌≤◌, ◌<◌, ◌+◌, ◌↔◌, ◌++◌, None, Some, false, length, replicate, slice_set, IfOk, IsTrue, IsSome};
ghost use Rattle.std.specs.FinMap as map;
ghost use Rattle.circular_buffer.specs.Buffer.{buffer, keep_last};
ghost use Rattle.mdp_window.specs.Ring.{count_filled};
ghost use Rattle.mdp_window.specs.Window.{View};

use crate::window::{Numbered, Put, Window};
use circular_buffer::HeapCircularBuffer;
use mdp_templates::Memory;
use std::alloc::Allocator;
use std::marker::Model;

/// A window that takes memory in `new` alone. It has a place for each number that it covers, as many as its room, of 1
/// to 65536, and a place is empty or holds an item.
///
/// To put an item at the first number and to take it out takes constant time, with no search. A call that moves the
/// window up takes a step for each number that it moves by, and at most as many steps as the room; where nothing is
/// held, it takes one.
#[derive(Drop)]
pub struct RingWindow<T: Drop, A: Allocator> {
    first: u64,
    /// No item stands at this number or a later one.
    end: u64,
    /// How many items are held.
    count: u64,
    places: HeapCircularBuffer<Option<T>, A>,
}

impl<T: Drop, A: Allocator> Model for RingWindow<T, A> {
    ghost use Rattle.std.specs.Prelude.{◌≡◌, ◌≤◌, ℕ, None, length};
    ghost use Rattle.std.specs.FinMap as map;
    ghost use Rattle.mdp_window.specs.Window.{View, IsInRange, view_code};
    ghost use Rattle.mdp_window.specs.Ring.{count_filled, held_from};

    ghost Value = { View T };

    ghost coded = { view_code T.code };

    ghost view = { λ w. record {
      first = w.first;
      room = w.places.capacity;
      held = held_from w.first w.places.items;
    } };

    ghost invariant = { λ w.
        (length w.places.items ≡ w.places.capacity)
        × IsInRange (record { first = w.first; room = w.places.capacity; held = held_from w.first w.places.items })
        × ((k : ℕ) → w.end ≤ k → map.get (held_from w.first w.places.items) k ≡ None)
        × (w.count ≡ count_filled w.places.items) };
}

// Puts this many empty places behind the others. Each takes the place of the first one, where the ring is full. Tells
// how many items fell out.
fn push_empty<T: Drop, A: Allocator>(
    places: &mut HeapCircularBuffer<Option<T>, A>,
    count: usize,
) -> u64
    requires { length places.old.items ≤ places.old.capacity }
    ensures moves { places.new ≡ buffer (keep_last places.old.capacity
        (places.old.items ++ replicate count None)) places.old.capacity }
    ensures counts { result + count_filled places.new.items ≡ count_filled places.old.items }
{
    let mut fallen = 0;
    for _ in 0..count {
        let item = places.push_back(None).flatten();
        fallen += u64::from(item.is_some());
    }
    fallen
}

// Fills a place with an item, whatever it held.
fn fill_place<T: Drop, A: Allocator>(
    places: &mut HeapCircularBuffer<Option<T>, A>,
    index: usize,
    item: T,
)
    requires { index < length places.old.items }
    ensures { places.new ≡ buffer (slice_set places.old.items index
        (Some item)) places.old.capacity }
{
    if let Some(place) = places.get_mut(index) {
        *place = Some(item);
    }
}

impl<T: Drop, A: Allocator + Copy> RingWindow<T, A> {
    /// Makes a window of this room, of 1 to 65536, that begins at 1 and holds nothing. `Memory` where its places were
    /// refused; no other call takes any.
    pub fn new(alloc: A, capacity: u64) -> Result<RingWindow<T, A>, Memory>
        requires least { 1 ≤ capacity }
        requires most { capacity ≤ 65536 }
        ensures { IfOk result (λ w. w ≡ record { first = 1; room = capacity; held = map.empty }) }
    {
        let room = capacity as usize;
        let mut places = HeapCircularBuffer::with_capacity(alloc, room)?;
        push_empty(&mut places, room);
        Ok(RingWindow {
            first: 1,
            end: 1,
            count: 0,
            places,
        })
    }

    // Returns whether an item is held under this number.
    fn is_held(&self, number: u64) -> bool
        ensures { IsTrue result ↔ IsSome (map.get self.now.held number) }
    {
        if number < self.first {
            return false;
        }
        match self.places.get((number - self.first) as usize) {
            Some(place) => place.is_some(),
            None => false,
        }
    }
}

impl<T: Numbered + Drop, A: Allocator + Copy> Window<T> for RingWindow<T, A> {
    const ALLOCATES: bool = false;

    ghost ALLOCATES = { false };

    ghost view = { λ w. w };

    fn capacity(&self) -> u64 {
        self.places.capacity() as u64
    }

    fn holds(&self, number: u64) -> bool {
        self.is_held(number)
    }

    fn put(&mut self, item: T) -> Put<T> {
        let number = u64::from(item.number());
        if number < self.first {
            return Put::Back(item);
        }
        if self.is_held(number) {
            return Put::Back(item);
        }
        self.drop_below((number + 1).saturating_sub(self.capacity()));
        let index = (number - self.first) as usize;
        fill_place(&mut self.places, index, item);
        self.end = self.end.max(number + 1);
        self.count += 1;
        Put::Kept
    }

    fn take_first(&mut self) -> Option<T> {
        if !self.is_held(self.first) {
            return None;
        }
        self.first += 1;
        self.count -= 1;
        self.places.push_back(None).flatten()
    }

    fn drop_below(&mut self, number: u64) {
        if self.first >= number {
            return;
        }
        if self.first < self.end {
            let room = self.places.capacity() as u64;
            let steps = (number - self.first).min(room);
            self.count -= push_empty(&mut self.places, steps as usize);
        }
        self.first = number;
    }

    fn count(&self) -> Option<u64> {
        Some(self.count)
    }
}
