//! A window over an ordered map.

ghost use Rattle.std.specs.Prelude.{◌≡◌, ◌≤◌, ◌+◌, ◌<◌, ℕ, None, true, nat_lt, if◌then◌else◌};
ghost use Rattle.std.specs.Ordering.{nat_cmp};
ghost use Rattle.std.specs.FinMap as map;
ghost use Rattle.std.specs.BTreeMap as tree;
ghost use Rattle.mdp_window.specs.Window.{View};

use crate::window::{Numbered, Put, Window};
use std::alloc::Allocator;
use std::collections::BTreeMap;
use std::marker::Model;

/// A window that takes memory as it holds items.
#[derive(Drop)]
pub struct MapWindow<T: Drop, A: Allocator> {
    first: u64,
    room: u64,
    items: BTreeMap<u32, T, A>,
}

impl<T: Drop, A: Allocator> Model for MapWindow<T, A> {
    ghost use Rattle.std.specs.FinMap as map;
    ghost use Rattle.mdp_window.specs.Window.{View, IsInRange, view_code};

    ghost Value = { View T };

    ghost coded = { view_code T.code };

    ghost view = { λ w. record {
      first = w.first;
      room = w.room;
      held = map.from_entries w.items.entries;
    } };

    ghost invariant = { λ w. IsInRange (record {
      first = w.first;
      room = w.room;
      held = map.from_entries w.items.entries;
    }) };
}

// Drops what lies below a number.
fn drop_lower<T: Drop, A: Allocator>(items: &mut BTreeMap<u32, T, A>, first: u64)
    ensures { (k : ℕ) → tree.get nat_cmp items.new k
        ≡ (if nat_lt k first then None else tree.get nat_cmp items.old k) }
{
    while let Some((number, _)) = items.first_key_value() {
        if u64::from(*number) >= first {
            break;
        }
        items.pop_first();
    }
}

impl<T: Drop, A: Allocator + Copy> MapWindow<T, A> {
    /// Makes a window of this room, of 1 to 65536, that begins at 1 and holds nothing.
    pub fn new(alloc: A, capacity: u64) -> MapWindow<T, A>
        requires least { 1 ≤ capacity }
        requires most { capacity ≤ 65536 }
        ensures { result ≡ record { first = 1; room = capacity; held = map.empty } }
    {
        MapWindow {
            first: 1,
            room: capacity,
            items: BTreeMap::new(alloc),
        }
    }
}

impl<T: Numbered + Drop, A: Allocator + Copy> Window<T> for MapWindow<T, A> {
    const ALLOCATES: bool = true;

    ghost ALLOCATES = { true };

    ghost view = { λ w. w };

    fn capacity(&self) -> u64 {
        self.room
    }

    fn holds(&self, number: u64) -> bool {
        match u32::try_from(number) {
            Ok(key) => self.items.contains_key(&key),
            Err(_) => false,
        }
    }

    fn put(&mut self, item: T) -> Put<T> {
        let key = item.number();
        let number = u64::from(key);
        if number < self.first || self.items.contains_key(&key) {
            return Put::Back(item);
        }
        if let Err(refused) = self.items.insert(key, item) {
            return Put::Memory(refused.value.1);
        }
        let first = self.first.max((number + 1).saturating_sub(self.room));
        self.first = first;
        drop_lower(&mut self.items, first);
        Put::Kept
    }

    fn take_first(&mut self) -> Option<T> {
        let Ok(key) = u32::try_from(self.first) else {
            return None;
        };
        let item = self.items.remove(&key)?;
        self.first += 1;
        Some(item)
    }

    fn drop_below(&mut self, number: u64) {
        if self.first < number {
            self.first = number;
            drop_lower(&mut self.items, number);
        }
    }

    fn count(&self) -> Option<u64> {
        Some(self.items.len() as u64)
    }
}
