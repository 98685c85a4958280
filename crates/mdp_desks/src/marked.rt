//! A mark for each place of a list, kept apart from what it marks so that one scan is cheap: which desks have lines due
//! at the next event end, and whose books were printed.

ghost use Rattle.std.specs.Prelude.{◌≡◌, ◌≢◌, ◌↔◌, ◌+◌, ◌<◌, ◌≤◌, IfOk, IfSome, IfNone, IsTrue, true, false, get_or, length, map, max, replicate, set};
ghost use Rattle.mdp_desks.specs.Beside.{AreClear, IsFirstSet, marks_in};

use mdp_templates::Memory;
use memchr::memchr;
use std::alloc::Allocator;
use std::marker::Model;

/// A mark for each of so many places, seen as their list. Those that are set stand from `low` on and below `high`, the
/// first of them at `low`.
#[derive(Drop)]
pub struct Marked<A: Allocator> {
    // 1 where the mark is set, and 0 where it isn't
    marks: Vec<u8, A>,
    low: usize,
    high: usize,
}

impl<A: Allocator> Model for Marked<A> {
    ghost use Rattle.std.specs.Prelude.{List, Bool};
    ghost use Rattle.mdp_desks.specs.Beside.{AreWithin, marks_in};

    ghost Value = { List Bool };

    ghost view = { λ m. marks_in m.marks.items };

    ghost invariant = { λ m. AreWithin m.low m.high (marks_in m.marks.items) };
}

// Finds the first mark that is set, from `low` on and below `high`.
fn first_marked(marks: &[u8], low: usize, high: usize) -> Option<usize>
    requires { high ≤ length marks.now }
    ensures some { IfSome result (λ n. IsFirstSet low high n (marks_in marks.now)) }
    ensures none { IfNone result (AreClear low high (marks_in marks.now)) }
{
    if low >= high {
        return None;
    }
    if marks[low] == 1 {
        return Some(low);
    }
    match memchr(1, &marks[low..high]) {
        Some(n) => Some(low + n),
        None => None,
    }
}

// Returns the place of the first mark that is set from `low` on and below `high`, or `high` where there is none.
fn low_from(marks: &[u8], low: usize, high: usize) -> usize
    requires { high ≤ length marks.now }
    ensures short { result ≤ high }
    ensures clear { AreClear low result (marks_in marks.now) }
    ensures first { result < high → get_or (marks_in marks.now) result false ≡ true }
{
    match first_marked(marks, low, high) {
        Some(n) => n,
        None => high,
    }
}

// Widens the bounds of what is set, of which the lower one may be past the higher where none is, by a place.
fn widened(low: usize, high: usize, slot: usize) -> (usize, usize)
    requires { slot < 18446744073709551615 }
    ensures low { result.0 ≤ slot }
    ensures first { result.0 ≢ slot → (low < high) × (result.0 ≡ low) }
    ensures high { slot < result.1 }
    ensures short { result.1 ≤ max high (slot + 1) }
    ensures kept { low < high → (result.0 ≤ low) × (high ≤ result.1) }
{
    if low < high {
        return (low.min(slot), high.max(slot + 1));
    }
    (slot, slot + 1)
}

impl<A: Allocator> Marked<A> {
    /// Makes so many marks, none of them set.
    pub fn none(alloc: A, count: usize) -> Result<Marked<A>, Memory>
        ensures { IfOk result (λ marked. marked ≡ replicate count false) }
    {
        Ok(Marked {
            marks: vec![in alloc; 0; count]?,
            low: 0,
            high: 0,
        })
    }

    /// Returns how many places there are.
    pub fn len(&self) -> usize
        ensures { result ≡ length self.now }
    {
        self.marks.len()
    }

    /// Returns whether the mark at a place is set.
    pub fn is_set(&self, slot: usize) -> bool
        requires { slot < length self.now }
        ensures { result ≡ get_or self.now slot false }
    {
        self.marks[slot] == 1
    }

    /// Returns whether no mark is set.
    pub fn is_clear(&self) -> bool
        ensures { IsTrue result ↔ AreClear 0 (length self.now) self.now }
    {
        self.low >= self.high
    }

    /// Finds the first mark that is set, from a place on.
    pub fn next_from(&self, from: usize) -> Option<usize>
        ensures some { IfSome result (λ n. IsFirstSet from (length self.now) n self.now) }
        ensures none { IfNone result (AreClear from (length self.now) self.now) }
        ensures most { IfSome result (λ n. n < 18446744073709551615) }
    {
        first_marked(&self.marks, from.max(self.low), self.high)
    }

    // Sets the mark at a place, where it isn't set.
    fn set_at(&mut self, slot: usize)
        requires { slot < length self.old }
        ensures { self.new ≡ set self.old slot true }
    {
        if self.is_set(slot) {
            return;
        }
        let (low, high) = widened(self.low, self.high, slot);
        self.low = low;
        self.high = high;
        self.marks[slot] = 1;
    }

    // Takes away the mark at a place. Where it was the first, `low` goes on to the next.
    fn clear_at(&mut self, slot: usize)
        requires { slot < length self.old }
        ensures { self.new ≡ set self.old slot false }
    {
        self.marks[slot] = 0;
        if slot == self.low {
            self.low = low_from(&self.marks, slot + 1, self.high);
        }
    }

    /// Sets or takes away the mark at a place.
    pub fn put(&mut self, slot: usize, mark: bool)
        requires { slot < length self.old }
        ensures { self.new ≡ set self.old slot mark }
    {
        if mark {
            self.set_at(slot);
        } else {
            self.clear_at(slot);
        }
    }

    /// Takes all marks away.
    pub fn clear(&mut self)
        ensures { self.new ≡ map (λ _. false) self.old }
    {
        if self.low < self.high {
            self.marks.fill(0);
            self.low = 0;
            self.high = 0;
        }
    }
}
