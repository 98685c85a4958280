//! One side of a book.

ghost use Rattle.std.specs.Prelude.{◌≡◌, ◌<◌, ◌≤◌, [], ◌∷◌, ◌++◌, length, Some, None, if◌then◌else◌};
ghost use Rattle.std.specs.Bool.{OnFalse};
ghost use Rattle.mdp_books.specs.Side.{after_new, after_change, after_delete, side_after, HaveSizes};

use crate::printed_levels::PrintedLevels;
use mdp_templates::{Action, Level};
use std::marker::Model;

/// The levels of one side with their printed text, the best first, with room for `CAPACITY` of them, and how many it
/// has at most.
#[derive(Drop)]
pub struct Side<const CAPACITY: usize> {
    depth: usize,
    levels: PrintedLevels<CAPACITY>,
}

impl<const CAPACITY: usize> Model for Side<CAPACITY> {
    ghost use Rattle.mdp_books.specs.Side.{IsSide, SideContent};

    ghost Value = { SideContent };

    ghost view = { λ s. record { depth = s.depth; levels = s.levels } };

    ghost invariant = { λ s. IsSide CAPACITY (record { depth = s.depth; levels = s.levels }) };
}

impl<const CAPACITY: usize> Side<CAPACITY> {
    /// Makes a side of this depth with no levels. A text has room for ten.
    pub fn new(depth: usize) -> Side<CAPACITY>
        requires small { CAPACITY ≤ 10 }
        requires deep { depth ≤ CAPACITY }
        ensures { result ≡ record { depth = depth; levels = [] } }
    {
        Side {
            depth,
            levels: PrintedLevels::new(),
        }
    }

    /// Makes a side of this depth and these levels, the best first.
    pub fn from_levels(depth: usize, levels: &[Level]) -> Side<CAPACITY>
        requires small { CAPACITY ≤ 10 }
        requires few { length levels.now ≤ depth }
        requires deep { depth ≤ CAPACITY }
        ensures { result ≡ record { depth = depth; levels = levels.now } }
    {
        let mut side = Side::new(depth);
        for level in levels {
            side.push(*level);
        }
        side
    }

    /// Lends the levels, the best first.
    #[inline]
    pub fn levels(&self) -> &[Level]
        ensures items { result.now ≡ self.now.levels }
        ensures few { length self.now.levels ≤ self.now.depth }
        ensures deep { self.now.depth ≤ CAPACITY }
        ensures sizes { HaveSizes self.now.levels }
    {
        self.levels.levels()
    }

    /// Lends the levels with their printed text.
    #[inline]
    pub fn printed(&self) -> &PrintedLevels<CAPACITY>
        ensures items { result.now ≡ self.now.levels }
        ensures few { length self.now.levels ≤ self.now.depth }
        ensures deep { self.now.depth ≤ CAPACITY }
        ensures sizes { HaveSizes self.now.levels }
    {
        &self.levels
    }

    /// Does what an entry asks for at a position, counted from 1 (MDP 3.0, the update action and the price
    /// level). Gives false and changes nothing where the position is impossible: a new level past
    /// the depth or past the level behind the last, a change or a delete past the last, or level 0.
    pub fn apply(&mut self, action: Action, level: u8, with: Level) -> bool
        ensures after { side_after action level with self.old
            ≡ (if result then Some self.new else None) }
        ensures same { OnFalse result (self.new ≡ self.old) }
    {
        let position = level as usize;
        match action {
            Action::New => self.enter_new(position, with),
            Action::Change => self.change(position, with),
            Action::Delete => self.delete(position),
        }
    }

    // Puts one more level behind the last.
    fn push(&mut self, level: Level)
        requires { length self.old.levels < self.old.depth }
        ensures { self.new
            ≡ record { depth = self.old.depth; levels = self.old.levels ++ level ∷ [] } }
    {
        self.levels.insert(self.levels.len(), level);
    }

    // Enters a new level at a position: those from there on move down, and what falls past the depth is dropped.
    fn enter_new(&mut self, position: usize, with: Level) -> bool
        ensures after { after_new position with self.old
            ≡ (if result then Some self.new else None) }
        ensures same { OnFalse result (self.new ≡ self.old) }
    {
        if position == 0 || position > self.levels.len() + 1 || position > self.depth {
            return false;
        }
        self.levels.truncate(self.depth - 1);
        self.levels.insert(position - 1, with);
        true
    }

    // Puts a level in the place of the one at a position, counted from 1; false and unchanged where there is none.
    fn change(&mut self, position: usize, with: Level) -> bool
        ensures after { after_change position with self.old
            ≡ (if result then Some self.new else None) }
        ensures same { OnFalse result (self.new ≡ self.old) }
    {
        if position == 0 || position > self.levels.len() {
            return false;
        }
        self.levels.set(position - 1, with);
        true
    }

    // Takes the level at a position, counted from 1, out, so that those behind it move up; false and unchanged where
    // there is none.
    fn delete(&mut self, position: usize) -> bool
        ensures after { after_delete position self.old ≡ (if result then Some self.new else None) }
        ensures same { OnFalse result (self.new ≡ self.old) }
    {
        if position == 0 || position > self.levels.len() {
            return false;
        }
        self.levels.remove(position - 1);
        true
    }
}
