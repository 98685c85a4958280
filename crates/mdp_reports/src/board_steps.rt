//! The steps of a board, one after another.

ghost use Rattle.std.specs.List.{slice_range};
ghost use Rattle.std.specs.Option.{option_map};
ghost use Rattle.std.specs.Prelude.{◌≡◌, ◌++◌, ◌∷◌, [], ◌≤◌, drop, length, slice_get, true, MatchResult};
ghost use Rattle.mdp_lanes.specs.declared.step.Step.TheVariants.{Jump, Event};
ghost use Rattle.mdp_reports.specs.Steps.{end_of, posted, steps_with};

use mdp_lanes::Row;
use mdp_templates::Memory;
use std::alloc::Allocator;
use std::marker::Model;

/// A step: an event or a jump, and where its rows begin among all rows. They go on to where those of the next step
/// begin; a jump has none.
#[derive(Clone, Copy)]
pub struct StepAt {
    pub is_jump: bool,
    pub from: usize,
}

/// A step, lent from the list that it stands in.
#[derive(Clone, Copy, Debug, PartialEq, Eq)]
pub enum Posting<'a> {
    /// An event ended: each pair gives its slot its row.
    Event(&'a [(u16, Row)]),
    /// Recovery jumped.
    Jump,
}

/// The steps of a board, seen as their list.
#[derive(Drop)]
pub struct BoardSteps<A: Allocator> {
    rows: Vec<(u16, Row), A>,
    places: Vec<StepAt, A>,
}

impl<A: Allocator> Model for BoardSteps<A> {
    ghost use Rattle.std.specs.Prelude.{List, length};
    ghost use Rattle.mdp_lanes.specs.declared.step.Step.{Step};
    ghost use Rattle.mdp_reports.specs.Steps.{AreInPlace, steps_code, steps_in_places};

    ghost Value = { List Step };

    ghost coded = { steps_code };

    ghost view = { λ s. steps_in_places s.rows.items s.places.items };

    ghost invariant = { λ s. AreInPlace (length s.rows.items) s.places.items };
}

// Gives the place of step `n`, from 0, if there is one.
fn place_of(places: &[StepAt], n: usize) -> Option<StepAt>
    ensures { result ≡ slice_get places.now n }
{
    places.get(n).copied()
}

// Returns where the rows end of the step before this place, of so many rows.
fn end_before(places: &[StepAt], n: usize, count: usize) -> usize
    ensures { result ≡ end_of count (drop n places.now) }
{
    match places.get(n) {
        Some(place) => place.from,
        None => count,
    }
}

// Lends the pairs from one place to another.
fn pairs_between(rows: &[(u16, Row)], from: usize, to: usize) -> &[(u16, Row)]
    requires order { from ≤ to }
    requires within { to ≤ length rows.now }
    ensures { result.now ≡ slice_range rows.now from to }
{
    &rows[from..to]
}

impl<A: Allocator + Copy> BoardSteps<A> {
    /// Makes a list with no steps; it takes no memory.
    pub fn new(alloc: A) -> BoardSteps<A>
        ensures { result ≡ [] }
    {
        BoardSteps {
            rows: Vec::new(alloc),
            places: Vec::new(alloc),
        }
    }

    /// Takes all steps away, and keeps the memory.
    pub fn clear(&mut self)
        ensures { self.new ≡ [] }
    {
        self.rows.clear();
        self.places.clear();
    }

    /// Returns how many steps there are.
    pub fn len(&self) -> usize
        ensures { result ≡ length self.now }
    {
        self.places.len()
    }

    /// Begins an event, which has no rows yet.
    ///
    /// # Errors
    ///
    /// Memory ran out. Then no step was begun.
    pub fn begin(&mut self) -> Result<(), Memory>
        ensures { MatchResult result (λ _. self.new ≡ self.old ++ Event [] ∷ [])
            (λ _. self.new ≡ self.old) }
    {
        let from = self.rows.len();
        self.places.push(StepAt {
            is_jump: false,
            from,
        })?;
        Ok(())
    }

    /// Gives a slot a row in the last step, where that is an event.
    ///
    /// # Errors
    ///
    /// Memory ran out. Then the steps are as before.
    pub fn put(&mut self, slot: u16, row: Row) -> Result<(), Memory>
        ensures { MatchResult result (λ _. self.new ≡ steps_with (slot, row) self.old)
            (λ _. self.new ≡ self.old) }
    {
        self.rows.push((slot, row))?;
        Ok(())
    }

    /// Adds a jump.
    ///
    /// # Errors
    ///
    /// Memory ran out. Then the steps are as before.
    pub fn jump(&mut self) -> Result<(), Memory>
        ensures { MatchResult result (λ _. self.new ≡ self.old ++ Jump ∷ [])
            (λ _. self.new ≡ self.old) }
    {
        let from = self.rows.len();
        self.places.push(StepAt {
            is_jump: true,
            from,
        })?;
        Ok(())
    }

    /// Lends the step at place `n`, from 0; none where there is no step.
    pub fn at(&self, n: usize) -> Option<Posting<'_>>
        ensures { option_map posted result ≡ slice_get self.now n }
    {
        match place_of(&self.places, n) {
            Some(place) => {
                if place.is_jump {
                    Some(Posting::Jump)
                } else {
                    let to = end_before(&self.places, n + 1, self.rows.len());
                    Some(Posting::Event(pairs_between(&self.rows, place.from, to)))
                }
            }
            None => None,
        }
    }
}
