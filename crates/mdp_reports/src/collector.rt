//! The collector: what it makes of the answers of all workers.

ghost use Rattle.std.specs.Prelude.{◌≡◌, ◌≢◌, ◌++◌, ◌∷◌, [], AllPairs, length, map, IfOk, OnOk};
ghost use Rattle.mdp_books.specs.Book.{empty_book};
ghost use Rattle.mdp_reports.specs.Rounds.{all_by_slot, kept_after, kept_at_start, rounds_in, text_from, told_text};
ghost use Rattle.mdp_engine.specs.Parts.{AreAudited, lists_in};
ghost use Rattle.mdp_quotes.specs.Best.{best_of};
ghost use Rattle.mdp_reports.specs.BoardSteps.{step_telling, steps_in};
ghost use Rattle.mdp_reports.specs.Contents.{heading_at, told_at};
ghost use Rattle.mdp_reports.specs.FromAnswers.{told_in_answer};
ghost use Rattle.mdp_reports.specs.Steps.{step_under};
ghost use Rattle.mdp_reports.specs.Taking.{first_list, kept_after_rounds, kept_under, text_under};

use crate::answer::Answer;
use crate::audits::put_audits;
use crate::board_steps::BoardSteps;
use crate::kept::{forget, put_all_told};
use crate::places::Heading;
use crate::rest::Rest;
use mdp_books::{Book, EventEnd};
use mdp_desks::Marked;
use mdp_engine::{Spread, mark_spreads, parts_of, spreads_of};
use mdp_print::put_jump;
use mdp_quotes::Best;
use mdp_templates::{DIRECT_DEPTH, Instrument, Memory, Slots};
use std::alloc::Allocator;
use std::marker::Model;

/// Joins what all workers report, in slot order, and audits the calendar spreads. It is seen as the listed securities
/// and, for each, the best levels of where it was last printed, none of a fault or from a jump on.
#[derive(Drop)]
pub struct Collector<'a, A: Allocator> {
    listed: &'a [Instrument],
    spreads: Vec<Spread, A>,
    parts: Vec<Vec<usize, A>, A>,
    due: Marked<A>,
    kept: Vec<Option<Best>, A>,
    marks: Marked<A>,
}

impl<'a, A: Allocator> Model for Collector<'a, A> {
    ghost use Rattle.mdp_engine.specs.Parts.{AreAudited, lists_in};
    ghost use Rattle.mdp_reports.specs.Taking.{AreKept, View, view_code};

    ghost Value = { View };

    ghost coded = { view_code };

    ghost view = { λ c. record { listed = c.listed.now; kept = c.kept.items } };

    ghost invariant = { λ c. AreAudited c.listed.now c.spreads.items (lists_in c.parts.items) c.due
        × AreKept c.listed.now c.kept.items c.marks };
}

// Gives the best levels of each security before any packet.
fn kept_for<A: Allocator + Copy>(
    alloc: A,
    listed: &[Instrument],
) -> Result<Vec<Option<Best>, A>, Memory>
    ensures { IfOk result (λ kept. kept.items ≡ kept_at_start listed.now) }
{
    let empty = Best::of(&Book::empty(DIRECT_DEPTH as u8));
    let mut kept = Vec::with_capacity(alloc, listed.len())?;
    for _instrument in listed {
        kept.push(empty)?;
    }
    Ok(kept)
}

// Returns what the report at a place tells.
fn rest_of<A: Allocator + Copy>(answer: &Answer<A>, n: usize) -> Rest<'_>
    ensures { result ≡ told_at n (told_in_answer answer.now) }
{
    match answer {
        Answer::Tells(reports) => reports.rest(n),
        Answer::Failed => Rest::none(),
        Answer::Finished => Rest::none(),
    }
}

// Returns how many reports the first worker has.
fn count_in<A: Allocator + Copy>(round: &[Answer<A>]) -> usize
    ensures { result ≡ length (first_list (map told_in_answer round.now)) }
{
    match round.first() {
        Some(Answer::Tells(first)) => first.len(),
        Some(Answer::Failed) => 0,
        Some(Answer::Finished) => 0,
        None => 0,
    }
}

// Gives the moment that the first worker's report at a place is of.
fn heading_in<A: Allocator + Copy>(round: &[Answer<A>], n: usize) -> Option<Heading>
    ensures { result ≡ heading_at n (first_list (map told_in_answer round.now)) }
{
    match round.first() {
        Some(Answer::Tells(first)) => first.heading(n),
        Some(Answer::Failed) => None,
        Some(Answer::Finished) => None,
        None => None,
    }
}

// Fills in what all workers' reports at a place tell.
fn fill<'r, A: Allocator + Copy>(
    round: &'r [Answer<A>],
    n: usize,
    left: &mut Vec<Rest<'r>, A>,
) -> Result<(), Memory>
    ensures { OnOk result (left.new.items ≡ map (told_at n) (map told_in_answer round.now)) }
{
    left.clear();
    for answer in round {
        left.push(rest_of(answer, n))?;
    }
    Ok(())
}

impl<'a, A: Allocator + Copy> Collector<'a, A> {
    /// Makes a collector that has taken nothing, for these securities, whose ids all differ.
    ///
    /// # Errors
    ///
    /// Memory ran out.
    pub fn new(alloc: A, listed: &'a [Instrument]) -> Result<Collector<'a, A>, Memory>
        requires { AllPairs (λ earlier later. earlier.id ≢ later.id) listed.now }
        ensures { IfOk result (λ c. c ≡ record {
          listed = listed.now;
          kept = kept_at_start listed.now;
        }) }
    {
        let slots = Slots::of(alloc, listed)?;
        let spreads = spreads_of(alloc, &slots, listed)?;
        let parts = parts_of(alloc, listed.len(), &spreads)?;
        let due = Marked::none(alloc, spreads.len())?;
        let kept = kept_for(alloc, listed)?;
        let marks = Marked::none(alloc, listed.len())?;
        Ok(Collector {
            listed,
            spreads,
            parts,
            due,
            kept,
            marks,
        })
    }

    // Appends the lines of an event end, and its step.
    #[tactic(auto, using(crate::proofs::Stepping::all_told))]
    fn put_event(
        &mut self,
        end: EventEnd,
        left: &mut [Rest],
        out: &mut Vec<u8, A>,
        steps: &mut BoardSteps<A>,
    ) -> Result<(), Memory>
        ensures text { OnOk result (out.new.items ≡ out.old.items
            ++ told_text end self.old.listed (all_by_slot left.old)
            (kept_after (all_by_slot left.old) self.old.kept)) }
        ensures steps { OnOk result (steps.new ≡ steps.old
            ++ step_telling end (all_by_slot left.old) ∷ []) }
        ensures kept { OnOk result (self.new
            ≡ record {
              listed = self.old.listed;
              kept = kept_after (all_by_slot left.old) self.old.kept;
            }) }
    {
        self.marks.clear();
        steps.begin()?;
        put_all_told(end, left, out, steps, &mut self.kept, &mut self.marks)?;
        mark_spreads(&mut self.due, &self.marks, &self.parts);
        put_audits(
            out,
            end,
            self.listed,
            &self.spreads,
            &self.kept,
            &self.marks,
            &mut self.due,
        )?;
        Ok(())
    }

    // Appends the lines of a moment, and its step.
    fn put_moment(
        &mut self,
        heading: Heading,
        left: &mut [Rest],
        out: &mut Vec<u8, A>,
        steps: &mut BoardSteps<A>,
    ) -> Result<(), Memory>
        ensures text { OnOk result (out.new.items ≡ out.old.items
            ++ text_under heading self.old.listed self.old.kept (all_by_slot left.old)) }
        ensures steps { OnOk result (steps.new ≡ steps.old
            ++ step_under heading (all_by_slot left.old) ∷ []) }
        ensures kept { OnOk result (self.new
            ≡ record {
              listed = self.old.listed;
              kept = kept_under heading self.old.kept (all_by_slot left.old);
            }) }
    {
        match heading {
            Heading::Event(end) => self.put_event(end, left, out, steps),
            Heading::Jump { old, new } => {
                put_jump(out, old, new)?;
                steps.jump()?;
                forget(&mut self.kept);
                Ok(())
            }
        }
    }

    /// Takes one answer of each worker, all to the same batch, and appends the lines of its moments, and for each
    /// moment the step that is published of it: at an event end the rows of all that is printed there, which may be
    /// none.
    ///
    /// # Errors
    ///
    /// Memory ran out. Then neither the collector nor what was appended is of more use.
    pub fn take(
        &mut self,
        alloc: A,
        round: &[Answer<A>],
        out: &mut Vec<u8, A>,
        steps: &mut BoardSteps<A>,
    ) -> Result<(), Memory>
        ensures text { OnOk result (out.new.items ≡ out.old.items
            ++ text_from self.old.listed self.old.kept (rounds_in (map told_in_answer round.now))) }
        ensures steps { OnOk result (steps.new ≡ steps.old
            ++ steps_in (rounds_in (map told_in_answer round.now))) }
        ensures kept { OnOk result (self.new
            ≡ record {
              listed = self.old.listed;
              kept = kept_after_rounds self.old.kept (rounds_in (map told_in_answer round.now));
            }) }
    {
        let mut left = Vec::with_capacity(alloc, round.len())?;
        for n in 0..count_in(round) {
            let Some(heading) = heading_in(round, n) else {
                return Ok(());
            };
            fill(round, n, &mut left)?;
            self.put_moment(heading, &mut left, out, steps)?;
        }
        Ok(())
    }
}
