//! The collector: it takes an answer of each worker, writes the text of that round and publishes its steps, and goes on
//! until all have finished.

ghost use Rattle.std.specs.Prelude.{◌≡◌, ◌<◌, ◌≤◌, ◌-◌, ◌^◌, ◌++◌, ℕ, false, List, OnOk, IfErr, IfNone, Result, Some, length, map, take, vec_len, vec_capacity};
ghost use Rattle.std.specs.List.{list_any};
ghost use Rattle.mdp_crew.specs.Faults.{FailsBy, written_before};
ghost use Rattle.mdp_crew.specs.TakenRounds.{all_took, is_told, lasts, one_each};
ghost use Rattle.mdp_reports.specs.FromAnswers.{told_in_answer};

use crate::crew::Post;
use crate::fault::{RunFault, hand_on, out_of_memory};
use crate::publishing::publish;
use crate::rounds::{all_are_finished, all_are_told, drain_all, take_round};
use mdp_lanes::Publisher;
use mdp_print::CountedWrite;
use mdp_reports::{Answer, BoardSteps, Collector};
use mdp_templates::Memory;
use std::alloc::Allocator;
use std::sync::Wait;

/// The collector at work: what it takes of the workers, and what it makes of that. It has room for a round.
#[derive(Drop)]
pub struct Collecting<'s, A: Allocator + Copy> {
    /// What it takes the answers of.
    pub posts: Vec<Post<'s, A>, A>,
    /// What joins the answers of a round, and keeps what the next one needs.
    pub collector: Collector<'s, A>,
    round: Vec<Answer<A>, A>,
    text: Vec<u8, A>,
    steps: BoardSteps<A>,
    ghost room: { vec_len posts ≤ vec_capacity round },
}

impl<'s, A: Allocator + Copy> Collecting<'s, A> {
    ghost use Rattle.mdp_crew.specs.Collecting.{EndsCollecting, CutShort, ShowsRound, TurnsTo, kept_after_batch, showing, steps_of_batch, text_of_batch};

    /// Begins with no round taken.
    pub fn new(
        alloc: A,
        collector: Collector<'s, A>,
        round: Vec<Answer<A>, A>,
        posts: Vec<Post<'s, A>, A>,
    ) -> Collecting<'s, A>
        requires { vec_len posts ≤ vec_capacity round }
        ensures { (result.posts ≡ posts.entry) × (result.collector ≡ collector.entry) }
    {
        Collecting {
            posts,
            collector,
            round,
            text: Vec::new(alloc),
            steps: BoardSteps::new(alloc),
        }
    }

    // Takes a round.
    fn take<R: Wait>(&mut self, rt: &R)
        ensures took { (length self.new.round.items ≡ length self.old.posts.items)
            × (self.new.posts.items ≡ all_took self.old.posts.items (one_each self.new.round.items)) }
        ensures collector { self.new.collector ≡ self.old.collector }
    {
        self.round.clear();
        take_round(rt, self.posts.as_mut_slice(), &mut self.round);
    }

    // Takes all that the workers still answer, to the last, after the round.
    fn drain<R: Wait>(&mut self, rt: &R)
        requires { length self.old.round.items ≡ length self.old.posts.items }
        ensures { (more : List (List (Answer A))) × (length more ≡ length self.old.posts.items)
            × (self.new.posts.items ≡ all_took self.old.posts.items more)
            × (list_any is_told (lasts self.old.round.items more) ≡ false) }
    {
        drain_all(rt, self.posts.as_mut_slice(), self.round.as_mut_slice());
    }

    // Makes the text of the round, and the steps that a board shows of it.
    fn make_text(&mut self, alloc: A) -> Result<(), Memory>
        ensures text { OnOk result (self.new.text.items
            ≡ text_of_batch self.old.collector (map told_in_answer self.old.round.items)) }
        ensures steps { OnOk result (self.new.steps
            ≡ steps_of_batch (map told_in_answer self.old.round.items)) }
        ensures kept { OnOk result (self.new.collector
            ≡ kept_after_batch self.old.collector (map told_in_answer self.old.round.items)) }
        ensures stays { (self.new.posts ≡ self.old.posts) × (self.new.round ≡ self.old.round) }
    {
        self.text.clear();
        self.steps.clear();
        self.collector
            .take(alloc, &self.round, &mut self.text, &mut self.steps)
    }

    // Writes the text of the round, and then publishes its steps.
    fn show<R: Wait, W: CountedWrite>(
        &mut self,
        rt: &R,
        alloc: A,
        since: u64,
        board: &mut Option<Publisher<A>>,
        writer: &mut W,
    ) -> Result<(), RunFault>
        requires { W.failed writer.old < 2 ^ 64 - 1 }
        ensures shows { OnOk result (ShowsRound (showing self.old (W.taken writer.old) board.old)
            (showing self.new (W.taken writer.new) board.new) (map told_in_answer self.old.round.items)) }
        ensures begins { IfErr result (λ _. CutShort
            (showing self.old (W.taken writer.old) board.old)
            (showing self.new (W.taken writer.new) board.new) (map told_in_answer self.old.round.items)) }
        ensures stays { (self.new.posts ≡ self.old.posts) × (self.new.round ≡ self.old.round) }
        ensures told { IfErr result (λ fault.
            written_before fault ≡ length (W.taken writer.new) - since) }
        ensures failed { FailsBy result (W.failed writer.old) (W.failed writer.new) }
    {
        let Ok(()) = self.make_text(alloc) else {
            return Err(out_of_memory(writer, since));
        };
        hand_on(writer, &self.text, since)?;
        match publish(rt, board, &self.steps) {
            Ok(()) => Ok(()),
            Err(Memory) => Err(out_of_memory(writer, since)),
        }
    }

    // Takes a round and shows it; none where there may be more.
    fn turn<R: Wait, W: CountedWrite>(
        &mut self,
        rt: &R,
        alloc: A,
        since: u64,
        board: &mut Option<Publisher<A>>,
        writer: &mut W,
    ) -> Option<Result<(), RunFault>>
        requires { W.failed writer.old < 2 ^ 64 - 1 }
        ensures turned { TurnsTo (showing self.old (W.taken writer.old) board.old)
            (showing self.new (W.taken writer.new) board.new) result }
        ensures told { (fault : RunFault) → result ≡ Some (Err fault)
            → written_before fault ≡ length (W.taken writer.new) - since }
        ensures still { IfNone result (W.failed writer.new ≡ W.failed writer.old) }
        ensures failed { (outcome : Result (Unit {0}) RunFault) → result ≡ Some outcome
            → FailsBy outcome (W.failed writer.old) (W.failed writer.new) }
    {
        self.take(rt);
        if all_are_finished(&self.round) {
            return Some(Ok(()));
        }
        if !all_are_told(&self.round) {
            self.drain(rt);
            return Some(Err(out_of_memory(writer, since)));
        }
        match self.show(rt, alloc, since, board, writer) {
            Ok(()) => None,
            Err(fault) => {
                self.drain(rt);
                Some(Err(fault))
            }
        }
    }

    /// Takes an answer of each worker, round by round, until all workers have finished: it writes the text of each
    /// round, and then publishes its steps on the board, if there is one. From the first want of memory on, a worker's
    /// or its own, or from a failed write on, it writes and publishes nothing more, and takes what each worker still
    /// answers, to the last. `since` is how many bytes the writer had taken before the run.
    ///
    /// # Errors
    ///
    /// `Output` exactly where a write failed, else `Memory`. The text that went out is a beginning of that of the
    /// rounds taken, and what was published a beginning of their steps.
    pub fn collect<R: Wait, W: CountedWrite>(
        &mut self,
        rt: &R,
        alloc: A,
        since: u64,
        board: &mut Option<Publisher<A>>,
        writer: &mut W,
    ) -> Result<(), RunFault>
        requires { W.failed writer.old < 2 ^ 64 - 1 }
        ensures ends { EndsCollecting (showing self.old (W.taken writer.old) board.old)
            (showing self.new (W.taken writer.new) board.new) result }
        ensures told { IfErr result (λ fault.
            written_before fault ≡ length (W.taken writer.new) - since) }
        ensures failed { FailsBy result (W.failed writer.old) (W.failed writer.new) }
    {
        for _ in rt.forever() {
            if let Some(outcome) = self.turn(rt, alloc, since, board, writer) {
                return outcome;
            }
        }
        Err(out_of_memory(writer, since))
    }
}
