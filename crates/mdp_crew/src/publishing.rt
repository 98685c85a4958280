//! Publishes on a board what the rounds show.

ghost use Rattle.std.specs.Prelude.{◌≡◌, ◌++◌, ℕ, take, IfErr, MatchResult, OnOk};
ghost use Rattle.mdp_lanes.specs.Boards.{with_step};
ghost use Rattle.mdp_crew.specs.Publishing.{published_on};
ghost use Rattle.mdp_reports.specs.Steps.{posted};

use mdp_lanes::Publisher;
use mdp_reports::{BoardSteps, Posting};
use mdp_templates::Memory;
use std::alloc::Allocator;
use std::sync::Wait;

// Publishes a step.
fn publish_one<R: Wait, A: Allocator + Copy>(
    rt: &R,
    publisher: &mut Publisher<A>,
    posting: Posting<'_>,
) -> Result<(), Memory>
    ensures { MatchResult result
        (λ _. publisher.new ≡ with_step publisher.old (posted posting.entry))
        (λ _. publisher.new ≡ publisher.old) }
{
    match posting {
        Posting::Event(rows) => publisher.event(rt, rows),
        Posting::Jump => publisher.jump(rt),
    }
}

// Publishes all steps, one after the other.
fn publish_all<R: Wait, A: Allocator + Copy>(
    rt: &R,
    publisher: &mut Publisher<A>,
    steps: &BoardSteps<A>,
) -> Result<(), Memory>
    ensures all { OnOk result (publisher.new
        ≡ record publisher.old { steps = publisher.old.steps ++ steps.now }) }
    ensures some { IfErr result (λ _. (n : ℕ)
        × (publisher.new ≡ record publisher.old {
          steps = publisher.old.steps
              ++ take n steps.now;
        })) }
{
    for n in 0..steps.len() {
        let Some(posting) = steps.at(n) else {
            unreachable!()
        };
        publish_one(rt, publisher, posting)?;
    }
    Ok(())
}

/// Publishes these steps, one after the other, on the board, if there is one.
///
/// # Errors
///
/// Memory ran out. Then a beginning of the steps was published.
pub fn publish<R: Wait, A: Allocator + Copy>(
    rt: &R,
    board: &mut Option<Publisher<A>>,
    steps: &BoardSteps<A>,
) -> Result<(), Memory>
    ensures all { OnOk result (board.new ≡ published_on board.old steps.now) }
    ensures some { IfErr result (λ _. (n : ℕ)
        × (board.new ≡ published_on board.old (take n steps.now))) }
{
    match board {
        Some(publisher) => publish_all(rt, publisher, steps),
        None => Ok(()),
    }
}
