//! A run on one thread, in the order of the capture's lines.

ghost use Rattle.std.specs.Prelude.{◌≡◌, ◌<◌, ◌^◌, ◌-◌, ◌++◌, [], ℕ, List, length, take, IfOk, IfErr, OnOk};
ghost use Rattle.mdp_crew.specs.Arbitrating.{IsNextNumber};
ghost use Rattle.mdp_print.specs.Written.{HasCounted};
ghost use Rattle.mdp_crew.specs.Plan.{IsLawful, channel_in};
ghost use Rattle.mdp_crew.specs.Faults.{FailsBy, written_before};
ghost use Rattle.mdp_pipeline.specs.Merge.{records_in};
ghost use Rattle.mdp_pipeline.specs.Output.{BeginsByLine, PrintsByLine, standing_in};
ghost use Rattle.mdp_pipeline.specs.Running.{EndsAs, EndsEarly, HandsOn, HasWritten, joined_texts};
ghost use Rattle.mdp_arbiter.specs.Accepted.{Event};
ghost use Rattle.mdp_arbiter.specs.Channel.{ListedChannel};

use crate::feeds::Feeds;
use crate::pieces::PIECE;
use crate::progress::Run;
use crate::summary::{Summary, write_end};
use mdp_arbiter::Standing;
use mdp_crew::{RunFault, RunPlan, hand_on, out_of_memory};
use mdp_print::CountedWrite;
use std::alloc::Allocator;

// Writes the lines that the handler holds where they are a piece, and lets them go.
fn hand_on_pieces<W: CountedWrite, A: Allocator + Copy>(
    writer: &mut W,
    run: &mut Run<A>,
    since: u64,
) -> Result<(), RunFault>
    requires { W.failed writer.old < 2 ^ 64 - 1 }
    ensures hands_on { OnOk result (HandsOn (W.taken writer.old)
        (W.taken writer.new) run.old run.new) }
    ensures begins { IfErr result (λ _. (n : ℕ)
        × (W.taken writer.new ≡ W.taken writer.old ++ take n run.old.handler.held)) }
    ensures told { IfErr result (λ fault.
        written_before fault ≡ length (W.taken writer.new) - since) }
    ensures failed { FailsBy result (W.failed writer.old) (W.failed writer.new) }
{
    if run.handler.lines().len() < PIECE {
        return Ok(());
    }
    hand_on(writer, run.handler.lines(), since)?;
    run.handler.clear_lines();
    Ok(())
}

/// Runs over the records of the feeds on one thread, in the order of the capture's lines, and
/// writes what is owed; of equal lines feed A's record goes before B's, and B's before S's. It
/// works on the caller's thread, whatever the plan's number of workers.
///
/// # Errors
///
/// `Output` exactly where a write failed, else `Memory`. The bytes that went out before are a
/// beginning of what the whole run prints.
pub fn run_in_order<W: CountedWrite, A: Allocator + Copy>(
    alloc: A,
    plan: RunPlan<'_>,
    mut feeds: Feeds<'_, A>,
    writer: &mut W,
) -> Result<Summary, RunFault>
    requires sound { W.failed writer.old < 2 ^ 64 - 1 }
    requires lawful { IsLawful plan }
    ensures text { IfOk result (λ summary. (text : List ℕ)
        × (W.taken writer.new ≡ W.taken writer.old ++ text)
        × PrintsByLine (channel_in plan.entry) (records_in feeds.entry) text
        (standing_in summary)) }
    ensures begins { IfErr result (λ _. BeginsByLine (channel_in plan.entry)
        (records_in feeds.entry)
        (W.taken writer.old) (W.taken writer.new)) }
    ensures written { IfOk result (λ summary. HasCounted (W.taken writer.old)
        (W.taken writer.new) summary.written) }
    ensures told { IfErr result (λ fault. HasCounted (W.taken writer.old) (W.taken writer.new)
        (written_before fault)) }
    ensures range { IfOk result (λ summary. IsNextNumber summary.next) }
    ensures failed { FailsBy result (W.failed writer.old) (W.failed writer.new) }
{
    let since = writer.written();
    let Ok(mut run) = Run::new(alloc, plan) else {
        return Err(out_of_memory(writer, since));
    };
    while let Some((feed, record)) = feeds.next_by_line() {
        let Ok(()) = run.take(alloc, feed, record) else {
            return Err(out_of_memory(writer, since));
        };
        hand_on_pieces(writer, &mut run, since)?;
    }
    finish(alloc, writer, run, since)
}

// Writes the lines that the handler still holds, the refusals and the last line.
pub(crate) fn finish<W: CountedWrite, A: Allocator + Copy>(
    alloc: A,
    writer: &mut W,
    run: Run<A>,
    since: u64,
) -> Result<Summary, RunFault>
    requires { W.failed writer.old < 2 ^ 64 - 1 }
    ensures text { IfOk result (λ summary. (channel : ListedChannel) (events : List Event)
        (start : List ℕ) →
        HasWritten channel events start (W.taken writer.old) run.handler →
        (text : List ℕ) × (W.taken writer.new ≡ start ++ text)
        × EndsAs channel events (joined_texts run.refusals) text (standing_in summary)) }
    ensures begins { IfErr result (λ _. (channel : ListedChannel) (events : List Event)
        (start : List ℕ) →
        HasWritten channel events start (W.taken writer.old) run.handler →
        EndsEarly channel events (joined_texts run.refusals) start (W.taken writer.new)) }
    ensures written { IfOk result (λ summary.
        summary.written ≡ length (W.taken writer.new) - since) }
    ensures told { IfErr result (λ fault.
        written_before fault ≡ length (W.taken writer.new) - since) }
    ensures range { IfOk result (λ summary. IsNextNumber summary.next) }
    ensures failed { FailsBy result (W.failed writer.old) (W.failed writer.new) }
{
    let Run { handler, refusals } = run;
    let standing = Standing {
        next: handler.next(),
        lost: handler.lost(),
    };
    hand_on(writer, handler.lines(), since)?;
    write_end(alloc, writer, refusals, standing, since)
}
