//! The end of a run over threads, where what the readers sent and what was taken of them come
//! together.

ghost use Rattle.std.specs.Prelude.{◌≡◌, ◌<◌, ◌^◌, ◌-◌, ℕ, List, Option, length, IfErr, IfOk};
ghost use Rattle.mdp_lanes.specs.Boards.{Published};
ghost use Rattle.mdp_lanes.specs.Items.{ends_taken};
ghost use Rattle.mdp_arbiter.specs.Channel.{ListedChannel};
ghost use Rattle.mdp_crew.specs.Arbitrating.{IsNextNumber};
ghost use Rattle.mdp_crew.specs.Batches.{events_taken};
ghost use Rattle.mdp_crew.specs.Faults.{FailsBy, written_before};
ghost use Rattle.mdp_crew.specs.Outlets.{out};
ghost use Rattle.mdp_crew.specs.Running.{HasShown};
ghost use Rattle.mdp_pipeline.specs.Merge.{records_in};
ghost use Rattle.mdp_pipeline.specs.Output.{SaysAll, SaysSome, standing_in};
ghost use Rattle.mdp_pipeline.specs.Taken.{HasReadFor};

use crate::feed_reader::ReaderOutcome;
use crate::feeds::Feeds;
use crate::refusals::Refusals;
use crate::summary::{Summary, write_end};
use mdp_crew::{CrewOutcome, RunFault, out_of_memory};
use mdp_lanes::Intake;
use mdp_print::CountedWrite;
use mdp_templates::Feed;
use std::alloc::Allocator;

/// What a reader of each feed left.
#[derive(Drop)]
pub struct Readers<A: Allocator + Copy> {
    pub a: ReaderOutcome<A>,
    pub b: ReaderOutcome<A>,
    pub s: ReaderOutcome<A>,
}

/// Settles the readers' queue, and writes the end of the text, unless the crew stopped early or
/// memory ran out in a reader. `since` is how many bytes the writer had taken before the run.
pub fn settle_and_finish<W: CountedWrite, A: Allocator + Copy>(
    alloc: A,
    writer: &mut W,
    crew: CrewOutcome<A>,
    readers: Readers<A>,
    feeds: Feeds<'_, A>,
    since: u64,
) -> Result<Summary, RunFault>
    requires sound { IfOk crew.standing (λ _. W.failed writer.old < 2 ^ 64 - 1) }
    requires told { IfErr crew.standing (λ fault.
        written_before fault ≡ length (W.taken writer.old) - since) }
    requires range { IfOk crew.standing (λ standing. IsNextNumber standing.next) }
    requires ends { ends_taken (λ b. b.is_last) crew.receiver.taken ≡ 3 }
    requires a { HasReadFor crew.receiver Feed.A feeds.a.now readers.a }
    requires b { HasReadFor crew.receiver Feed.B feeds.b.now readers.b }
    requires s { HasReadFor crew.receiver Feed.S feeds.s.now readers.s }
    ensures text { IfOk result (λ summary. (channel : ListedChannel) (start : List ℕ)
        (before after : Option Published)
        → HasShown channel (events_taken crew.receiver.taken)
        (out start before) (out (W.taken writer.old) after) crew.standing
        → SaysAll channel (records_in feeds.entry)
        (out start before) (out (W.taken writer.new) after) (standing_in summary)) }
    ensures begins { IfErr result (λ _. (channel : ListedChannel) (start : List ℕ)
        (before after : Option Published)
        → HasShown channel (events_taken crew.receiver.taken)
        (out start before) (out (W.taken writer.old) after) crew.standing
        → SaysSome channel (records_in feeds.entry)
        (out start before) (out (W.taken writer.new) after)) }
    ensures written { IfOk result (λ summary.
        summary.written ≡ length (W.taken writer.new) - since) }
    ensures told { IfErr result (λ fault.
        written_before fault ≡ length (W.taken writer.new) - since) }
    ensures range { IfOk result (λ summary. IsNextNumber summary.next) }
    ensures failed { (before : ℕ) → FailsBy crew.standing before (W.failed writer.old)
        → FailsBy result before (W.failed writer.new) }
{
    let CrewOutcome { receiver, standing } = crew;
    let Readers {
        a: left_a,
        b: left_b,
        s: left_s,
    } = readers;
    Intake::settle(receiver, left_a.sender, left_b.sender, left_s.sender);
    let standing = standing?;
    let Ok(refusals) = Refusals::of(left_a.refusals, left_b.refusals, left_s.refusals) else {
        return Err(out_of_memory(writer, since));
    };
    write_end(alloc, writer, refusals, standing, since)
}
