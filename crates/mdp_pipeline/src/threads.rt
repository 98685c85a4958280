//! A run over threads: three readers, and the crew that takes what they hand over.

ghost use Rattle.std.specs.Prelude.{◌≡◌, ◌≤◌, ◌<◌, ◌^◌, ◌-◌, ◌++◌, ℕ, List, IfErr, IfOk, MatchResult, false};
ghost use Rattle.mdp_lanes.specs.declared.step.Step.{Step};
ghost use Rattle.mdp_crew.specs.Arbitrating.{IsNextNumber};
ghost use Rattle.mdp_print.specs.Written.{HasCounted};
ghost use Rattle.mdp_crew.specs.Faults.{FailsBy, written_before};
ghost use Rattle.mdp_crew.specs.Outlets.{out};
ghost use Rattle.mdp_crew.specs.Plan.{IsLawful, channel_in};
ghost use Rattle.mdp_pipeline.specs.Merge.{records_in};
ghost use Rattle.mdp_pipeline.specs.Output.{BeginsMerge, BeginsToPublishMerge, Ends, PrintsMerge, PublishesMerge, standing_in};
ghost use Rattle.mdp_pipeline.specs.Readers.{HasRead, has_ended};

use crate::feed_reader::{ReaderOutcome, number_of, read_feed};
use crate::feeds::Feeds;
use crate::pace::Pace;
use crate::settling::{Readers, settle_and_finish};
use crate::summary::Summary;
use mdp_capture::Record;
use mdp_crew::{
    Always, Batch, Begun, Gate, Means, RunFault, RunPlan, Site, Starts, begin, join, run_crew,
};
use mdp_lanes::{Intake, IntakeSender, Publisher};
use mdp_print::CountedWrite;
use mdp_templates::Feed;
use std::alloc::Allocator;
use std::snapshot::Snapshot;
use std::sync::Wait;
use std::thread;
use std::thread::{Promise, Threads};

/// How many batches the readers' queue has room for.
const INTAKE_ROOM: usize = 256;

/// A reader's promise: it has read these records of a feed, and put its last batch.
#[derive(Drop)]
pub struct ReadsFeed<'a, A: Allocator + Copy> {
    feed: Feed,
    records: Snapshot<&'a [Record<A>]>,
    before: Snapshot<IntakeSender<Batch<A>, A>>,
}

impl<'a, A: Allocator + Copy> Promise<ReaderOutcome<A>> for ReadsFeed<'a, A> {
    ghost kept_by = { λ p outcome. HasRead p.feed p.records.value.now p.before.value outcome };
}

/// What is left to know of a reader: its thread, or what it left where its thread couldn't be
/// started.
type Reading<'s, A> = Begun<ReaderOutcome<A>, ReadsFeed<'s, A>>;

// Starts a reader's thread. Where it can't be started all readers are told to stop, and this one is
// called here.
fn begin_reader<'s, E, R, S, G, A>(
    site: &Site<'s, E, R, S, G, A>,
    pace: &'s Pace,
    feed: Feed,
    records: &'s [Record<A>],
    sender: IntakeSender<Batch<A>, A>,
) -> Reading<'s, A>
where
    R: Threads + Wait + Sync,
    S: Starts,
    G: Gate + Sync,
    A: Allocator + Copy + Send + Sync,
    A: 's,
    requires { has_ended sender ≡ false }
    ensures { MatchResult result
        (λ h. (h.promise.feed ≡ feed) × (h.promise.records.value.now ≡ records.entry.now)
        × (h.promise.before.value ≡ sender))
        (λ outcome. HasRead feed records.entry.now sender outcome) }
{
    let rt = site.means.rt;
    let gate = site.means.gate;
    let alloc = site.means.alloc;
    let promise = ReadsFeed {
        feed,
        records: Snapshot::of(&records),
        before: Snapshot::of(&sender),
    };
    begin(
        site,
        number_of(feed),
        promise,
        move || read_feed(rt, pace, alloc, gate, feed, records, sender),
    )
}

// Starts the readers, runs the crew over what they hand over, joins them and settles.
fn run_in<'s, E, R, S, G, W, A>(
    site: &Site<'s, E, R, S, G, A>,
    pace: &'s Pace,
    plan: RunPlan<'s>,
    feeds: Feeds<'s, A>,
    board: &mut Option<Publisher<A>>,
    writer: &mut W,
) -> Result<Summary, RunFault>
where
    R: Threads + Wait + Sync,
    S: Starts,
    G: Gate + Sync,
    W: CountedWrite,
    A: Allocator + Copy + Send + Sync,
    A: 's,
    requires sound { W.failed writer.old < 2 ^ 64 - 1 }
    requires lawful { IsLawful plan }
    requires some { 1 ≤ plan.workers }
    ensures ends { Ends (channel_in plan.entry) (records_in feeds.entry)
        (out (W.taken writer.old) board.old) (out (W.taken writer.new) board.new) result }
    ensures failed { FailsBy result (W.failed writer.old) (W.failed writer.new) }
{
    let Ok((to_a, to_b, to_s, receiver)) = Intake::new(site.means.alloc, INTAKE_ROOM) else {
        return Err(RunFault::Memory { written: 0 });
    };
    let reads_a = begin_reader(site, pace, Feed::A, feeds.a, to_a);
    let reads_b = begin_reader(site, pace, Feed::B, feeds.b, to_b);
    let reads_s = begin_reader(site, pace, Feed::S, feeds.s, to_s);
    let since = writer.written();
    let crew = run_crew(site, plan, receiver, board, writer);
    let readers = Readers {
        a: join(site.means.rt, reads_a),
        b: join(site.means.rt, reads_b),
        s: join(site.means.rt, reads_s),
    };
    settle_and_finish(site.means.alloc, writer, crew, readers, feeds, since)
}

/// Runs as [`run_published`] does where there is a board, and else as [`run`]; a thread that may
/// not start is one that can't be started.
pub(crate) fn run_where<R, S, G, W, A>(
    means: &Means<'_, R, S, G, A>,
    plan: RunPlan<'_>,
    feeds: Feeds<'_, A>,
    board: &mut Option<Publisher<A>>,
    writer: &mut W,
) -> Result<Summary, RunFault>
where
    R: Threads + Wait + Sync,
    S: Starts + Sync,
    G: Gate + Sync,
    W: CountedWrite,
    A: Allocator + Copy + Send + Sync,
    requires sound { W.failed writer.old < 2 ^ 64 - 1 }
    requires lawful { IsLawful plan }
    requires some { 1 ≤ plan.workers }
    ensures ends { Ends (channel_in plan.entry) (records_in feeds.entry)
        (out (W.taken writer.old) board.old) (out (W.taken writer.new) board.new) result }
    ensures failed { FailsBy result (W.failed writer.old) (W.failed writer.new) }
{
    let paced = Pace::new(plan.window, feeds.s);
    let pace = &paced;
    let (back, board_back, outcome) = thread::scope(
        thread::scope_env(),
        means.rt,
        move |scope| -> (&mut W, &mut Option<Publisher<A>>, Result<Summary, RunFault>)
            requires { (W.failed writer.now < 2 ^ 64 - 1) × IsLawful plan × (1 ≤ plan.workers) }
            ensures same { (result.0.ghost_name ≡ writer.entry.ghost_name)
                × (result.1.ghost_name ≡ board.entry.ghost_name) }
            ensures ends { Ends (channel_in plan.entry) (records_in feeds.entry)
                (out (W.taken writer.entry.now) board.entry.now)
                (out (W.taken result.0.now) result.1.now) result.2 }
            ensures failed { FailsBy result.2 (W.failed writer.entry.now) (W.failed result.0.now) }
        {
            let site = Site {
                means,
                scope,
                go: &pace.go,
            };
            let outcome = run_in(&site, pace, plan, feeds, board, writer);
            (writer, board, outcome)
        },
    );
    let _ = &*back;
    let _ = &*board_back;
    outcome
}

/// Runs over the records of the feeds in threads: one for each feed, which decodes its records, the
/// arbiter's, the plan's workers, each with the books of its own securities, and the caller's,
/// which writes what is owed. Which merge of the feeds' events comes about, the threads decide, as
/// far as the readers' pace leaves it to them: none hands over more than a quarter of the window,
/// in lines, ahead of the slowest, and none passes the line of the first close before all that
/// stands before it was handed over. Of that pace no clause speaks.
///
/// The gate is told of each record before its reader reads it, and of each step before a worker
/// works on it. A gate that holds a reader holds the others too, once they are as far ahead as they
/// may be.
///
/// # Errors
///
/// `Output` exactly where a write failed, else `Memory`, also where a thread can't be started. The
/// bytes that went out before are a beginning of what the whole run prints for some merge.
pub fn run<R, G, W, A>(
    rt: &R,
    alloc: A,
    plan: RunPlan<'_>,
    feeds: Feeds<'_, A>,
    gate: &G,
    writer: &mut W,
) -> Result<Summary, RunFault>
where
    R: Threads + Wait + Sync,
    G: Gate + Sync,
    W: CountedWrite,
    A: Allocator + Copy + Send + Sync,
    requires sound { W.failed writer.old < 2 ^ 64 - 1 }
    requires lawful { IsLawful plan }
    requires some_workers { 1 ≤ plan.workers }
    ensures text { IfOk result (λ summary. (text : List ℕ)
        × (W.taken writer.new ≡ W.taken writer.old ++ text)
        × PrintsMerge (channel_in plan.entry) (records_in feeds.entry) text (standing_in summary)) }
    ensures begins { IfErr result (λ _. BeginsMerge (channel_in plan.entry) (records_in feeds.entry)
        (W.taken writer.old) (W.taken writer.new)) }
    ensures written { IfOk result (λ summary. HasCounted (W.taken writer.old)
        (W.taken writer.new) summary.written) }
    ensures told { IfErr result (λ fault. HasCounted (W.taken writer.old) (W.taken writer.new)
        (written_before fault)) }
    ensures range { IfOk result (λ summary. IsNextNumber summary.next) }
    ensures failed { FailsBy result (W.failed writer.old) (W.failed writer.new) }
{
    let mut board = None;
    let means = Means {
        rt,
        starts: &Always,
        gate,
        alloc,
    };
    let outcome = run_where(&means, plan, feeds, &mut board, writer);
    let None = board else { unreachable!() };
    outcome
}

/// Runs as [`run`] does, and publishes on a board with a slot for each listed security, in listed
/// order: one step for each event end, with the rows of what is printed there, and one for each
/// jump. A step is published after the write of its lines. Hands the publisher back, also with an
/// error.
///
/// # Errors
///
/// As `run`. What was published before are the steps of a beginning of what the whole run shows,
/// for the same merge, of which each line had gone out.
pub fn run_published<R, G, W, A>(
    rt: &R,
    alloc: A,
    plan: RunPlan<'_>,
    feeds: Feeds<'_, A>,
    gate: &G,
    publisher: Publisher<A>,
    writer: &mut W,
) -> (Publisher<A>, Result<Summary, RunFault>)
where
    R: Threads + Wait + Sync,
    G: Gate + Sync,
    W: CountedWrite,
    A: Allocator + Copy + Send + Sync,
    requires sound { W.failed writer.old < 2 ^ 64 - 1 }
    requires lawful { IsLawful plan }
    requires some_workers { 1 ≤ plan.workers }
    ensures board { result.0.board ≡ publisher.board }
    ensures text { IfOk result.1 (λ summary. (text : List ℕ) × (steps : List Step)
        × (W.taken writer.new ≡ W.taken writer.old ++ text)
        × (result.0 ≡ record publisher { steps = publisher.steps ++ steps })
        × PublishesMerge (channel_in plan.entry) (records_in feeds.entry) text
        (standing_in summary) steps) }
    ensures begins { IfErr result.1 (λ _. (steps : List Step)
        × (result.0 ≡ record publisher { steps = publisher.steps ++ steps })
        × BeginsToPublishMerge (channel_in plan.entry) (records_in feeds.entry) (W.taken writer.old)
        (W.taken writer.new) steps) }
    ensures written { IfOk result.1 (λ summary. HasCounted (W.taken writer.old)
        (W.taken writer.new) summary.written) }
    ensures told { IfErr result.1 (λ fault. HasCounted (W.taken writer.old) (W.taken writer.new)
        (written_before fault)) }
    ensures range { IfOk result.1 (λ summary. IsNextNumber summary.next) }
    ensures failed { FailsBy result.1 (W.failed writer.old) (W.failed writer.new) }
{
    let mut board = Some(publisher);
    let means = Means {
        rt,
        starts: &Always,
        gate,
        alloc,
    };
    let outcome = run_where(&means, plan, feeds, &mut board, writer);
    let Some(publisher) = board else {
        unreachable!()
    };
    (publisher, outcome)
}
