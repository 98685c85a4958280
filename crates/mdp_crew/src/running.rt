//! The crew of a run: the arbiter and the workers in threads of a scope, and the collector on the
//! caller's thread.

ghost use Rattle.std.specs.Prelude.{◌≡◌, ◌≤◌, ◌<◌, ◌^◌, ◌-◌, [], length, IfErr, IfOk, MatchResult};
ghost use Rattle.mdp_lanes.specs.Items.{ends_taken};
ghost use Rattle.mdp_crew.specs.Arbitrating.{HasBegun, HasSent, IsNextNumber};
ghost use Rattle.mdp_crew.specs.Batches.{HasTakenMore, events_taken};
ghost use Rattle.mdp_crew.specs.Faults.{FailsBy, written_before};
ghost use Rattle.mdp_crew.specs.Outlets.{out};
ghost use Rattle.mdp_crew.specs.Running.{HasShown, outcome_of};
ghost use Rattle.mdp_crew.specs.Plan.{IsLawful, channel_in};
ghost use Rattle.mdp_crew.specs.Ready.{IsReady};

use crate::arbiter::{ArbiterOutcome, Ring, arbitrate, drain};
use crate::batch::Batch;
use crate::begun::{Begun, begin, join};
use crate::collector::Collecting;
use crate::crew::{hire_all, let_all_go};
use crate::fault::{RunFault, out_of_memory};
use crate::gate::Gate;
use crate::order::Order;
use crate::plan::RunPlan;
use crate::site::Site;
use crate::starts::Starts;
use mdp_arbiter::{Arbiter, Standing};
use mdp_lanes::{IntakeReceiver, LaneSender, Publisher};
use mdp_print::{CountedWrite, written_since};
use mdp_reports::Collector;
use mdp_templates::Memory;
use mdp_window::RingWindow;
use std::alloc::Allocator;
use std::snapshot::Snapshot;
use std::sync::Wait;
use std::thread::{Promise, Threads};

/// The number of the arbiter's thread, after the readers.
const ARBITER: usize = 3;

/// The arbiter's promise: it has taken all batches of the readers, and sent what they make
/// possible.
#[derive(Drop)]
pub struct SendsOrders<'s, A: Allocator + Copy> {
    pub plan: Snapshot<RunPlan<'s>>,
    pub receiver: Snapshot<IntakeReceiver<Batch<A>, A>>,
    pub senders: Snapshot<Vec<LaneSender<Order<A>, A>, A>>,
}

impl<'s, A: Allocator + Copy> Promise<ArbiterOutcome<A>> for SendsOrders<'s, A> {
    ghost use Rattle.mdp_crew.specs.Arbitrating.{HasSent};
    ghost use Rattle.mdp_crew.specs.Plan.{channel_in};

    ghost kept_by = { λ p outcome. HasSent (channel_in p.plan.value) p.receiver.value
        p.senders.value.items outcome };
}

/// What is left to know of the arbiter: its thread, or what it left where its thread couldn't be
/// started.
type Arbitrating<'s, A> = Begun<ArbiterOutcome<A>, SendsOrders<'s, A>>;

/// What the crew leaves: the receiver, and where the channel stands or why the run ended early.
#[derive(Drop)]
pub struct CrewOutcome<A: Allocator + Copy> {
    pub receiver: IntakeReceiver<Batch<A>, A>,
    pub standing: Result<Standing, RunFault>,
}

/// What the threads of a crew begin with.
#[derive(Drop)]
pub struct Ready<'s, A: Allocator + Copy> {
    pub arbiter: Arbiter<A, Ring<A>>,
    pub senders: Vec<LaneSender<Order<A>, A>, A>,
    pub collecting: Collecting<'s, A>,
}

// Makes what the crew begins with, and starts the workers.
fn prepare<'s, E, R, S, G, A>(
    site: &Site<'s, E, R, S, G, A>,
    plan: RunPlan<'s>,
) -> Result<Ready<'s, A>, Memory>
where
    R: Threads + Wait + Sync,
    S: Starts,
    G: Gate + Sync,
    A: Allocator + Copy + Send + Sync,
    A: 's,
    requires lawful { IsLawful plan }
    requires some { 1 ≤ plan.workers }
    ensures { IfOk result (λ ready. IsReady plan.entry ready) }
{
    let RunPlan {
        instruments,
        window,
        start,
        workers,
    } = plan;
    let alloc = site.means.alloc;
    let round = Vec::with_capacity(alloc, usize::from(workers))?;
    let collector = Collector::new(alloc, instruments)?;
    let window = RingWindow::new(alloc, u64::from(window))?;
    let arbiter = Arbiter::new(alloc, instruments, window, start)?;
    let (senders, posts) = hire_all(site, instruments, workers)?;
    let collecting = Collecting::new(alloc, collector, round, posts);
    Ok(Ready {
        arbiter,
        senders,
        collecting,
    })
}

// Starts the arbiter's thread. Where it can't be started all readers are told to stop, and it is
// called here.
fn begin_arbiter<'s, E, R, S, G, A>(
    site: &Site<'s, E, R, S, G, A>,
    plan: RunPlan<'s>,
    arbiter: Arbiter<A, Ring<A>>,
    receiver: IntakeReceiver<Batch<A>, A>,
    senders: Vec<LaneSender<Order<A>, A>, A>,
) -> Arbitrating<'s, A>
where
    R: Threads + Wait + Sync,
    S: Starts,
    A: Allocator + Copy + Send + Sync,
    A: 's,
    requires begun { HasBegun (channel_in plan) arbiter }
    requires fresh { receiver.taken ≡ [] }
    ensures { MatchResult result
        (λ h. (h.promise.plan.value ≡ plan.entry) × (h.promise.receiver.value ≡ receiver)
        × (h.promise.senders.value.items ≡ senders.items))
        (λ outcome. HasSent (channel_in plan.entry) receiver senders.items outcome) }
{
    let rt = site.means.rt;
    let alloc = site.means.alloc;
    let promise = SendsOrders {
        plan: Snapshot::of(&plan),
        receiver: Snapshot::of(&receiver),
        senders: Snapshot::of(&senders),
    };
    begin(
        site,
        ARBITER,
        promise,
        move || arbitrate(rt, alloc, arbiter, receiver, senders),
    )
}

// Returns what the run comes to: what the collector met goes before what the arbiter met.
fn outcome(
    collected: Result<(), RunFault>,
    standing: Result<Standing, Memory>,
    written: u64,
) -> Result<Standing, RunFault>
    ensures { result ≡ outcome_of written collected standing }
{
    match (collected, standing) {
        (Err(fault), _) => Err(fault),
        (Ok(()), Ok(standing)) => Ok(standing),
        (Ok(()), Err(Memory)) => Err(RunFault::Memory { written }),
    }
}

// Lets the threads work, writes and publishes what they come to, and joins them.
fn run_ready<'s, E, R, S, G, W, A>(
    site: &Site<'s, E, R, S, G, A>,
    plan: RunPlan<'s>,
    ready: Ready<'s, A>,
    receiver: IntakeReceiver<Batch<A>, A>,
    board: &mut Option<Publisher<A>>,
    writer: &mut W,
) -> CrewOutcome<A>
where
    R: Threads + Wait + Sync,
    S: Starts,
    W: CountedWrite,
    A: Allocator + Copy + Send + Sync,
    A: 's,
    requires sound { W.failed writer.old < 2 ^ 64 - 1 }
    requires lawful { IsLawful plan }
    requires some { 1 ≤ plan.workers }
    requires ready { IsReady plan ready }
    requires fresh { receiver.taken ≡ [] }
    ensures takes { HasTakenMore receiver result.receiver }
    ensures ends { ends_taken (λ b. b.is_last) result.receiver.taken ≡ 3 }
    ensures shows { HasShown (channel_in plan.entry) (events_taken result.receiver.taken)
        (out (W.taken writer.old) board.old) (out (W.taken writer.new) board.new) result.standing }
    ensures told { IfErr result.standing (λ fault. written_before fault
        ≡ length (W.taken writer.new) - length (W.taken writer.old)) }
    ensures range { IfOk result.standing (λ standing. IsNextNumber standing.next) }
    ensures failed { FailsBy result.standing (W.failed writer.old) (W.failed writer.new) }
{
    let Ready {
        arbiter,
        senders,
        mut collecting,
    } = ready;
    let rt = site.means.rt;
    let arbitrating = begin_arbiter(site, plan, arbiter, receiver, senders);
    let _ = site.go.set(rt, true);
    let since = writer.written();
    let collected = collecting.collect(rt, site.means.alloc, since, board, writer);
    let ArbiterOutcome {
        receiver,
        senders,
        standing,
    } = join(rt, arbitrating);
    let_all_go(rt, senders, collecting.posts);
    CrewOutcome {
        receiver,
        standing: outcome(collected, standing, written_since(writer, since)),
    }
}

/// Runs over what three readers hand over, once they are told to go: an arbiter and so many workers
/// in threads of the scope, and the collector on the caller's thread, which writes the text and
/// publishes its steps on the board, if there is one. All that the readers hand over is taken, and
/// all threads are joined, on every path. Where a thread can't be started the readers are told to
/// stop; where it is the arbiter's, the caller's thread arbitrates what they put before.
///
/// # Errors
///
/// `Output` exactly where a write failed, else `Memory`, also where a worker's thread can't be
/// started. What went out is a beginning of what the whole run shows, and what was published the
/// steps of a beginning of that whose text went out whole.
pub fn run_crew<'s, E, R, S, G, W, A>(
    site: &Site<'s, E, R, S, G, A>,
    plan: RunPlan<'s>,
    mut receiver: IntakeReceiver<Batch<A>, A>,
    board: &mut Option<Publisher<A>>,
    writer: &mut W,
) -> CrewOutcome<A>
where
    R: Threads + Wait + Sync,
    S: Starts,
    G: Gate + Sync,
    W: CountedWrite,
    A: Allocator + Copy + Send + Sync,
    A: 's,
    requires sound { W.failed writer.old < 2 ^ 64 - 1 }
    requires lawful { IsLawful plan }
    requires some { 1 ≤ plan.workers }
    requires fresh { receiver.taken ≡ [] }
    ensures takes { HasTakenMore receiver result.receiver }
    ensures ends { ends_taken (λ b. b.is_last) result.receiver.taken ≡ 3 }
    ensures shows { HasShown (channel_in plan.entry) (events_taken result.receiver.taken)
        (out (W.taken writer.old) board.old) (out (W.taken writer.new) board.new) result.standing }
    ensures told { IfErr result.standing (λ fault. written_before fault
        ≡ length (W.taken writer.new) - length (W.taken writer.old)) }
    ensures range { IfOk result.standing (λ standing. IsNextNumber standing.next) }
    ensures failed { FailsBy result.standing (W.failed writer.old) (W.failed writer.new) }
{
    match prepare(site, plan) {
        Ok(ready) => run_ready(site, plan, ready, receiver, board, writer),
        Err(Memory) => {
            let _ = site.go.set(site.means.rt, false);
            drain(site.means.rt, &mut receiver);
            CrewOutcome {
                receiver,
                standing: Err(RunFault::Memory { written: 0 }),
            }
        }
    }
}
