//! The workers of a run, in threads of a scope.

ghost use Rattle.std.specs.Prelude.{◌≡◌, ◌≤◌, [], IfOk, vec_len};
ghost use Rattle.std.specs.List.{AllZip};
ghost use Rattle.mdp_templates.specs.Instrument.{AreFit};
ghost use Rattle.mdp_crew.specs.Crew.{IsCrew, IsHired, IsSettled, IsWorker};
ghost use Rattle.mdp_crew.specs.Shares.{share_in, share_of};

use crate::gate::Gate;
use crate::order::{Order, send_done};
use crate::share::Share;
use crate::site::Site;
use crate::starts::Starts;
use crate::worker::{WorkerEnds, work};
use mdp_lanes::{Lane, LaneReceiver, LaneSender};
use mdp_reports::Answer;
use mdp_templates::{Instrument, Memory};
use std::alloc::Allocator;
use std::snapshot::Snapshot;
use std::sync::Wait;
use std::thread::{Promise, PromisedHandle, Threads};

/// How many messages a lane has room for.
const LANE_ROOM: usize = 64;

/// The number of the thread of worker 0, after the readers and the arbiter.
const FIRST_WORKER: usize = 4;

/// A worker's promise: it has answered the orders that it took.
#[derive(Drop)]
pub struct AnswersOrders<'s, A: Allocator + Copy> {
    pub share: Snapshot<Share<'s>>,
    pub ends: Snapshot<WorkerEnds<A>>,
}

impl<'s, A: Allocator + Copy> Promise<WorkerEnds<A>> for AnswersOrders<'s, A> {
    ghost use Rattle.mdp_crew.specs.Shares.{share_in};
    ghost use Rattle.mdp_crew.specs.Work.{HasAnswered};

    ghost kept_by = { λ p outcome. HasAnswered (share_in p.share.value) p.ends.value outcome };
}

/// A worker's thread.
type WorkerHandle<'s, A> = PromisedHandle<WorkerEnds<A>, AnswersOrders<'s, A>>;

/// What the collector has of a worker: the end that its answers come to, and its thread.
#[derive(Drop)]
pub struct Post<'s, A: Allocator + Copy> {
    pub answers: LaneReceiver<Answer<A>, A>,
    pub handle: PromisedHandle<WorkerEnds<A>, AnswersOrders<'s, A>>,
}

/// The workers that were started: the ends that orders are put into, and their posts.
type Hired<'s, A> = (Vec<LaneSender<Order<A>, A>, A>, Vec<Post<'s, A>, A>);

// Starts a worker's thread.
fn begin_worker<'s, E, R, S, G, A>(
    site: &Site<'s, E, R, S, G, A>,
    share: Share<'s>,
    ends: WorkerEnds<A>,
) -> Result<WorkerHandle<'s, A>, Memory>
where
    R: Threads + Wait + Sync,
    G: Gate + Sync,
    A: Allocator + Copy + Send + Sync,
    A: 's,
    requires fit { AreFit share.listed.now }
    requires some { 1 ≤ share.workers }
    requires taken { ends.orders.taken ≡ [] }
    requires sent { ends.answers.sent ≡ [] }
    ensures worker { IfOk result (λ h. IsWorker (share_in share.entry) h.promise) }
    ensures ends { IfOk result (λ h. h.promise.ends.value ≡ ends) }
{
    let rt = site.means.rt;
    let gate = site.means.gate;
    let alloc = site.means.alloc;
    let promise = AnswersOrders {
        share: Snapshot::of(&share),
        ends: Snapshot::of(&ends),
    };
    match site
        .scope
        .spawn_with(promise, move || work(rt, gate, alloc, share, ends))
    {
        Ok(handle) => Ok(handle),
        Err(_) => Err(Memory),
    }
}

// Starts the worker of this share.
fn hire<'s, E, R, S, G, A>(
    site: &Site<'s, E, R, S, G, A>,
    share: Share<'s>,
) -> Result<(LaneSender<Order<A>, A>, Post<'s, A>), Memory>
where
    R: Threads + Wait + Sync,
    S: Starts,
    G: Gate + Sync,
    A: Allocator + Copy + Send + Sync,
    A: 's,
    requires fit { AreFit share.listed.now }
    requires some { 1 ≤ share.workers }
    ensures hired { IfOk result (λ r. IsHired r.0 r.1) }
    ensures fresh { IfOk result (λ r. (r.0.sent ≡ []) × (r.1.answers.taken ≡ [])) }
    ensures numbered { IfOk result (λ r. IsWorker (share_in share.entry) r.1.handle.promise) }
{
    if !site
        .means
        .starts
        .may_start(FIRST_WORKER + usize::from(share.number))
    {
        return Err(Memory);
    }
    let alloc = site.means.alloc;
    let (sender, orders) = Lane::new(alloc, LANE_ROOM)?;
    let (to_post, answers) = Lane::new(alloc, LANE_ROOM)?;
    let ends = WorkerEnds {
        orders,
        answers: to_post,
    };
    let handle = begin_worker(site, share, ends)?;
    Ok((sender, Post { answers, handle }))
}

// Ends the workers that were started.
fn dismiss<'s, R: Threads + Wait, A: Allocator + Copy>(
    rt: &R,
    mut senders: Vec<LaneSender<Order<A>, A>, A>,
    posts: Vec<Post<'s, A>, A>,
) {
    send_done(rt, senders.as_mut_slice());
    for post in posts {
        let Post {
            answers: _answers,
            handle,
        } = post;
        let _ = handle.join(rt);
    }
}

/// Starts all workers, each with the securities of its own among the listed ones. Where one can't
/// be started, those before it are ended.
///
/// # Errors
///
/// Memory ran out, or a thread could not be started.
pub fn hire_all<'s, E, R, S, G, A>(
    site: &Site<'s, E, R, S, G, A>,
    listed: &'s [Instrument],
    workers: u16,
) -> Result<Hired<'s, A>, Memory>
where
    R: Threads + Wait + Sync,
    S: Starts,
    G: Gate + Sync,
    A: Allocator + Copy + Send + Sync,
    A: 's,
    requires fit { AreFit listed.now }
    requires some { 1 ≤ workers }
    ensures crew { IfOk result (λ hired. IsCrew (share_of listed.now workers 0) workers
        hired.0.items hired.1.items) }
    ensures many { IfOk result (λ hired. vec_len hired.1 ≡ workers) }
{
    let alloc = site.means.alloc;
    let mut senders = Vec::with_capacity(alloc, usize::from(workers))?;
    let mut posts = Vec::with_capacity(alloc, usize::from(workers))?;
    for number in 0..workers {
        let share = Share {
            listed,
            workers,
            number,
        };
        match hire(site, share) {
            Ok((sender, post)) => {
                senders.push_reserved(sender);
                posts.push_reserved(post);
            }
            Err(Memory) => {
                dismiss(site.means.rt, senders, posts);
                return Err(Memory);
            }
        }
    }
    Ok((senders, posts))
}

// Joins a worker, and settles its lanes. What was taken of it is a beginning of what it answers to
// the orders that it was sent.
fn let_go<'s, R: Threads, A: Allocator + Copy>(
    rt: &R,
    sender: LaneSender<Order<A>, A>,
    post: Post<'s, A>,
)
    requires { IsHired sender post }
    ensures { IsSettled sender post.entry }
{
    let Post { answers, handle } = post;
    let WorkerEnds {
        orders,
        answers: to_post,
    } = handle.join(rt);
    Lane::settle(to_post, answers);
    Lane::settle(sender, orders);
}

/// Joins all workers and settles all lanes.
pub fn let_all_go<'s, R: Threads, A: Allocator + Copy>(
    rt: &R,
    mut senders: Vec<LaneSender<Order<A>, A>, A>,
    mut posts: Vec<Post<'s, A>, A>,
)
    requires { AllZip IsHired senders.items posts.items }
    ensures { AllZip IsSettled senders.items posts.entry.items }
{
    while let Some(post) = posts.pop() {
        let Some(sender) = senders.pop() else {
            unreachable!()
        };
        let_go(rt, sender, post);
    }
}
