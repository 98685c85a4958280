//! All of a crew in one thread, one after another: the arbiter, each worker, the collector.

ghost use Rattle.std.specs.Prelude.{◌≡◌, ◌≤◌, []};
ghost use Rattle.mdp_templates.specs.Instrument.{AreFit};

use crate::arbiter::arbitrate;
use crate::collector::Collecting;
use crate::crew::{AnswersOrders, Post};
use crate::fault::RunFault;
use crate::gate::Open;
use crate::order::Order;
use crate::share::Share;
use crate::tests::channel::{Came, handed_over};
use crate::tests::writer::slow_writer;
use crate::worker::{WorkerEnds, work};
use mdp_arbiter::{Arbiter, Standing, Start};
use mdp_lanes::{Lane, LaneReceiver, LaneSender};
use mdp_reports::Collector;
use mdp_templates::{Instrument, Memory, are_fit};
use mdp_window::RingWindow;
use std::alloc::Global;
use std::snapshot::Snapshot;
use std::sync::Wait;
use std::thread;
use std::thread::{Scope, Threads};

/// The end of a lane from which nothing was taken.
#[derive(Drop)]
struct Fresh {
    orders: LaneReceiver<Order<Global>, Global>,
    ghost fresh: { orders.taken ≡ [] },
}

type Senders = Vec<LaneSender<Order<Global>, Global>>;

type Posts<'s> = Vec<Post<'s, Global>>;

/// A lane for each worker.
fn lanes(alloc: Global, workers: u16) -> Result<(Senders, Vec<Fresh>), Memory> {
    let mut senders = Vec::new(alloc);
    let mut fresh = Vec::new(alloc);
    for _ in 0..workers {
        let (sender, orders) = Lane::new(alloc, 8)?;
        senders.push(sender)?;
        fresh.push(Fresh { orders })?;
    }
    Ok((senders, fresh))
}

/// Lets a worker answer all of its orders, here; its thread only hands back what it left.
fn post_of<'s, E, R: Threads + Wait + Sync>(
    rt: &'s R,
    scope: &'s Scope<'s, E>,
    alloc: Global,
    share: Share<'s>,
    lane: Fresh,
) -> Result<Post<'s, Global>, Memory>
    requires fit { AreFit share.listed.now }
    requires some { 1 ≤ share.workers }
{
    let Fresh { orders } = lane;
    let (to_post, answers) = Lane::new(alloc, 8)?;
    let ends = WorkerEnds {
        orders,
        answers: to_post,
    };
    let promise = AnswersOrders {
        share: Snapshot::of(&share),
        ends: Snapshot::of(&ends),
    };
    let outcome = work(rt, &Open, alloc, share, ends);
    match scope.spawn_with(promise, move || outcome) {
        Ok(handle) => Ok(Post { answers, handle }),
        Err(_) => Err(Memory),
    }
}

/// Lets the workers answer all of their orders, one after another.
fn posts_of<'s, E, R: Threads + Wait + Sync>(
    rt: &'s R,
    scope: &'s Scope<'s, E>,
    alloc: Global,
    listed: &'s [Instrument],
    workers: u16,
    lanes: Vec<Fresh>,
) -> Result<Posts<'s>, Memory>
    requires fit { AreFit listed.now }
    requires some { 1 ≤ workers }
{
    let mut posts = Vec::new(alloc);
    let mut number = 0u16;
    for lane in lanes {
        let share = Share {
            listed,
            workers,
            number,
        };
        posts.push(post_of(rt, scope, alloc, share, lane)?)?;
        number = number.saturating_add(1);
    }
    Ok(posts)
}

/// What a crew in one thread comes to: what the collector says, the bytes that it wrote, and what the arbiter says.
#[derive(Drop)]
pub struct InTurn {
    pub collected: Result<(), RunFault>,
    pub bytes: Vec<u8>,
    pub standing: Result<Standing, Memory>,
}

// Collects what the workers have answered.
fn collect_all<'s, R: Threads + Wait>(
    rt: &R,
    alloc: Global,
    listed: &'s [Instrument],
    posts: Posts<'s>,
    standing: Result<Standing, Memory>,
) -> Result<InTurn, Memory>
    requires { AreFit listed.now }
{
    let collector = Collector::new(alloc, listed)?;
    let round = Vec::with_capacity(alloc, posts.len())?;
    let mut collecting = Collecting::new(alloc, collector, round, posts);
    let mut board = None;
    let mut kept = slow_writer(alloc, 0);
    let collected = collecting.collect(rt, alloc, 0, &mut board, &mut kept);
    if let Some(publisher) = board {
        publisher.end(rt);
    }
    Ok(InTurn {
        collected,
        bytes: kept.bytes,
        standing,
    })
}

// All that happens inside the scope.
fn run_in<'s, E, R: Threads + Wait + Sync>(
    rt: &'s R,
    scope: &'s Scope<'s, E>,
    alloc: Global,
    listed: &'s [Instrument],
    workers: u16,
) -> Result<InTurn, Memory> {
    if workers == 0 || !are_fit(listed) {
        return Err(Memory);
    }
    let (_a, _b, _s, receiver) = handed_over(rt, alloc, Came::Channel)?;
    let (senders, lanes) = lanes(alloc, workers)?;
    let window = RingWindow::new(alloc, 4)?;
    let arbiter = Arbiter::new(alloc, listed, window, Start::FromOne)?;
    let arbitrated = arbitrate(rt, alloc, arbiter, receiver, senders);
    let posts = posts_of(rt, scope, alloc, listed, workers, lanes)?;
    collect_all(rt, alloc, listed, posts, arbitrated.standing)
}

/// Runs a crew of so many workers in one thread.
pub fn run_in_turn<R: Threads + Wait + Sync>(
    rt: &R,
    alloc: Global,
    listed: &[Instrument],
    workers: u16,
) -> Result<InTurn, Memory> {
    thread::scope(
        thread::scope_env(),
        rt,
        move |scope| run_in(rt, scope, alloc, listed, workers),
    )
}
