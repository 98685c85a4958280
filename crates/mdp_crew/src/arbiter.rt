//! The arbiter's thread: it takes what the readers hand over, and sends to all workers what that
//! makes possible.

ghost use Rattle.std.specs.Prelude.{◌≡◌, ◌++◌, [], List, map, IfErr, OnOk};
ghost use Rattle.mdp_arbiter.specs.Accepted.{Event as Accepted};
ghost use Rattle.mdp_arbiter.specs.Channel.{ListedChannel};
ghost use Rattle.mdp_engine.specs.Steps.{event_of};
ghost use Rattle.mdp_lanes.specs.Items.{ends_taken};
ghost use Rattle.mdp_crew.specs.Arbitrating.{HasBegun, HasSent, SendsMore, StopsWithin, sending};
ghost use Rattle.mdp_crew.specs.Batches.{HasTakenMore, events_taken};

use crate::batch::Batch;
use crate::feeding::feed_all;
use crate::last_orders::LastOrders;
use crate::order::{Order, send_done, send_moves};
use mdp_arbiter::{Arbiter, Standing};
use mdp_engine::Event;
use mdp_lanes::{IntakeReceiver, LaneSender};
use mdp_templates::{Memory, Packet};
use mdp_window::RingWindow;
use std::alloc::Allocator;
use std::sync::Wait;

/// The packets that came ahead of the next one.
pub type Ring<A> = RingWindow<Packet<A>, A>;

/// What the arbiter leaves: its ends of the intake and of the workers' lanes, and where the channel
/// stands, unless memory ran out.
#[derive(Drop)]
pub struct ArbiterOutcome<A: Allocator + Copy> {
    pub receiver: IntakeReceiver<Batch<A>, A>,
    pub senders: Vec<LaneSender<Order<A>, A>, A>,
    pub standing: Result<Standing, Memory>,
}

// Takes in events, and sends the moves that they make possible, where there are any.
fn send_on<R: Wait, A: Allocator + Copy>(
    rt: &R,
    alloc: A,
    arbiter: &mut Arbiter<A, Ring<A>>,
    events: Vec<Event<A>, A>,
    senders: &mut [LaneSender<Order<A>, A>],
    last: &mut LastOrders<A>,
) -> Result<(), Memory>
    ensures sends { OnOk result ((before : List Accepted)
        → SendsMore (sending before senders.old arbiter.old)
        (sending (before ++ map event_of events.items) senders.new arbiter.new)) }
    ensures stops { IfErr result (λ _. (before : List Accepted)
        → StopsWithin (sending before senders.old arbiter.old)
        (sending (before ++ map event_of events.items) senders.new arbiter.new)) }
{
    let mut owned_moves = Vec::new(alloc);
    feed_all(alloc, arbiter, events, &mut owned_moves)?;
    if owned_moves.is_empty() {
        return Ok(());
    }
    send_moves(rt, alloc, senders, owned_moves, last)
}

// Takes a batch, and sends what its events make possible.
fn take_batch<R: Wait, A: Allocator + Copy>(
    rt: &R,
    alloc: A,
    arbiter: &mut Arbiter<A, Ring<A>>,
    receiver: &mut IntakeReceiver<Batch<A>, A>,
    senders: &mut [LaneSender<Order<A>, A>],
    last: &mut LastOrders<A>,
) -> Result<(), Memory>
    ensures takes { HasTakenMore receiver.old receiver.new }
    ensures sends { OnOk result (SendsMore
        (sending (events_taken receiver.old.taken) senders.old arbiter.old)
        (sending (events_taken receiver.new.taken) senders.new arbiter.new)) }
    ensures stops { IfErr result (λ _. StopsWithin
        (sending (events_taken receiver.old.taken) senders.old arbiter.old)
        (sending (events_taken receiver.new.taken) senders.new arbiter.new)) }
{
    let (_, batch) = receiver.take(rt);
    send_on(rt, alloc, arbiter, batch.events, senders, last)
}

// Takes all batches, up to the last of each reader, and sends what they make possible.
fn take_all<R: Wait, A: Allocator + Copy>(
    rt: &R,
    alloc: A,
    arbiter: &mut Arbiter<A, Ring<A>>,
    receiver: &mut IntakeReceiver<Batch<A>, A>,
    senders: &mut [LaneSender<Order<A>, A>],
) -> Result<(), Memory>
    ensures takes { HasTakenMore receiver.old receiver.new }
    ensures ends { OnOk result (ends_taken (λ b. b.is_last) receiver.new.taken ≡ 3) }
    ensures sends { OnOk result (SendsMore
        (sending (events_taken receiver.old.taken) senders.old arbiter.old)
        (sending (events_taken receiver.new.taken) senders.new arbiter.new)) }
    ensures stops { IfErr result (λ _. StopsWithin
        (sending (events_taken receiver.old.taken) senders.old arbiter.old)
        (sending (events_taken receiver.new.taken) senders.new arbiter.new)) }
{
    let mut last = LastOrders::new();
    for _ in rt.forever() {
        if receiver.ends() == 3 {
            return Ok(());
        }
        take_batch(rt, alloc, arbiter, receiver, senders, &mut last)?;
    }
    Err(Memory)
}

/// Takes what is left, up to the last batch of each reader, and lets it go.
pub fn drain<R: Wait, A: Allocator + Copy>(rt: &R, receiver: &mut IntakeReceiver<Batch<A>, A>)
    ensures takes { HasTakenMore receiver.old receiver.new }
    ensures ends { ends_taken (λ b. b.is_last) receiver.new.taken ≡ 3 }
{
    for _ in rt.forever() {
        if receiver.ends() == 3 {
            return;
        }
        let _ = receiver.take(rt);
    }
}

/// Takes all batches of the three readers, sends to all workers what their events make possible,
/// and then that there is no more. After the first want of memory nothing more is made of events:
/// the workers are told at once that there is no more, and what the readers still hand over is
/// taken and let go.
pub fn arbitrate<R: Wait, A: Allocator + Copy>(
    rt: &R,
    alloc: A,
    mut arbiter: Arbiter<A, Ring<A>>,
    mut receiver: IntakeReceiver<Batch<A>, A>,
    mut senders: Vec<LaneSender<Order<A>, A>, A>,
) -> ArbiterOutcome<A>
    ensures { (channel : ListedChannel) → HasBegun channel arbiter → receiver.taken ≡ []
        → HasSent channel receiver senders.items result }
{
    let sent = take_all(
        rt,
        alloc,
        &mut arbiter,
        &mut receiver,
        senders.as_mut_slice(),
    );
    send_done(rt, senders.as_mut_slice());
    match sent {
        Ok(()) => {
            let standing = Standing {
                next: arbiter.next(),
                lost: arbiter.lost(),
            };
            ArbiterOutcome {
                receiver,
                senders,
                standing: Ok(standing),
            }
        }
        Err(Memory) => {
            drain(rt, &mut receiver);
            ArbiterOutcome {
                receiver,
                senders,
                standing: Err(Memory),
            }
        }
    }
}
