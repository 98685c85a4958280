//! A worker: it keeps the books of its own securities, and answers each batch of moves with what is
//! printed of them.

ghost use Rattle.std.specs.Prelude.{◌≡◌, ◌≤◌, [], IfOk, OnOk, map};
ghost use Rattle.mdp_reports.specs.Reporting.{desks_after_moves, reports_of_moves};
ghost use Rattle.mdp_arbiter.specs.OwnedMoves.{move_of};
ghost use Rattle.mdp_templates.specs.Instrument.{AreFit};
ghost use Rattle.mdp_crew.specs.Answering.{AnswersOne, HasDrained};
ghost use Rattle.mdp_crew.specs.Shares.{share_in};
ghost use Rattle.mdp_crew.specs.Work.{HasAnswered};

use crate::gate::Gate;
use crate::order::Order;
use crate::share::Share;
use mdp_arbiter::OwnedMove;
use mdp_lanes::{LaneReceiver, LaneSender};
use mdp_reports::{Answer, RecentRoom, Reports, Worker};
use mdp_templates::Memory;
use std::alloc::Allocator;
use std::sync::Wait;

/// A worker's ends of its lanes.
#[derive(Drop)]
pub struct WorkerEnds<A: Allocator + Copy> {
    pub orders: LaneReceiver<Order<A>, A>,
    pub answers: LaneSender<Answer<A>, A>,
}

/// A worker at work: what it keeps of its securities, and its ends of the lanes.
#[derive(Drop)]
pub struct Working<A: Allocator + Copy> {
    pub worker: Worker<A>,
    pub ends: WorkerEnds<A>,
    // of the share
    number: u16,
    // how many moves it made
    made: u64,
    // how much was reported lately
    room: RecentRoom,
}

// Takes orders up to the last.
fn drain_orders<R: Wait, A: Allocator + Copy>(rt: &R, orders: &mut LaneReceiver<Order<A>, A>)
    ensures { HasDrained orders.old orders.new }
{
    for _ in rt.forever() {
        match orders.take(rt) {
            Order::Take(_) => {}
            Order::Done => break,
        }
    }
}

impl<A: Allocator + Copy> Working<A> {
    // Makes these moves, and reports them. The gate is told of each before, and they are
    // counted on.
    fn report<G: Gate>(
        &mut self,
        gate: &G,
        alloc: A,
        owned_moves: &[OwnedMove<A>],
    ) -> Result<Reports<A>, Memory>
        ensures worker { OnOk result (self.new.worker
            ≡ record self.old.worker {
              desks = desks_after_moves self.old.worker.slots
                  (map move_of owned_moves.now) self.old.worker.desks;
            }) }
        ensures reports { IfOk result (λ reports. reports
            ≡ reports_of_moves self.old.worker.slots
            (map move_of owned_moves.now) self.old.worker.desks) }
        ensures ends { self.new.ends ≡ self.old.ends }
    {
        let mut reports = Reports::with_room(alloc, self.room.room_for(owned_moves.len()))?;
        for owned_move in owned_moves {
            self.made = self.made.saturating_add(1);
            gate.arrive(usize::from(self.number), self.made);
            self.worker.report_move(owned_move, &mut reports)?;
        }
        self.room.count(owned_moves.len(), reports.room());
        Ok(reports)
    }

    // Answers an order; false after the last answer.
    fn answer_one<R: Wait, G: Gate>(&mut self, rt: &R, gate: &G, alloc: A) -> bool
        ensures { AnswersOne self.old self.new result }
    {
        match self.ends.orders.take(rt) {
            Order::Take(moves) => match self.report(gate, alloc, moves.as_slice()) {
                Ok(reports) => {
                    self.ends.answers.put(rt, Answer::Tells(reports));
                    true
                }
                Err(Memory) => {
                    self.ends.answers.put(rt, Answer::Failed);
                    drain_orders(rt, &mut self.ends.orders);
                    false
                }
            },
            Order::Done => {
                self.ends.answers.put(rt, Answer::Finished);
                false
            }
        }
    }
}

/// Answers each order with what is printed of the worker's own securities, up to the last one.
/// After want of memory it answers that it failed, and takes the orders to the last.
pub fn work<R: Wait, G: Gate, A: Allocator + Copy>(
    rt: &R,
    gate: &G,
    alloc: A,
    share: Share<'_>,
    mut ends: WorkerEnds<A>,
) -> WorkerEnds<A>
    requires fit { AreFit share.listed.now }
    requires some { 1 ≤ share.workers }
    requires taken { ends.orders.taken ≡ [] }
    requires sent { ends.answers.sent ≡ [] }
    ensures { HasAnswered (share_in share.entry) ends result }
{
    let Share {
        listed,
        workers,
        number,
    } = share;
    let Ok(worker) = Worker::new(alloc, listed, workers, number) else {
        ends.answers.put(rt, Answer::Failed);
        drain_orders(rt, &mut ends.orders);
        return ends;
    };
    let mut working = Working {
        worker,
        ends,
        number,
        made: 0,
        room: RecentRoom::none(),
    };
    for _ in rt.forever() {
        if !working.answer_one(rt, gate, alloc) {
            break;
        }
    }
    working.ends
}
