//! What a message takes through a queue of mdp_lanes: through a lane, and through an intake with three senders.

ghost use Rattle.std.specs.Prelude.{◌≤◌, false};
ghost use Rattle.std.specs.List.{list_any};

use crate::TURNS;
use mdp_lanes::{Ends, Intake, IntakeReceiver, IntakeSender, Lane, LaneSender};
use std::alloc::{AllocError, Global};
use std::sync::Wait;
use std::thread;
use std::thread::Threads;
use std::time::{Clock, Instant};

/// For how many messages a queue has room.
pub const CAPACITIES: [usize; 2] = [64, 256];

/// What a sender of an intake puts.
#[derive(Drop)]
struct Message {
    number: u64,
    is_last: bool,
}

impl Ends for Message {
    ghost is_end = { λ m. m.is_last };

    fn is_end(&self) -> bool {
        self.is_last
    }
}

// Puts so many messages into a lane.
fn put_all<R: Wait>(
    rt: &R,
    mut sender: LaneSender<u64, Global>,
    count: u64,
) -> LaneSender<u64, Global> {
    for number in 0..count {
        sender.put(rt, number);
    }
    sender
}

// Times so many messages through a lane.
fn through_lane<R: Threads + Wait + Clock + Copy + Send + 'static>(
    rt: R,
    alloc: Global,
    capacity: usize,
    count: u64,
) -> anyhow::Result<u128>
    requires least { 1 ≤ capacity }
    requires most { capacity ≤ 65536 }
{
    let (sender, mut receiver) = Lane::new(alloc, capacity).map_err(|_| AllocError)?;
    let start = Instant::now(&rt)?;
    let handle = thread::spawn(&rt, move || put_all(&rt, sender, count))?;
    let mut sum = 0u64;
    for _ in 0..count {
        sum = sum.wrapping_add(receiver.take(&rt));
    }
    let _ = handle.join(&rt);
    Ok(start.elapsed(&rt)?.as_nanos())
}

// Puts so many messages into an intake, and then the last.
fn put_all_and_end<R: Wait>(
    rt: &R,
    mut sender: IntakeSender<Message, Global>,
    count: u64,
) -> IntakeSender<Message, Global> {
    for number in 0..count {
        if !sender.ended() {
            let is_last = number + 1 == count;
            sender.put(rt, Message { number, is_last });
        }
    }
    sender
}

// Takes messages up to the last of each sender, and adds up their numbers.
fn take_all<R: Wait>(rt: &R, receiver: &mut IntakeReceiver<Message, Global>) -> u64 {
    let mut sum = 0u64;
    for _ in rt.forever() {
        if receiver.ends() == 3 {
            break;
        }
        let (_, message) = receiver.take(rt);
        sum = sum.wrapping_add(message.number);
    }
    sum
}

// Takes what three threads put, and joins them.
fn pass_through<R: Threads + Wait + Copy + Send + 'static>(
    rt: R,
    to_a: IntakeSender<Message, Global>,
    to_b: IntakeSender<Message, Global>,
    to_s: IntakeSender<Message, Global>,
    receiver: &mut IntakeReceiver<Message, Global>,
    count: u64,
) -> bool {
    let a = thread::spawn(&rt, move || put_all_and_end(&rt, to_a, count));
    let b = thread::spawn(&rt, move || put_all_and_end(&rt, to_b, count));
    let s = thread::spawn(&rt, move || put_all_and_end(&rt, to_s, count));
    match (a, b, s) {
        (Ok(a), Ok(b), Ok(s)) => {
            let _sum = take_all(&rt, receiver);
            let _ = a.join(&rt);
            let _ = b.join(&rt);
            let _ = s.join(&rt);
            true
        }
        _ => false,
    }
}

// Times so many messages of each of three senders through an intake.
fn through_intake<R: Threads + Wait + Clock + Copy + Send + 'static>(
    rt: R,
    alloc: Global,
    capacity: usize,
    count: u64,
) -> anyhow::Result<u128>
    requires least { 1 ≤ capacity }
    requires most { capacity ≤ 65536 }
{
    let (to_a, to_b, to_s, mut receiver) = Intake::new(alloc, capacity).map_err(|_| AllocError)?;
    let start = Instant::now(&rt)?;
    let _done = pass_through(rt, to_a, to_b, to_s, &mut receiver, count);
    Ok(start.elapsed(&rt)?.as_nanos())
}

/// Gives the least nanoseconds of all turns: of a message through a lane, and of one of three senders through an intake.
pub fn least<R: Threads + Wait + Clock + Copy + Send + 'static>(
    rt: R,
    alloc: Global,
    capacity: usize,
    count: u64,
) -> anyhow::Result<(u128, u128)>
    requires some { 1 ≤ count }
    requires least { 1 ≤ capacity }
    requires most { capacity ≤ 65536 }
{
    let mut lane = u128::MAX;
    let mut intake = u128::MAX;
    for _ in 0..TURNS {
        lane = lane.min(through_lane(rt, alloc, capacity, count)?);
        intake = intake.min(through_intake(rt, alloc, capacity, count)?);
    }
    Ok((lane / u128::from(count), intake / u128::from(count) / 3))
}
