//! Workers and a collector in one thread: the text and the board's steps of known captures, whatever the number of workers and wherever
//! the moves are cut into batches, and each allocation refused in turn.

mod channel;
mod expected;

ghost use Rattle.std.specs.Prelude.{◌<◌};
ghost use Rattle.mdp_templates.specs.Instrument.{AreFit};

use crate::reports::channel::{
    Came, FAULTY, FAULTY_TEXT, PLAIN, PLAIN_TEXT, RECOVERED, RECOVERED_TEXT, events_of, listed,
};
use crate::reports::expected::{FAULTY_STEPS, PLAIN_STEPS, RECOVERED_STEPS};
use mdp_arbiter::{Arbiter, OwnedMove, Start, Step};
use mdp_engine::{replay, take_in};
use mdp_reports::{Answer, BoardSteps, Collector, Posting, Reports, Room, Worker};
use mdp_templates::{Instrument, Memory, Snapshot};
use mdp_window::MapWindow;
use refusing::Refusing;
use std::alloc::{Allocator, Global};
use std::process::Abort;
use std::test::Fail;

/// So many workers, before any packet.
fn workers_of<A: Allocator + Copy>(
    alloc: A,
    listed: &[Instrument],
    count: u16,
) -> Result<Vec<Worker<A>, A>, Memory>
    requires fit { AreFit listed.now }
    requires some { 0 < count }
{
    let mut workers = Vec::new(alloc);
    for number in 0..count {
        workers.push(Worker::new(alloc, listed, count, number)?)?;
    }
    Ok(workers)
}

/// Appends a worker's reports of these moves.
fn report_all<A: Allocator + Copy>(
    alloc: A,
    worker: &mut Worker<A>,
    moves: &[OwnedMove<A>],
    out: &mut Reports<A>,
) -> Result<(), Memory> {
    for one in moves {
        worker.report_move(one, out)?;
    }
    Ok(())
}

/// The answers of the workers, one after another, to a batch of moves.
fn answers_of<A: Allocator + Copy>(
    alloc: A,
    workers: &mut [Worker<A>],
    moves: &[OwnedMove<A>],
) -> Result<Vec<Answer<A>, A>, Memory> {
    let mut answers = Vec::new(alloc);
    for n in 0..workers.len() {
        let mut reports = Reports::with_room(alloc, Room::none())?;
        report_all(alloc, &mut workers[n], moves, &mut reports)?;
        answers.push(Answer::Tells(reports))?;
    }
    Ok(answers)
}

/// The move of a step, where a jump took these snapshots.
fn move_of<A: Allocator + Copy>(
    alloc: A,
    step: Step<A>,
    newest: &[Option<Snapshot>],
) -> Result<OwnedMove<A>, Memory> {
    let (old, new) = match step {
        Step::Pass(packet) => return Ok(OwnedMove::Passed(packet)),
        Step::Jump { old, new } => (old, new),
    };
    let mut snapshots = Vec::new(alloc);
    for snapshot in newest {
        match snapshot {
            Some(snapshot) => snapshots.push(snapshot.copy())?,
            None => {}
        }
    }
    Ok(OwnedMove::Jumped {
        old,
        new,
        snapshots,
    })
}

/// The moves of what came. No event makes more than eight.
fn moves_of<A: Allocator + Copy>(
    alloc: A,
    listed: &[Instrument],
    came: &[Came],
) -> Result<Vec<OwnedMove<A>, A>, Memory>
    requires { AreFit listed.now }
{
    let mut arbiter = Arbiter::new(alloc, listed, MapWindow::new(alloc, 4), Start::FromOne)?;
    let mut moves = Vec::new(alloc);
    for event in events_of(alloc, came)? {
        take_in(&mut arbiter, event)?;
        for _ in 0..8u8 {
            let Some(step) = arbiter.step() else {
                break;
            };
            moves.push(move_of(alloc, step, arbiter.newest())?)?;
        }
    }
    Ok(moves)
}

/// Appends the text and the steps that the collector makes of the workers' answers to a batch of moves.
fn collect<A: Allocator + Copy>(
    alloc: A,
    workers: &mut [Worker<A>],
    moves: &[OwnedMove<A>],
    collector: &mut Collector<A>,
    text: &mut Vec<u8, A>,
    steps: &mut BoardSteps<A>,
) -> Result<(), Memory> {
    let answers = answers_of(alloc, workers, moves)?;
    collector.take(alloc, &answers, text, steps)?;
    Ok(())
}

/// The text and the steps that so many workers and a collector make of moves, which are cut into two batches.
fn run_of<A: Allocator + Copy>(
    alloc: A,
    listed: &[Instrument],
    moves: &[OwnedMove<A>],
    count: u16,
    cut: usize,
) -> Result<(Vec<u8, A>, BoardSteps<A>), Memory>
    requires fit { AreFit listed.now }
    requires some { 0 < count }
{
    let mut workers = workers_of(alloc, listed, count)?;
    let mut collector = Collector::new(alloc, listed)?;
    let mut text = Vec::new(alloc);
    let mut steps = BoardSteps::new(alloc);
    let (first, second) = moves.split_at(moves.len().min(cut));
    collect(
        alloc,
        &mut workers,
        first,
        &mut collector,
        &mut text,
        &mut steps,
    )?;
    collect(
        alloc,
        &mut workers,
        second,
        &mut collector,
        &mut text,
        &mut steps,
    )?;
    Ok((text, steps))
}

/// These are the steps.
fn are_steps<A: Allocator + Copy>(
    rt: &impl Abort,
    steps: &BoardSteps<A>,
    expected: &[Posting<'static>],
) {
    assert_eq!(rt; steps.len(), expected.len());
    for n in 0..expected.len() {
        assert_eq!(rt; steps.at(n), Some(expected[n]));
    }
    assert!(rt; steps.at(expected.len()).is_none());
}

/// So many workers give the text and the steps, wherever the moves are cut.
fn workers_print(
    rt: &impl Abort,
    alloc: Global,
    listed: &[Instrument],
    count: u16,
    came: &[Came],
    text: &[u8],
    steps: &[Posting<'static>],
) -> Result<(), Fail>
    requires fit { AreFit listed.now }
    requires some { 0 < count }
{
    let moves = moves_of(alloc, listed, came)?;
    for cut in 0..6usize {
        let (made, made_steps) = run_of(alloc, listed, &moves, count, cut)?;
        assert_eq!(rt; made.as_slice(), text);
        are_steps(rt, &made_steps, steps);
    }
    Ok(())
}

/// The engine prints the text, and 1, 2, 3 and 16 workers give the text and the steps.
fn all_print(
    rt: &impl Abort,
    alloc: Global,
    came: &[Came],
    text: &[u8],
    steps: &[Posting<'static>],
) -> Result<(), Fail> {
    let listed = listed()?;
    let replayed = replay(
        alloc,
        &events_of(alloc, came)?,
        &listed,
        MapWindow::new(alloc, 4),
        Start::FromOne,
    )?;
    assert_eq!(rt; replayed.as_slice(), text);
    workers_print(rt, alloc, &listed, 1, came, text, steps)?;
    workers_print(rt, alloc, &listed, 2, came, text, steps)?;
    workers_print(rt, alloc, &listed, 3, came, text, steps)?;
    workers_print(rt, alloc, &listed, 16, came, text, steps)
}

#[test]
fn any_number_of_workers_prints_what_the_engine_prints(rt: HostRuntime) -> Result<(), Fail> {
    all_print(&rt, rt.alloc(), &PLAIN, PLAIN_TEXT, &PLAIN_STEPS)?;
    all_print(
        &rt,
        rt.alloc(),
        &RECOVERED,
        RECOVERED_TEXT,
        &RECOVERED_STEPS,
    )?;
    all_print(&rt, rt.alloc(), &FAULTY, FAULTY_TEXT, &FAULTY_STEPS)?;
    all_print(&rt, rt.alloc(), &[], b"", &[])
}

/// Two workers give the text and the steps behind a jump, by memory from this heap.
fn two_print(rt: &impl Abort, heap: &Refusing<Global>, listed: &[Instrument]) -> Result<(), Memory>
    requires { AreFit listed.now }
{
    let moves = moves_of(heap, listed, &RECOVERED)?;
    let (text, steps) = run_of(heap, listed, &moves, 2, 2)?;
    assert_eq!(rt; text.as_slice(), RECOVERED_TEXT);
    are_steps(rt, &steps, &RECOVERED_STEPS);
    Ok(())
}

#[test]
fn each_want_of_memory_is_answered(rt: HostRuntime) -> Result<(), Fail> {
    let listed = listed()?;
    let mut refused = 0u64;
    for number in 1..10000u64 {
        let heap = Refusing::new(rt.alloc(), number);
        let printed = two_print(&rt, &heap, &listed).is_ok();
        assert_eq!(rt; printed, !heap.has_refused());
        if printed {
            break;
        }
        refused = number;
    }
    assert!(rt; refused > 30);
    Ok(())
}
