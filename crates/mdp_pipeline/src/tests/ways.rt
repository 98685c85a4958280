//! A run on one thread, a run over threads, and one that publishes on a board.

ghost use Rattle.std.specs.Prelude.{◌<◌, ◌≤◌, ◌-◌, ◌^◌};
ghost use Rattle.mdp_templates.specs.Instrument.{AreFit};

use crate::feeds::Feeds;
use crate::in_order::run_in_order;
use crate::summary::Summary;
use crate::threads::{run, run_published};
use mdp_arbiter::Start;
use mdp_capture::{Capture, CountingReader, read_capture};
use mdp_crew::{Open, RunFault, RunPlan};
use mdp_lanes::Board;
use std::alloc::Allocator;
use std::sync::Wait;
use std::thread::Threads;
use worked_runs::{
    Kept, PLAIN, PLAIN_TEXT, RECOVERY, RECOVERY_TEXT, REFUSED, REFUSED_TEXT, SPREAD, SPREAD_TEXT,
};

/// A capture, the window of its run, whether it joins a running channel, and the text, which is the same for every merge of the feeds.
#[derive(Clone, Copy)]
pub struct Row {
    capture: &'static [u8],
    window: u32,
    start: Start,
    pub text: &'static [u8],
}

/// The shortest of them, one packet.
pub const ONE_PACKET: Row = Row {
    capture: PLAIN,
    window: 4,
    start: Start::FromOne,
    text: PLAIN_TEXT,
};

pub const ROWS: [Row; 4] = [
    Row {
        capture: RECOVERY,
        window: 4,
        start: Start::FromOne,
        text: RECOVERY_TEXT,
    },
    Row {
        capture: RECOVERY,
        window: 4,
        start: Start::Join,
        text: RECOVERY_TEXT,
    },
    Row {
        capture: REFUSED,
        window: 4,
        start: Start::FromOne,
        text: REFUSED_TEXT,
    },
    Row {
        capture: SPREAD,
        window: 1024,
        start: Start::FromOne,
        text: SPREAD_TEXT,
    },
];

/// How a run is made.
#[derive(Clone, Copy)]
pub enum Way {
    InOrder,
    /// With so many workers, 1 to 16.
    Threads(u16),
    /// With so many workers, 1 to 16, and a board.
    Published(u16),
}

pub const WAYS: [Way; 7] = [
    Way::InOrder,
    Way::Threads(1),
    Way::Threads(2),
    Way::Threads(3),
    Way::Published(1),
    Way::Published(2),
    Way::Published(3),
];

// Runs over a capture on a board of its own; nothing where there was no memory for the board.
fn run_on_board<R, A>(
    rt: &R,
    alloc: A,
    capture: &Capture<A>,
    workers: u16,
    window: u32,
    start: Start,
    kept: &mut Kept,
) -> Option<Result<Summary, RunFault>>
where
    R: Threads + Wait + Sync,
    A: Allocator + Copy + Send + Sync,
    requires sound { kept.old.failures < 2 ^ 64 - 1 }
    requires fit { AreFit capture.now.instruments }
    requires least { 1 ≤ window }
    requires most { window ≤ 65536 }
    requires some_workers { 1 ≤ workers }
{
    let instruments = capture.instruments();
    if instruments.is_empty() || instruments.len() > 512 {
        return None;
    }
    let Ok((publisher, _readers)) = Board::new(alloc, rt, instruments.len(), 1) else {
        return None;
    };
    let (publisher, outcome) = run_published(
        rt,
        alloc,
        RunPlan {
            instruments,
            window,
            start,
            workers,
        },
        Feeds::of(capture),
        &Open,
        publisher,
        kept,
    );
    publisher.end(rt);
    Some(outcome)
}

/// Runs over a row, and answers what came of it; nothing where there was no memory for the capture or the board.
pub fn run_by<R, A>(
    rt: &R,
    alloc: A,
    way: Way,
    row: Row,
    kept: &mut Kept,
) -> Option<Result<Summary, RunFault>>
where
    R: Threads + Wait + Sync,
    A: Allocator + Copy + Send + Sync,
    requires { kept.old.failures < 2 ^ 64 - 1 }
{
    if row.window == 0 || row.window > 65536 {
        return None;
    }
    let mut input = CountingReader::new(row.capture);
    let Ok(capture) = read_capture(alloc, &mut input) else {
        return None;
    };
    let plan = RunPlan {
        instruments: capture.instruments(),
        window: row.window,
        start: row.start,
        workers: 1,
    };
    match way {
        Way::InOrder => Some(run_in_order(alloc, plan, Feeds::of(&capture), kept)),
        Way::Threads(workers) if workers >= 1 && workers <= 16 => Some(run(
            rt,
            alloc,
            RunPlan { workers, ..plan },
            Feeds::of(&capture),
            &Open,
            kept,
        )),
        Way::Published(workers) if workers >= 1 && workers <= 16 => {
            run_on_board(rt, alloc, &capture, workers, row.window, row.start, kept)
        }
        Way::Threads(_) => None,
        Way::Published(_) => None,
    }
}
