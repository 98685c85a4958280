//! A crew in threads that publishes on a board, and what a reader sees once it has ended.

use crate::gate::Open;
use crate::running::run_crew;
use crate::starts::Always;
use crate::tests::channel::{Came, handed_over};
use crate::tests::writer::slow_writer;
use crate::{CrewOutcome, Means, RunPlan, Site};
use mdp_arbiter::Start;
use mdp_lanes::{Board, Row};
use mdp_quotes::Total;
use mdp_templates::{Instrument, Memory, are_fit};
use std::alloc::{Allocator, Global};
use std::sync::{OnceLock, Wait};
use std::thread;
use std::thread::{Scope, Threads};

/// How many steps the worked text is of: four event ends, and a jump.
pub const STEPS: u64 = 5;

/// The rows of all three securities.
pub type Rows = [Row; 3];

const BID_1: Total = Total {
    price: 100,
    size: 5,
};

const OFFER_2: Total = Total { price: 90, size: 3 };

const BID_4: Total = Total {
    price: 101,
    size: 2,
};

const OFFER_5: Total = Total {
    price: 103,
    size: 4,
};

fn top(packet: u32, bid: Option<Total>, offer: Option<Total>) -> Row {
    Row::Top {
        packet,
        message: 1,
        bid,
        offer,
    }
}

/// The rows after so many of the worked text's steps.
pub fn rows_after(length: u64) -> Rows {
    let near = top(1, Some(BID_1), None);
    let far = top(4, None, Some(OFFER_2));
    let spread = top(4, None, None);
    match length {
        0 => [Row::Never; 3],
        1 => [near, Row::Never, Row::Never],
        2 => [near, top(2, None, Some(OFFER_2)), Row::Never],
        3 => [Row::Stale; 3],
        4 => [top(4, Some(BID_4), None), far, spread],
        _ => [top(5, Some(BID_4), Some(OFFER_5)), far, spread],
    }
}

/// How many bytes of the worked text its first steps have.
pub fn text_length(length: u64) -> usize {
    match length {
        0 => 0,
        1 => 87,
        2 => 172,
        3 => 178,
        4 => 374,
        _ => 488,
    }
}

/// What a crew came to: whether it ended well, the bytes that it wrote, and what a reader sees then, the length of the front and its rows.
#[derive(Drop)]
pub struct Shown {
    pub is_ok: bool,
    pub bytes: Vec<u8>,
    pub length: Option<u64>,
    pub rows: Rows,
}

// All that happens inside the scope.
fn run_in<'s, E, R, A>(
    means: &'s Means<'s, R, Always, Open, A>,
    scope: &'s Scope<'s, E>,
    go: &'s OnceLock<bool>,
    plain: Global,
    listed: &'s [Instrument],
    workers: u16,
    fail_at: u64,
) -> Result<Shown, Memory>
where
    R: Threads + Wait + Sync,
    A: Allocator + Copy + Send + Sync,
    A: 's,
{
    if workers == 0 || !are_fit(listed) {
        return Err(Memory);
    }
    let (_a, _b, _s, receiver) = handed_over(means.rt, means.alloc, Came::Channel)?;
    let Ok((publisher, mut readers)) = Board::new(means.alloc, means.rt, 3, 1) else {
        return Err(Memory);
    };
    let reader = readers.pop();
    let mut board = Some(publisher);
    let mut kept = slow_writer(plain, fail_at);
    let site = Site { means, scope, go };
    let CrewOutcome {
        receiver: _receiver,
        standing,
    } = run_crew(
        &site,
        RunPlan {
            instruments: listed,
            window: 4,
            start: Start::FromOne,
            workers,
        },
        receiver,
        &mut board,
        &mut kept,
    );
    let mut rows = [Row::Never; 3];
    let length = match reader {
        Some(mut reader) => reader.read(&[0, 1, 2], &mut rows),
        None => None,
    };
    if let Some(publisher) = board {
        publisher.end(means.rt);
    }
    Ok(Shown {
        is_ok: standing.is_ok(),
        bytes: kept.bytes,
        length,
        rows,
    })
}

// The scope of such a run.
fn run_by<R, A>(
    means: &Means<'_, R, Always, Open, A>,
    plain: Global,
    listed: &[Instrument],
    workers: u16,
    fail_at: u64,
) -> Result<Shown, Memory>
where
    R: Threads + Wait + Sync,
    A: Allocator + Copy + Send + Sync,
{
    let told = OnceLock::new();
    let go = &told;
    thread::scope(
        thread::scope_env(),
        means.rt,
        move |scope| run_in(means, scope, go, plain, listed, workers, fail_at),
    )
}

/// Runs a crew of so many workers in threads over the events of the worked text, with this allocator and a board of its own; the write of
/// this number fails, or none with 0.
pub fn run_on_board<R, A>(
    rt: &R,
    alloc: A,
    plain: Global,
    listed: &[Instrument],
    workers: u16,
    fail_at: u64,
) -> Result<Shown, Memory>
where
    R: Threads + Wait + Sync,
    A: Allocator + Copy + Send + Sync,
{
    let means = Means {
        rt,
        starts: &Always,
        gate: &Open,
        alloc,
    };
    run_by(&means, plain, listed, workers, fail_at)
}
