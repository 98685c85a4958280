//! Runs from code of one's own: over a capture in memory, to a writer of one's own, and with a board that is read when the run is over.
//! The manual shows this code.

ghost use Rattle.std.specs.Prelude.{◌≡◌, ◌≤◌, IfSome};
ghost use Rattle.mdp_lanes.specs.Boards.{IsFreshReader};

use crate::feeds::Feeds;
use crate::summary::Summary;
use crate::threads::{run, run_published};
use mdp_arbiter::Start;
use mdp_capture::{CountingReader, read_capture};
use mdp_crew::{Open, RunFault, RunPlan};
use mdp_lanes::{Board, Publisher, Reader, Row};
use mdp_print::CountedWrite;
use mdp_quotes::Total;
use std::alloc::{Allocator, Global};
use std::io;
use std::io::ErrorKind;
use std::process::Abort;
use std::sync::Wait;
use std::test::Fail;
use std::thread::Threads;
use worked_runs::{PLAIN, PLAIN_TEXT};

/// Keeps what it takes.
#[derive(Drop)]
struct Kept {
    bytes: Vec<u8>,
    failures: u64,
    error: Option<ErrorKind>,
}

impl Kept {
    fn new(alloc: Global) -> Kept
        ensures { result.failures ≡ 0 }
    {
        Kept {
            bytes: Vec::new(alloc),
            failures: 0,
            error: None,
        }
    }
}

impl CountedWrite for Kept {
    ghost taken = { λ w. w.bytes.items };

    ghost failed = { λ w. w.failures };

    ghost error = { λ w. w.error };

    fn write(&mut self, bytes: &[u8]) -> io::Result<usize> {
        if self.bytes.extend_from_slice(bytes).is_err() {
            self.failures += 1;
            self.error = Some(ErrorKind::Other);
            return Err(io::Error::from(ErrorKind::Other));
        }
        if bytes.is_empty() {
            self.failures += 1;
            self.error = None;
        }
        Ok(bytes.len())
    }

    fn failures(&self) -> u64 {
        self.failures
    }

    fn written(&self) -> u64 {
        self.bytes.len() as u64
    }
}

/// What a run over the capture comes to, and the bytes that were written; nothing where the capture can't be read.
fn run_over<R, A>(
    rt: &R,
    alloc: Global,
    heap: A,
    capture: &[u8],
) -> Option<(Result<Summary, RunFault>, Vec<u8>)>
where
    R: Threads + Wait + Sync,
    A: Allocator + Copy + Send + Sync,
{
    let mut input = CountingReader::new(capture);
    let Ok(capture) = read_capture(heap, &mut input) else {
        return None;
    };
    let mut kept = Kept::new(alloc);
    let outcome = run(
        rt,
        heap,
        RunPlan {
            instruments: capture.instruments(),
            window: 1024,
            start: Start::FromOne,
            workers: 2,
        },
        Feeds::of(&capture),
        &Open,
        &mut kept,
    );
    Some((outcome, kept.bytes))
}

#[test]
fn a_run_over_a_capture_in_memory(rt: HostRuntime) -> Result<(), Fail> {
    let Some((outcome, bytes)) = run_over(&rt, rt.alloc(), rt.alloc(), PLAIN) else {
        return Err("no memory for the capture".into());
    };
    let summary = Summary {
        next: 2,
        lost: false,
        written: 66,
    };
    assert_eq!(rt; outcome, Ok(summary));
    assert_eq!(rt; bytes.as_slice(), PLAIN_TEXT);
    Ok(())
}

/// The ends of a board with one slot and one reader.
fn board<R: Wait, A: Allocator + Copy>(rt: &R, heap: A) -> Option<(Publisher<A>, Reader<A>)>
    ensures { IfSome result (λ ends. IsFreshReader ends.0.board 1 ends.1) }
{
    let Ok((publisher, mut readers)) = Board::new(heap, rt, 1, 1) else {
        return None;
    };
    let Some(reader) = readers.pop() else {
        publisher.end(rt);
        return None;
    };
    Some((publisher, reader))
}

/// The step and the row that a reader of the one slot shows that is told of all that was published.
fn look<A: Allocator + Copy>(
    publisher: &mut Publisher<A>,
    reader: &mut Reader<A>,
) -> Option<(u64, Row)>
    requires board { reader.old.board ≡ publisher.old.board }
    requires slots { reader.old.slots ≡ 1 }
{
    reader.learn(publisher.tell());
    let mut rows = [Row::Never];
    let step = reader.read(&[0], &mut rows)?;
    Some((step, rows[0]))
}

/// What a reader shows of the one security when the run over the capture is over.
fn last_row<R, A>(rt: &R, alloc: Global, heap: A, capture: &[u8]) -> Option<(u64, Row)>
where
    R: Threads + Wait + Sync,
    A: Allocator + Copy + Send + Sync,
{
    let mut input = CountingReader::new(capture);
    let Ok(capture) = read_capture(heap, &mut input) else {
        return None;
    };
    let (publisher, mut reader) = board(rt, heap)?;
    let mut kept = Kept::new(alloc);
    let (mut publisher, outcome) = run_published(
        rt,
        heap,
        RunPlan {
            instruments: capture.instruments(),
            window: 1024,
            start: Start::FromOne,
            workers: 2,
        },
        Feeds::of(&capture),
        &Open,
        publisher,
        &mut kept,
    );
    let shown = look(&mut publisher, &mut reader);
    publisher.end(rt);
    if outcome.is_err() {
        return None;
    }
    shown
}

#[test]
fn a_board_shows_the_last_row(rt: HostRuntime) -> Result<(), Fail> {
    let Some((step, row)) = last_row(&rt, rt.alloc(), rt.alloc(), PLAIN) else {
        return Err("no memory for the run".into());
    };
    let last = Row::Top {
        packet: 1,
        message: 1,
        bid: Some(Total {
            price: 100,
            size: 5,
        }),
        offer: None,
    };
    assert_eq!(rt; step, 1);
    assert_eq!(rt; row, last);
    Ok(())
}
