//! Runs over threads: the text of a capture that any merge gives, readers and workers that run at once, and each start refused; what is
//! published on a board; runs as the manual shows them; each allocation and each write refused, also on one thread; how many requests
//! for memory one thread makes; and in how many writes the lines of many refused datagrams go out.

mod embedding;
mod failed_writes;
mod many_refusals;
mod on_board;
mod pace;
mod refused_allocations;
mod requests;
mod ways;

ghost use Rattle.std.specs.Prelude.{◌≤◌};

use crate::feeds::Feeds;
use crate::summary::Summary;
use crate::threads::run_where;
use mdp_arbiter::Start;
use mdp_capture::{CountingReader, read_capture};
use mdp_crew::{Always, Gate, Means, Open, RunFault, RunPlan, Starts};
use refusing::Refusing;
use std::alloc::{Allocator, Global};
use std::process::Abort;
use std::sync::Wait;
use std::sync::atomic::{AtomicU64, Ordering};
use std::test::Fail;
use std::thread;
use std::thread::Threads;
use worked_runs::Kept;

/// Packets 1 and 3 on feed A and packet 2 on feed B: whatever comes first, they pass in number order.
const CAPTURE: &[u8] = b"I 1 NEAR O
A 01000000000000000000000038000b002e000100090000000000000000008000002000016400000000000000050000000100000000000000010000000100300000000000
A 03000000000000000000000038000b002e000100090000000000000000008000002000016700000000000000040000000100000000000000010000000100310000000000
B 02000000000000000000000038000b002e000100090000000000000000008000002000016500000000000000020000000100000000000000010000000100300000000000
";

const TEXT: &[u8] = b"D 1.1 NEAR B 100x5 O
I 1.1 NEAR B O
C 1.1 NEAR B 100x5 O
D 2.1 NEAR B 101x2 100x5 O
I 2.1 NEAR B O
C 2.1 NEAR B 101x2 100x5 O
D 3.1 NEAR B 101x2 100x5 O 103x4
I 3.1 NEAR B O
C 3.1 NEAR B 101x2 100x5 O 103x4
Z 4 live
";

// Keeps a reader or a worker waiting until so many have come, and counts those that waited in vain.
#[derive(Drop)]
struct Meeting {
    here: AtomicU64,
    late: AtomicU64,
}

impl Meeting {
    fn new() -> Meeting {
        Meeting {
            here: AtomicU64::new(0),
            late: AtomicU64::new(0),
        }
    }

    fn come(&self) {
        self.here.fetch_add(1, Ordering::SeqCst);
    }

    fn await_all(&self, count: u64) {
        for _ in 0..20_000_000u64 {
            if self.here.load(Ordering::SeqCst) >= count {
                return;
            }
            thread::yield_now();
        }
        self.late.fetch_add(1, Ordering::SeqCst);
    }

    fn has_late(&self) -> bool {
        self.late.load(Ordering::SeqCst) != 0
    }
}

// Holds each reader at its first place until all three have come, and each of two workers at its first step until both have.
#[derive(Drop)]
struct AllAtOnce {
    readers: Meeting,
    workers: Meeting,
}

impl Gate for AllAtOnce {
    fn arrive(&self, _worker: usize, step: u64) {
        if step == 1 {
            self.workers.come();
            self.workers.await_all(2);
        }
    }

    fn reads(&self, _feed: usize, place: u64) {
        if place == 1 {
            self.readers.come();
            self.readers.await_all(3);
        }
    }
}

// Holds the reader of feed A at its second place until a worker works on its first step.
#[derive(Drop)]
struct WorkBesideReading {
    workers: Meeting,
}

impl Gate for WorkBesideReading {
    fn arrive(&self, _worker: usize, step: u64) {
        if step == 1 {
            self.workers.come();
        }
    }

    fn reads(&self, feed: usize, place: u64) {
        if feed == 0 && place == 2 {
            self.workers.await_all(1);
        }
    }
}

// Starts each thread but one.
#[derive(Clone, Copy)]
struct Except(usize);

impl Starts for Except {
    fn may_start(&self, thread: usize) -> bool {
        thread != self.0
    }
}

// What a run over the capture comes to, and the bytes that were written; nothing where there was no memory for the capture.
fn run_over<R, S, G, A>(
    rt: &R,
    alloc: Global,
    heap: A,
    starts: &S,
    workers: u16,
    gate: &G,
) -> Option<(Result<Summary, RunFault>, Vec<u8>)>
where
    R: Threads + Wait + Sync,
    S: Starts + Sync,
    G: Gate + Sync,
    A: Allocator + Copy + Send + Sync,
    requires { 1 ≤ workers }
{
    let mut text = CountingReader::new(CAPTURE);
    let Ok(capture) = read_capture(heap, &mut text) else {
        return None;
    };
    let mut kept = Kept::new(alloc);
    let mut board = None;
    let means = Means {
        rt,
        starts,
        gate,
        alloc: heap,
    };
    let outcome = run_where(
        &means,
        RunPlan {
            instruments: capture.instruments(),
            window: 4,
            start: Start::FromOne,
            workers,
        },
        Feeds::of(&capture),
        &mut board,
        &mut kept,
    );
    if let Some(publisher) = board {
        publisher.end(rt);
    }
    Some((outcome, kept.bytes))
}

#[test]
fn prints_what_any_merge_gives(rt: HostRuntime) -> Result<(), Fail> {
    let summary = Summary {
        next: 4,
        lost: false,
        written: TEXT.len() as u64,
    };
    for workers in [1, 2, 3, 16] {
        let Some((outcome, bytes)) = run_over(&rt, rt.alloc(), rt.alloc(), &Always, workers, &Open)
        else {
            return Err("no memory for the capture".into());
        };
        assert_eq!(rt; outcome, Ok(summary));
        assert_eq!(rt; bytes.as_slice(), TEXT);
    }
    Ok(())
}

#[test]
fn readers_run_at_once_and_so_do_workers(rt: HostRuntime) -> Result<(), Fail> {
    let gate = AllAtOnce {
        readers: Meeting::new(),
        workers: Meeting::new(),
    };
    let Some((outcome, bytes)) = run_over(&rt, rt.alloc(), rt.alloc(), &Always, 2, &gate) else {
        return Err("no memory for the capture".into());
    };
    assert!(rt; outcome.is_ok());
    assert!(rt; !gate.readers.has_late());
    assert!(rt; !gate.workers.has_late());
    assert_eq!(rt; bytes.as_slice(), TEXT);
    Ok(())
}

#[test]
fn workers_work_beside_readers(rt: HostRuntime) -> Result<(), Fail> {
    let gate = WorkBesideReading {
        workers: Meeting::new(),
    };
    let Some((outcome, bytes)) = run_over(&rt, rt.alloc(), rt.alloc(), &Always, 2, &gate) else {
        return Err("no memory for the capture".into());
    };
    assert!(rt; outcome.is_ok());
    assert!(rt; !gate.workers.has_late());
    assert_eq!(rt; bytes.as_slice(), TEXT);
    Ok(())
}

// The readers, the arbiter and two workers are threads 0 to 5.
#[test]
fn each_start_refused(rt: HostRuntime) -> Result<(), Fail> {
    for thread in 0..6usize {
        let Some((outcome, bytes)) = run_over(
            &rt,
            rt.alloc(),
            rt.alloc(),
            &Except(thread),
            2,
            &Open,
        ) else {
            return Err("no memory for the capture".into());
        };
        let written = bytes.len() as u64;
        assert_eq!(rt; outcome, Err(RunFault::Memory { written }));
        assert!(rt; TEXT.starts_with(&bytes));
    }
    Ok(())
}

// Each of these threads refused, and each allocation besides.
#[test]
fn each_start_refused_with_each_allocation(rt: HostRuntime) -> Result<(), Fail> {
    for thread in 0..6usize {
        let starts = Except(thread);
        let mut refused = 0u64;
        for number in 1..10_000u64 {
            let heap = Refusing::new(rt.alloc(), number);
            let Some((outcome, bytes)) = run_over(&rt, rt.alloc(), &heap, &starts, 2, &Open) else {
                continue;
            };
            let written = bytes.len() as u64;
            assert_eq!(rt; outcome, Err(RunFault::Memory { written }));
            assert!(rt; TEXT.starts_with(&bytes));
            if !heap.has_refused() {
                break;
            }
            refused = number;
        }
        assert!(rt; refused > 5);
    }
    Ok(())
}
