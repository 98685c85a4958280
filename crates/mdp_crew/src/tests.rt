//! Crews in one thread and in threads: both print the worked text, whatever the number of workers; and each start, each write and each
//! allocation refused in turn. On a board each front of the worked steps can be seen.

mod channel;
mod in_threads;
mod in_turn;
mod moves;
mod on_board;
mod writer;

use crate::fault::RunFault;
use crate::gate::{Gate, Open};
use crate::starts::{Always, Starts};
use crate::tests::channel::{Came, NEXT, TEXT, listed};
use crate::tests::in_threads::run_in_threads;
use crate::tests::in_turn::run_in_turn;
use crate::tests::on_board::{STEPS, Shown, rows_after, run_on_board, text_length};
use mdp_arbiter::Standing;
use mdp_templates::{Instrument, Memory};
use refusing::Refusing;
use std::alloc::Global;
use std::process::Abort;
use std::sync::Wait;
use std::sync::atomic::{AtomicU64, Ordering};
use std::test::Fail;
use std::thread;
use std::thread::Threads;

/// What went out is the text, and all packets up to the next have passed.
fn printed_all<R: Abort>(rt: &R, bytes: &[u8], standing: Option<Standing>) {
    assert_eq!(rt; bytes, TEXT);
    match standing {
        Some(standing) => {
            assert_eq!(rt; standing.next, NEXT);
            assert!(rt; !standing.lost);
        }
        None => panic!(rt; "the crew ended early"),
    }
}

/// So many workers print the text in one thread.
fn in_turn_prints<R: Threads + Wait + Abort + Sync>(
    rt: &R,
    alloc: Global,
    listed: &[Instrument],
    workers: u16,
) -> Result<(), Fail> {
    let came = run_in_turn(rt, alloc, listed, workers)?;
    assert!(rt; came.collected.is_ok());
    printed_all(rt, &came.bytes, came.standing.ok());
    Ok(())
}

#[test]
fn any_number_of_workers_prints_the_text_one_after_another(rt: HostRuntime) -> Result<(), Fail> {
    let listed = listed()?;
    for workers in [1, 2, 3, 16] {
        in_turn_prints(&rt, rt.alloc(), &listed, workers)?;
    }
    Ok(())
}

/// So many workers print the text in threads.
fn threads_print<R: Threads + Wait + Abort + Sync>(
    rt: &R,
    alloc: Global,
    listed: &[Instrument],
    workers: u16,
) -> Result<(), Fail> {
    let came = run_in_threads(
        rt,
        &Always,
        alloc,
        alloc,
        &Open,
        listed,
        workers,
        Came::Channel,
        0,
    )?;
    assert_eq!(rt; came.go, Some(true));
    printed_all(rt, &came.bytes, came.standing.ok());
    Ok(())
}

#[test]
fn any_number_of_workers_prints_the_text_in_threads(rt: HostRuntime) -> Result<(), Fail> {
    let listed = listed()?;
    for workers in [1, 2, 3, 16] {
        threads_print(&rt, rt.alloc(), &listed, workers)?;
    }
    Ok(())
}

/// Holds each worker at its first step until both have come, counts those that waited for nothing, and adds up the steps that it is told.
#[derive(Drop)]
struct BothAtOnce {
    here: AtomicU64,
    late: AtomicU64,
    steps: AtomicU64,
}

impl Gate for BothAtOnce {
    fn arrive(&self, _worker: usize, step: u64) {
        self.steps.fetch_add(step, Ordering::SeqCst);
        if step != 1 {
            return;
        }
        self.here.fetch_add(1, Ordering::SeqCst);
        for _ in 0..1_000_000_000u64 {
            if self.here.load(Ordering::SeqCst) >= 2 {
                return;
            }
            thread::yield_now();
        }
        self.late.fetch_add(1, Ordering::SeqCst);
    }

    fn reads(&self, _feed: usize, _place: u64) {}
}

#[test]
fn workers_work_at_once(rt: HostRuntime) -> Result<(), Fail> {
    let gate = BothAtOnce {
        here: AtomicU64::new(0),
        late: AtomicU64::new(0),
        steps: AtomicU64::new(0),
    };
    let listed = listed()?;
    let came = run_in_threads(
        &rt,
        &Always,
        rt.alloc(),
        rt.alloc(),
        &gate,
        &listed,
        2,
        Came::Channel,
        0,
    )?;
    assert!(rt; came.standing.is_ok());
    assert_eq!(rt; gate.late.load(Ordering::SeqCst), 0);
    assert_eq!(rt; gate.steps.load(Ordering::SeqCst), 2 * (1 + 2 + 3 + 4 + 5));
    assert_eq!(rt; came.bytes.as_slice(), TEXT);
    Ok(())
}

/// Starts each thread but one.
#[derive(Clone, Copy)]
struct Except(usize);

impl Starts for Except {
    fn may_start(&self, thread: usize) -> bool {
        thread != self.0
    }
}

/// Without its thread the arbiter works on the caller's, and what the readers have put before is printed.
#[test]
fn each_start_refused(rt: HostRuntime) -> Result<(), Fail> {
    let listed = listed()?;
    for thread in 3..6usize {
        let came = run_in_threads(
            &rt,
            &Except(thread),
            rt.alloc(),
            rt.alloc(),
            &Open,
            &listed,
            2,
            Came::Channel,
            0,
        )?;
        assert_eq!(rt; came.go, Some(false));
        assert_eq!(rt; came.standing.is_ok(), thread == 3);
        assert!(rt; TEXT.starts_with(&came.bytes));
    }
    Ok(())
}

#[test]
fn each_write_fails(rt: HostRuntime) -> Result<(), Fail> {
    let listed = listed()?;
    let mut failed = 0u64;
    for fail_at in 1..1000u64 {
        let came = run_in_threads(
            &rt,
            &Always,
            rt.alloc(),
            rt.alloc(),
            &Open,
            &listed,
            2,
            Came::Channel,
            fail_at,
        )?;
        let written = came.bytes.len() as u64;
        assert!(rt; TEXT.starts_with(&came.bytes));
        match came.standing {
            Ok(_) => break,
            Err(fault) => assert_eq!(rt; fault, RunFault::Output { written }),
        }
        failed = fail_at;
    }
    assert!(rt; failed > 10);
    Ok(())
}

#[test]
fn a_failed_write_holds_nobody_back(rt: HostRuntime) -> Result<(), Fail> {
    let listed = listed()?;
    let came = run_in_threads(
        &rt,
        &Always,
        rt.alloc(),
        rt.alloc(),
        &Open,
        &listed,
        2,
        Came::Many,
        1,
    )?;
    match came.standing {
        Ok(_) => panic!(rt; "no write failed"),
        Err(fault) => assert_eq!(rt; fault, RunFault::Output { written: 0 }),
    }
    assert_eq!(rt; came.bytes.len(), 0);
    Ok(())
}

/// Whether two workers print the text, by memory from this heap.
fn two_print<R: Threads + Wait + Abort + Sync>(
    rt: &R,
    plain: Global,
    heap: &Refusing<Global>,
    listed: &[Instrument],
) -> Result<bool, Memory> {
    let came = run_in_threads(rt, &Always, heap, plain, &Open, listed, 2, Came::Channel, 0)?;
    assert!(rt; TEXT.starts_with(&came.bytes));
    Ok(came.standing.is_ok())
}

#[test]
fn each_allocation_refused(rt: HostRuntime) -> Result<(), Fail> {
    let listed = listed()?;
    let mut refused = 0u64;
    for number in 1..10000u64 {
        let heap = Refusing::new(rt.alloc(), number);
        let printed = two_print(&rt, rt.alloc(), &heap, &listed).unwrap_or(false);
        assert_eq!(rt; printed, !heap.has_refused());
        if printed {
            break;
        }
        refused = number;
    }
    assert!(rt; refused > 30);
    Ok(())
}

/// So many workers print the text, and publish all its steps.
fn board_shows<R: Threads + Wait + Abort + Sync>(
    rt: &R,
    alloc: Global,
    listed: &[Instrument],
    workers: u16,
) -> Result<(), Fail> {
    let shown = run_on_board(rt, alloc, alloc, listed, workers, 0)?;
    assert!(rt; shown.is_ok);
    assert_eq!(rt; shown.bytes.as_slice(), TEXT);
    assert_eq!(rt; shown.length, Some(STEPS));
    assert_eq!(rt; shown.rows, rows_after(STEPS));
    Ok(())
}

#[test]
fn any_number_of_workers_publishes_the_steps(rt: HostRuntime) -> Result<(), Fail> {
    let listed = listed()?;
    for workers in [1, 2, 3, 16] {
        board_shows(&rt, rt.alloc(), &listed, workers)?;
    }
    Ok(())
}

/// Sees that a run which ended early has published a front of the steps, and nothing whose text did not go out.
fn shows_a_front<R: Abort>(rt: &R, shown: &Shown) {
    let Some(length) = shown.length else {
        panic!(rt; "nothing was read");
    };
    assert!(rt; length <= STEPS);
    assert_eq!(rt; shown.rows, rows_after(length));
    assert!(rt; TEXT.starts_with(&shown.bytes));
    assert!(rt; shown.bytes.len() >= text_length(length));
}

#[test]
fn each_write_fails_beside_a_board(rt: HostRuntime) -> Result<(), Fail> {
    let listed = listed()?;
    let mut failed = 0u64;
    for fail_at in 1..1000u64 {
        let shown = run_on_board(&rt, rt.alloc(), rt.alloc(), &listed, 2, fail_at)?;
        shows_a_front(&rt, &shown);
        if shown.is_ok {
            break;
        }
        failed = fail_at;
    }
    assert!(rt; failed > 10);
    Ok(())
}

/// Whether two workers publish all steps, by memory from this heap.
fn two_publish<R: Threads + Wait + Abort + Sync>(
    rt: &R,
    plain: Global,
    heap: &Refusing<Global>,
    listed: &[Instrument],
) -> Result<bool, Memory> {
    let shown = run_on_board(rt, heap, plain, listed, 2, 0)?;
    shows_a_front(rt, &shown);
    Ok(shown.is_ok)
}

#[test]
fn each_allocation_refused_beside_a_board(rt: HostRuntime) -> Result<(), Fail> {
    let listed = listed()?;
    let mut refused = 0u64;
    for number in 1..10000u64 {
        let heap = Refusing::new(rt.alloc(), number);
        let published = two_publish(&rt, rt.alloc(), &heap, &listed).unwrap_or(false);
        assert_eq!(rt; published, !heap.has_refused());
        if published {
            break;
        }
        refused = number;
    }
    assert!(rt; refused > 40);
    Ok(())
}
