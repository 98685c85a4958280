//! Each allocation of a run refused in turn: what went out is a beginning of the run's text.

use crate::doubles::{NoFiles, run_program};
use refusing::Refusing;
use std::alloc::Global;
use std::process::Abort;
use std::sync::Wait;
use std::test::Fail;
use std::thread::Threads;
use worked_runs::{Kept, RECOVERY, RECOVERY_TEXT, REFUSED, REFUSED_TEXT, SPREAD, SPREAD_TEXT};

// Runs with each allocation refused in turn, until none is, and answers how many were.
fn refuse_each<R: Threads + Wait + Sync + Abort>(
    rt: &R,
    alloc: Global,
    words: &[&str],
    capture: &[u8],
    wanted: &[u8],
) -> Result<u64, Fail> {
    for number in 1..10_000u64 {
        let heap = Refusing::new(alloc, number);
        let output = Kept::new(alloc);
        let ended = run_program(rt, &NoFiles, alloc, &heap, words, capture, output);
        if !heap.has_refused() {
            assert_eq!(rt; ended.status, 0);
            assert_eq!(rt; ended.output.bytes.as_slice(), wanted);
            return Ok(number - 1);
        }
        assert_eq!(rt; ended.status, 1);
        assert_eq!(rt; ended.faults.bytes.as_slice(), b"41 Memory\n".as_slice());
        assert!(rt; wanted.starts_with(&ended.output.bytes));
    }
    Err("no run without a refused allocation".into())
}

// Does the same on one thread, and with 1, 2 and 3 workers.
fn refuse_each_all_ways<R: Threads + Wait + Sync + Abort>(
    rt: &R,
    alloc: Global,
    window: &str,
    capture: &[u8],
    wanted: &[u8],
) -> Result<(), Fail> {
    let in_order = ["mdp_handler", "--in-order", "--window", window];
    assert!(rt; refuse_each(rt, alloc, &in_order, capture, wanted)? > 20);
    for workers in ["1", "2", "3"] {
        let words = ["mdp_handler", "--workers", workers, "--window", window];
        assert!(rt; refuse_each(rt, alloc, &words, capture, wanted)? > 20);
    }
    Ok(())
}

#[test]
fn recovery_with_each_allocation_refused(rt: HostRuntime) -> Result<(), Fail> {
    refuse_each_all_ways(&rt, rt.alloc(), "4", RECOVERY, RECOVERY_TEXT)
}

#[test]
fn refused_datagrams_with_each_allocation_refused(rt: HostRuntime) -> Result<(), Fail> {
    refuse_each_all_ways(&rt, rt.alloc(), "4", REFUSED, REFUSED_TEXT)
}

#[test]
fn two_feeds_and_a_spread_with_each_allocation_refused(rt: HostRuntime) -> Result<(), Fail> {
    refuse_each_all_ways(&rt, rt.alloc(), "1024", SPREAD, SPREAD_TEXT)
}
