//! Each write of a run failing in turn, in each way, alone and where memory runs out too.

use crate::doubles::{Ended, NoFiles, run_program};
use refusing::Refusing;
use std::alloc::Global;
use std::io::ErrorKind;
use std::process::Abort;
use std::sync::Wait;
use std::test::Fail;
use std::thread::Threads;
use worked_runs::{Failure, Kept, RECOVERY, RECOVERY_TEXT, SPREAD, SPREAD_TEXT};

/// How many bytes the writer takes a call.
const PIECE: usize = 64;

/// A write is refused, it is interrupted, it takes nothing.
const FAILURES: [Failure; 3] = [
    Failure::Error(ErrorKind::Other),
    Failure::Error(ErrorKind::Interrupted),
    Failure::NoByte,
];

// Returns whether a run tells that a write failed, and how many bytes went out.
fn tells_what_went_out(alloc: Global, ended: &Ended) -> Result<bool, Fail> {
    let written = ended.output.bytes.len();
    let text = format!(in alloc; "42 Output after {written} bytes\n")?;
    Ok(ended.faults.bytes.as_slice() == text.as_bytes())
}

// Runs with each call of the writer failing in turn, until none does.
fn fail_each<R: Threads + Wait + Sync + Abort>(
    rt: &R,
    alloc: Global,
    words: &[&str],
    failure: Failure,
    capture: &[u8],
    wanted: &[u8],
) -> Result<(), Fail> {
    for call in 1..1000u64 {
        let output = Kept::slow(alloc, PIECE, call, failure);
        let ended = run_program(rt, &NoFiles, alloc, alloc, words, capture, output);
        if ended.output.failures == 0 {
            assert_eq!(rt; ended.status, 0);
            assert_eq!(rt; ended.output.bytes.as_slice(), wanted);
            assert!(rt; call > 5);
            return Ok(());
        }
        assert_eq!(rt; ended.status, 1);
        assert_eq!(rt; ended.output.calls, call);
        assert!(rt; wanted.starts_with(&ended.output.bytes));
        assert!(rt; tells_what_went_out(alloc, &ended)?);
    }
    Err("no run without a failed write".into())
}

#[test]
fn each_write_fails_in_turn(rt: HostRuntime) -> Result<(), Fail> {
    let alloc = rt.alloc();
    for failure in FAILURES {
        for words in [
            ["--in-order", "--workers=1"],
            ["--window=1024", "--workers=2"],
        ] {
            let words = ["mdp_handler", words[0], words[1]];
            fail_each(&rt, alloc, &words, failure, SPREAD, SPREAD_TEXT)?;
        }
        let words = ["mdp_handler", "--live"];
        fail_each(&rt, alloc, &words, failure, SPREAD, SPREAD_TEXT)?;
        for words in [["--in-order", "--window=4"], ["--workers=3", "--window=4"]] {
            let words = ["mdp_handler", words[0], words[1]];
            fail_each(&rt, alloc, &words, failure, RECOVERY, RECOVERY_TEXT)?;
        }
    }
    Ok(())
}

// Where a write fails it is told, and not that memory ran out too.
#[test]
fn a_failed_write_goes_before_want_of_memory(rt: HostRuntime) -> Result<(), Fail> {
    let alloc = rt.alloc();
    let mut met_both = false;
    for number in 1..10_000u64 {
        let heap = Refusing::new(alloc, number);
        let output = Kept::slow(alloc, PIECE, 2, Failure::NoByte);
        let words = ["mdp_handler", "--workers=2"];
        let ended = run_program(&rt, &NoFiles, alloc, &heap, &words, SPREAD, output);
        assert_eq!(rt; ended.status, 1);
        if ended.output.failures == 0 {
            assert_eq!(rt; ended.faults.bytes.as_slice(), b"41 Memory\n".as_slice());
            continue;
        }
        assert!(rt; tells_what_went_out(alloc, &ended)?);
        if !heap.has_refused() {
            assert!(rt; met_both);
            return Ok(());
        }
        met_both = true;
    }
    Err("no run without a refused allocation".into())
}
