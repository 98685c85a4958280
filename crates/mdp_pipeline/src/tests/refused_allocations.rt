//! Each allocation of a run refused in turn: the run answers want of memory, and what went out is a beginning of its text.

use crate::tests::ways::{ROWS, Row, WAYS, Way, run_by};
use mdp_crew::RunFault;
use refusing::Refusing;
use std::alloc::Global;
use std::process::Abort;
use std::sync::Wait;
use std::test::Fail;
use std::thread::Threads;
use worked_runs::Kept;

// Runs over a row with each allocation refused in turn, until none is, and answers how many were.
fn refuse_each<R: Threads + Wait + Sync + Abort>(
    rt: &R,
    alloc: Global,
    way: Way,
    row: Row,
) -> Result<u64, Fail> {
    for number in 1..10_000u64 {
        let heap = Refusing::new(alloc, number);
        let mut kept = Kept::new(alloc);
        let Some(outcome) = run_by(rt, &heap, way, row, &mut kept) else {
            assert!(rt; heap.has_refused());
            continue;
        };
        let written = kept.bytes.len() as u64;
        if !heap.has_refused() {
            assert!(rt; outcome.is_ok());
            assert_eq!(rt; kept.bytes.as_slice(), row.text);
            return Ok(number - 1);
        }
        assert_eq!(rt; outcome, Err(RunFault::Memory { written }));
        assert!(rt; row.text.starts_with(&kept.bytes));
    }
    Err("no run without a refused allocation".into())
}

#[test]
fn runs_with_each_allocation_refused(rt: HostRuntime) -> Result<(), Fail> {
    for row in ROWS {
        for way in WAYS {
            assert!(rt; refuse_each(&rt, rt.alloc(), way, row)? > 20);
        }
    }
    Ok(())
}
