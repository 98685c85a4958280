//! Each write of a run failing in turn, in each way: the run tells how many bytes went out before, and writes nothing more.

use crate::tests::ways::{ONE_PACKET, ROWS, Row, WAYS, Way, run_by};
use mdp_crew::RunFault;
use std::alloc::Global;
use std::io::ErrorKind;
use std::process::Abort;
use std::sync::Wait;
use std::test::Fail;
use std::thread::Threads;
use worked_runs::{Failure, Kept};

/// How many bytes the writer takes a call.
const PIECE: usize = 64;

/// A write is refused, it is interrupted, it takes nothing.
const FAILURES: [Failure; 3] = [
    Failure::Error(ErrorKind::Other),
    Failure::Error(ErrorKind::Interrupted),
    Failure::NoByte,
];

// Runs over a row with each call of the writer failing in turn, until none does, and answers how many did.
fn fail_each<R: Threads + Wait + Sync + Abort>(
    rt: &R,
    alloc: Global,
    failure: Failure,
    way: Way,
    row: Row,
) -> Result<u64, Fail> {
    for call in 1..1000u64 {
        let mut kept = Kept::slow(alloc, PIECE, call, failure);
        let Some(outcome) = run_by(rt, alloc, way, row, &mut kept) else {
            return Err("no memory for the capture".into());
        };
        if kept.failures == 0 {
            assert!(rt; outcome.is_ok());
            assert_eq!(rt; kept.bytes.as_slice(), row.text);
            return Ok(call - 1);
        }
        let written = kept.bytes.len() as u64;
        assert_eq!(rt; outcome, Err(RunFault::Output { written }));
        assert_eq!(rt; kept.calls, call);
        assert!(rt; row.text.starts_with(&kept.bytes));
    }
    Err("no run without a failed write".into())
}

#[test]
fn runs_with_each_write_failing(rt: HostRuntime) -> Result<(), Fail> {
    for row in ROWS {
        for way in WAYS {
            for failure in FAILURES {
                assert!(rt; fail_each(&rt, rt.alloc(), failure, way, row)? > 2);
            }
        }
    }
    Ok(())
}

// Of the row's 66 bytes, one taken a call, 29 go out before the call that fails.
#[test]
fn a_failed_write_in_the_middle_of_a_line(rt: HostRuntime) -> Result<(), Fail> {
    assert_eq!(rt; ONE_PACKET.text.len(), 66);
    for way in WAYS {
        for failure in FAILURES {
            let mut kept = Kept::slow(rt.alloc(), 1, 30, failure);
            let Some(outcome) = run_by(&rt, rt.alloc(), way, ONE_PACKET, &mut kept) else {
                return Err("no memory for the capture".into());
            };
            assert_eq!(rt; outcome, Err(RunFault::Output { written: 29 }));
            assert_eq!(rt; kept.bytes.as_slice(), &ONE_PACKET.text[..29]);
            assert_eq!(rt; kept.calls, 30);
        }
    }
    Ok(())
}
