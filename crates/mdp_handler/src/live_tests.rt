//! Captures that are handled as they come: pieces of each size, late instruments, and each read and allocation failing
//! in turn.

use crate::doubles::{Ended, NoFiles, Pieces, run_program};
use refusing::Refusing;
use std::alloc::Global;
use std::process::Abort;
use std::sync::Wait;
use std::test::Fail;
use std::thread::Threads;
use worked_runs::{
    Kept, PLAIN, PLAIN_TEXT, RECOVERY, RECOVERY_TEXT, REFUSED, REFUSED_TEXT, SPREAD, SPREAD_TEXT,
};

/// How many bytes a read gives at most.
const SIZES: [usize; 5] = [1, 2, 7, 4096, usize::MAX];

const LIVE: &[&str] = &["mdp_handler", "--live", "--window=4"];

/// What is told of the recovery.
const RECOVERY_NOTES: &[u8] = b"line 7: 51 Lost 1 5\nline 8: 52 Found 1 3\n";

// Runs over pieces of a capture.
fn run_over<R: Threads + Wait + Sync>(
    rt: &R,
    alloc: Global,
    words: &[&str],
    pieces: Pieces<'_>,
) -> Ended {
    run_program(rt, &NoFiles, alloc, alloc, words, pieces, Kept::new(alloc))
}

// Runs over a capture in pieces of each size.
fn run_each_size<R: Threads + Wait + Sync + Abort>(
    rt: &R,
    alloc: Global,
    capture: &[u8],
    status: u8,
    text: &[u8],
    told: &[u8],
) {
    for size in SIZES {
        let ended = run_over(rt, alloc, LIVE, Pieces::of(capture, size, 0));
        ended.sees(rt, status, text, told);
    }
}

// Gives a text and then another.
fn both(alloc: Global, front: &[u8], back: &[u8]) -> Result<Vec<u8>, Fail> {
    let mut text = Vec::new(alloc);
    text.extend_from_slice(front)?;
    text.extend_from_slice(back)?;
    Ok(text)
}

// Lends a text without its last line.
fn without_end(text: &[u8]) -> &[u8] {
    let Some(end) = text.iter().rposition(|byte| *byte == b'Z') else {
        return text;
    };
    &text[..end]
}

// Returns whether a beginning of the recovery's text and notes came, and this was told last.
fn begins_recovery(ended: &Ended, last: &[u8]) -> bool {
    let notes = ended.faults.bytes.strip_suffix(last);
    let are_notes = notes.map_or(false, |notes| RECOVERY_NOTES.starts_with(notes));
    are_notes && RECOVERY_TEXT.starts_with(&ended.output.bytes)
}

#[test]
fn pieces_of_each_size_print_the_same(rt: HostRuntime) {
    for (capture, text, told) in [
        (PLAIN, PLAIN_TEXT, b"".as_slice()),
        (SPREAD, SPREAD_TEXT, b"".as_slice()),
        (REFUSED, REFUSED_TEXT, b"".as_slice()),
        (RECOVERY, RECOVERY_TEXT, RECOVERY_NOTES),
    ] {
        run_each_size(&rt, rt.alloc(), capture, 0, text, told);
    }
}

#[test]
fn a_last_line_needs_no_line_feed(rt: HostRuntime) {
    let cut = &RECOVERY[..RECOVERY.len() - 1];
    run_each_size(&rt, rt.alloc(), cut, 0, RECOVERY_TEXT, RECOVERY_NOTES);
}

#[test]
fn a_late_instrument_ends_the_text_before_it(rt: HostRuntime) -> Result<(), Fail> {
    let alloc = rt.alloc();
    let late = both(alloc, PLAIN, b"Q\nI 9 LATE O\nA 00\n")?;
    let told = b"line 3: 21 LineForm\nline 4: 35 InstrumentLate\n";
    run_each_size(&rt, alloc, &late, 2, without_end(PLAIN_TEXT), told);
    let last = both(alloc, PLAIN, b"I 9 LATE O")?;
    let told = b"line 3: 35 InstrumentLate\n";
    run_each_size(&rt, alloc, &last, 2, without_end(PLAIN_TEXT), told);
    Ok(())
}

#[test]
fn no_instrument_prints_nothing(rt: HostRuntime) {
    let rows: [(&[u8], &[u8]); 4] = [
        (b"", b"34 None\n"),
        (b"Q\nA 00\nX\n", b"line 1: 21 LineForm\n34 None\n"),
        (b"A 00\nI 1 NEAR O\n", b"line 2: 35 InstrumentLate\n"),
        (b"I 1 A O\nI 1 B O\n", b"line 2: 31 DuplicateId\n"),
    ];
    for (capture, told) in rows {
        run_each_size(&rt, rt.alloc(), capture, 2, b"", told);
    }
}

#[test]
fn instruments_alone_print_the_end(rt: HostRuntime) {
    let alloc = rt.alloc();
    run_each_size(&rt, alloc, b"I 1 NEAR O\n", 0, b"Z 1 live\n", b"");
    let joins = ["mdp_handler", "--join", "--live"];
    let ended = run_over(&rt, alloc, &joins, Pieces::of(b"I 1 NEAR O", 4, 0));
    ended.sees(&rt, 0, b"Z 1 lost\n", b"54 NoSnapshot 1 NEAR\n");
}

#[test]
fn each_failed_read_leaves_a_beginning(rt: HostRuntime) -> Result<(), Fail> {
    let alloc = rt.alloc();
    for fail_at in 1..1000u64 {
        let ended = run_over(&rt, alloc, LIVE, Pieces::of(RECOVERY, 50, fail_at));
        if ended.status == 0 {
            ended.sees(&rt, 0, RECOVERY_TEXT, RECOVERY_NOTES);
            assert!(rt; fail_at > 20);
            return Ok(());
        }
        assert_eq!(rt; ended.status, 1);
        assert!(rt; begins_recovery(&ended, b"43 Input\n"));
        assert!(rt; ended.output.bytes.len() <= without_end(RECOVERY_TEXT).len());
    }
    Err("no run without a failed read".into())
}

#[test]
fn each_refused_allocation_leaves_a_beginning(rt: HostRuntime) -> Result<(), Fail> {
    let alloc = rt.alloc();
    for number in 1..10_000u64 {
        let heap = Refusing::new(alloc, number);
        let pieces = Pieces::of(RECOVERY, 50, 0);
        let ended = run_program(&rt, &NoFiles, alloc, &heap, LIVE, pieces, Kept::new(alloc));
        if !heap.has_refused() {
            assert_eq!(rt; ended.status, 0);
            assert_eq!(rt; ended.output.bytes.as_slice(), RECOVERY_TEXT);
            assert!(rt; number > 20);
            return Ok(());
        }
        assert_eq!(rt; ended.status, 1);
        assert!(rt; begins_recovery(&ended, b"41 Memory\n"));
    }
    Err("no run without a refused allocation".into())
}
