//! Reads and writes that fail, memory that runs out, and the help.

ghost use Rattle.std.specs.Prelude.{◌<◌, ◌-◌, ◌^◌};

use crate::doubles::{Ended, NoFiles, run_program};
use crate::settings::{Settings, read_settings};
use clap::error::ErrorKind as ClapKind;
use mdp_arbiter::Start;
use refusing::Refusing;
use std::alloc::Global;
use std::io;
use std::io::{ErrorKind, Read};
use std::process::Abort;
use std::sync::Wait;
use std::test::Fail;
use std::thread::Threads;
use worked_runs::{Failure, Kept, PLAIN, PLAIN_TEXT};

const WORDS: &[&str] = &["mdp_handler", "--in-order"];

// A run on one thread, and one over threads.
const RUNS: [&[&str]; 2] = [WORDS, &["mdp_handler"]];

// Gives at most so many bytes a call, and fails at one call.
#[derive(Drop)]
struct Halting<'a> {
    rest: &'a [u8],
    most: usize,
    calls: u64,
    fail_at: u64,
}

impl<'a> Read for Halting<'a> {
    fn read(&mut self, buf: &mut [u8]) -> io::Result<usize> {
        self.calls = self.calls.saturating_add(1);
        if self.calls == self.fail_at {
            return Err(io::Error::from(ErrorKind::Interrupted));
        }
        let count = self.rest.len().min(self.most).min(buf.len());
        buf[..count].copy_from_slice(&self.rest[..count]);
        self.rest = &self.rest[count..];
        Ok(count)
    }
}

#[test]
fn a_failed_read_prints_nothing(rt: HostRuntime) -> Result<(), Fail> {
    let alloc = rt.alloc();
    for fail_at in 1..100u64 {
        let reader = Halting {
            rest: PLAIN,
            most: 10,
            calls: 0,
            fail_at,
        };
        let output = Kept::new(alloc);
        let ended = run_program(&rt, &NoFiles, alloc, alloc, WORDS, reader, output);
        if ended.status == 0 {
            ended.sees(&rt, 0, PLAIN_TEXT, b"");
            assert_eq!(rt; ended.failed_reads, 0);
            // 149 bytes in pieces of 10, and a read that finds the end
            assert_eq!(rt; fail_at, 17);
            return Ok(());
        }
        ended.sees(&rt, 1, b"", b"43 Input\n");
    }
    Err("no run without a failed read".into())
}

#[test]
fn a_failed_write_tells_what_went_out(rt: HostRuntime) {
    let alloc = rt.alloc();
    assert_eq!(rt; PLAIN_TEXT.len(), 66);
    for words in RUNS {
        let output = Kept::slow(alloc, 1, 30, Failure::Error(ErrorKind::Other));
        let ended = run_program(&rt, &NoFiles, alloc, alloc, words, PLAIN, output);
        let told = b"42 Output after 29 bytes\n";
        ended.sees(&rt, 1, &PLAIN_TEXT[..29], told);
        assert_eq!(rt; ended.output.calls, 30);
    }
}

#[test]
fn each_refused_allocation_ends_the_run(rt: HostRuntime) -> Result<(), Fail> {
    let alloc = rt.alloc();
    for number in 1..1000u64 {
        let heap = Refusing::new(alloc, number);
        let output = Kept::new(alloc);
        let ended = run_program(&rt, &NoFiles, alloc, &heap, WORDS, PLAIN, output);
        if !heap.has_refused() {
            ended.sees(&rt, 0, PLAIN_TEXT, b"");
            assert!(rt; number > 6);
            return Ok(());
        }
        assert_eq!(rt; ended.status, 1);
        assert_eq!(rt; ended.faults.bytes.as_slice(), b"41 Memory\n".as_slice());
        assert!(rt; PLAIN_TEXT.starts_with(&ended.output.bytes));
    }
    Err("no run without a refused allocation".into())
}

#[test]
fn want_of_memory_at_the_capture_tells_no_skipped_line(rt: HostRuntime) {
    let alloc = rt.alloc();
    // the first allocation is the room for a piece of the capture, and a later one is another line's
    let text = b"I 1 NEAR O\nQ\nA 00\nA 00\nA 00\nA 00\nA 00\n".as_slice();
    for number in 1..6u64 {
        let heap = Refusing::new(alloc, number);
        let output = Kept::new(alloc);
        let ended = run_program(&rt, &NoFiles, alloc, &heap, WORDS, text, output);
        ended.sees(&rt, 1, b"", b"41 Memory\n");
    }
}

// Runs with these words over an input of which no byte can be read.
fn run_unread<R: Threads + Wait + Sync>(
    rt: &R,
    alloc: Global,
    words: &[&str],
    output: Kept,
) -> Ended
    requires { output.failures < 2 ^ 64 - 1 }
{
    let reader = Halting {
        rest: PLAIN,
        most: 1,
        calls: 0,
        fail_at: 1,
    };
    run_program(rt, &NoFiles, alloc, alloc, words, reader, output)
}

// Returns whether a text has a piece.
fn has_piece(text: &[u8], piece: &[u8]) -> bool {
    if piece.is_empty() {
        return true;
    }
    text.windows(piece.len()).any(|bytes| bytes == piece)
}

#[test]
fn help_reads_no_capture(rt: HostRuntime) {
    let alloc = rt.alloc();
    let words = ["mdp_handler", "--help"];
    let ended = run_unread(&rt, alloc, &words, Kept::new(alloc));
    assert_eq!(rt; ended.status, 0);
    assert!(rt; has_piece(&ended.output.bytes, b"Usage: mdp_handler"));
    assert_eq!(rt; ended.faults.bytes.as_slice(), b"".as_slice());
}

#[test]
fn help_that_is_not_written_is_told(rt: HostRuntime) {
    let alloc = rt.alloc();
    let words = ["mdp_handler", "--help"];
    let output = Kept::slow(alloc, 1, 8, Failure::Error(ErrorKind::Other));
    let ended = run_unread(&rt, alloc, &words, output);
    assert_eq!(rt; ended.status, 1);
    let told = b"42 Output after 7 bytes\n";
    assert_eq!(rt; ended.faults.bytes.as_slice(), told.as_slice());
}

#[test]
fn help_reads_nothing_and_shows_each_option(rt: HostRuntime) {
    let alloc = rt.alloc();
    let words = ["mdp_handler", "--window", "3", "--help"];
    let ended = run_unread(&rt, alloc, &words, Kept::new(alloc));
    assert_eq!(rt; ended.status, 0);
    assert_eq!(rt; ended.failed_reads, 0);
    assert_eq!(rt; ended.faults.calls, 0);
    for option in [
        "--window <N>",
        "--workers <N>",
        "--in-order",
        "--join",
        "--channel <FILE>",
        "--version",
    ] {
        assert!(rt; has_piece(&ended.output.bytes, option.as_bytes()));
    }
}

// Runs over a capture.
fn run_over<R: Threads + Wait + Sync>(
    rt: &R,
    alloc: Global,
    words: &[&str],
    capture: &[u8],
) -> Ended {
    run_program(rt, &NoFiles, alloc, alloc, words, capture, Kept::new(alloc))
}

#[test]
fn the_version_is_shown(rt: HostRuntime) {
    let words = ["mdp_handler", "--version"];
    let ended = run_over(&rt, rt.alloc(), &words, PLAIN);
    ended.sees(&rt, 0, b"mdp_handler 0.1.0\n", b"");
    assert_eq!(rt; ended.faults.calls, 0);
}

#[test]
fn a_fault_of_the_command_line_is_told_alone(rt: HostRuntime) {
    let words = ["mdp_handler", "--window", "0"];
    let ended = run_over(&rt, rt.alloc(), &words, PLAIN);
    assert_eq!(rt; ended.status, 2);
    assert_eq!(rt; ended.output.calls, 0);
    let said = b"error: invalid value '0' for '--window <N>'";
    assert!(rt; ended.faults.bytes.starts_with(said));
}

#[test]
fn a_refused_capture_is_told_alone(rt: HostRuntime) {
    let captures: [(&[u8], &[u8]); 4] = [
        (b"I 1 NEAR O\nI 1 FAR O\n", b"line 2: 31 DuplicateId\n"),
        (b"I 1 NEAR O\nI 2 PAIR C 1 9\n", b"line 2: 32 UnknownLeg\n"),
        (b"", b"34 None\n"),
        (
            b"I 1 NEAR O\nX\nI 2 FAR O\n",
            b"line 3: 35 InstrumentLate\n",
        ),
    ];
    for (capture, told) in captures {
        let ended = run_over(&rt, rt.alloc(), WORDS, capture);
        ended.sees(&rt, 2, b"", told);
        assert_eq!(rt; ended.output.calls, 0);
    }
}

#[test]
fn skipped_lines_are_told_in_their_order(rt: HostRuntime) {
    let ended = run_over(&rt, rt.alloc(), WORDS, b"I 1 NEAR O\nA 0\nQ\n");
    ended.sees(
        &rt,
        0,
        b"Z 1 live\n",
        b"line 2: 22 Hex\nline 3: 21 LineForm\n",
    );
}

#[test]
fn the_words_give_the_settings(rt: HostRuntime) -> Result<(), Fail> {
    let alloc = rt.alloc();
    let usual = Settings {
        window: 1024,
        workers: None,
        in_order: false,
        live: false,
        start: Start::FromOne,
        channel: None,
    };
    let lines: [(&[&str], Settings<'_>); 8] = [
        (&["mdp_handler"], usual),
        (
            &["mdp_handler", "--window", "3"],
            Settings { window: 3, ..usual },
        ),
        (
            &["mdp_handler", "--in-order", "--workers=16"],
            Settings {
                workers: Some(16),
                in_order: true,
                ..usual
            },
        ),
        (
            &["mdp_handler", "--window=65536", "--workers", "1"],
            Settings {
                window: 65536,
                workers: Some(1),
                ..usual
            },
        ),
        (
            &["mdp_handler", "--join"],
            Settings {
                start: Start::Join,
                ..usual
            },
        ),
        (
            &["mdp_handler", "--in-order", "--join", "--window=4"],
            Settings {
                window: 4,
                in_order: true,
                start: Start::Join,
                ..usual
            },
        ),
        (
            &["mdp_handler", "--live", "--workers=2"],
            Settings {
                workers: Some(2),
                live: true,
                ..usual
            },
        ),
        (
            &["mdp_handler", "--channel", "day.channel", "--window=8"],
            Settings {
                window: 8,
                channel: Some("day.channel"),
                ..usual
            },
        ),
    ];
    for (words, wanted) in lines {
        assert_eq!(rt; read_settings(alloc, words).expect(&rt, "settings"), wanted);
    }
    Ok(())
}

#[test]
fn words_that_are_no_settings(rt: HostRuntime) -> Result<(), Fail> {
    let alloc = rt.alloc();
    let lines: [(&[&str], ClapKind); 11] = [
        (&["mdp_handler", "--window", "0"], ClapKind::ValueValidation),
        (
            &["mdp_handler", "--window=65537"],
            ClapKind::ValueValidation,
        ),
        (
            &["mdp_handler", "--workers", "17"],
            ClapKind::ValueValidation,
        ),
        (
            &["mdp_handler", "--join", "--window", "0"],
            ClapKind::ValueValidation,
        ),
        (&["mdp_handler", "--join=yes"], ClapKind::TooManyValues),
        (&["mdp_handler", "--workers"], ClapKind::InvalidValue),
        (&["mdp_handler", "--channel"], ClapKind::InvalidValue),
        (
            &["mdp_handler", "--channel=a", "--channel=b"],
            ClapKind::ArgumentConflict,
        ),
        (&["mdp_handler", "capture"], ClapKind::UnknownArgument),
        (&["mdp_handler", "--help"], ClapKind::DisplayHelp),
        (&["mdp_handler", "-V"], ClapKind::DisplayVersion),
    ];
    for (words, kind) in lines {
        let error = read_settings(alloc, words).expect_err(&rt, "a fault");
        assert_eq!(rt; error.kind(), kind);
    }
    Ok(())
}
