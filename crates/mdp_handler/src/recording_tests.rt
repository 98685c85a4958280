//! Recordings that are handled as they come: pieces of each size, and each read, write and
//! allocation failing in turn.

ghost use Rattle.std.specs.Prelude.{◌<◌, ◌-◌, ◌^◌};

mod faults;
mod frames;
mod notes;

use crate::doubles::{OneFile, Pieces, run_program};
use frames::recording_of;
use refusing::Refusing;
use std::alloc::{Allocator, Global};
use std::io;
use std::io::{ErrorKind, Read};
use std::process::Abort;
use std::sync::Wait;
use std::test::Fail;
use std::thread::Threads;
use worked_runs::{
    Failure, Kept, PLAIN, PLAIN_TEXT, RECOVERY, RECOVERY_TEXT, REFUSED, SPREAD, SPREAD_TEXT,
};

/// How many bytes a read gives at most.
const SIZES: [usize; 5] = [1, 2, 7, 4096, usize::MAX];

const WORDS: &[&str] = &["mdp_handler", "--channel", "day.channel", "--window=4"];

/// A channel of one instrument.
const CHANNEL: &[u8] = b"\
# a channel\n\
I 1 NEAR O\n\
F A 224.0.31.1 14310\n\
F B 224.0.32.1 15310\n\
F S 224.0.31.43 14310\n\
";

/// A channel of two legs and their spread.
const SPREAD_CHANNEL: &[u8] = b"\
F S 224.0.31.43 14310\n\
F B 224.0.32.1 15310\n\
F A 224.0.31.1 14310\n\
\n\
I 1 NEAR O\n\
I 2 FAR O\n\
I 3 CAL C 1 2\n\
";

/// What is told of the recovery: its lines 7 and 8 are the frames 4 and 5.
const RECOVERY_NOTES: &[u8] = b"frame 4: 51 Lost 1 5\nframe 5: 52 Found 1 3\n";

/// What is printed of the datagrams that are refused: line 2 of their capture is frame 1.
const REFUSED_FRAMES_TEXT: &[u8] = b"\
D 1.1 NEAR B 100x5 O\n\
I 1.1 NEAR B O\n\
C 1.1 NEAR B 100x5 O\n\
X A 1 5 SizePast\n\
X A 2 12 Action\n\
X A 3 14 Level\n\
X A 4 16 Size\n\
X A 5 6 Schema\n\
X A 6 17 ChannelReset\n\
Z 2 live\n\
";

/// Counts the reads of an input.
#[derive(Drop)]
struct Counted<'a> {
    pieces: Pieces<'a>,
    reads: &'a mut u64,
}

impl<'a> Read for Counted<'a> {
    fn read(&mut self, buf: &mut [u8]) -> io::Result<usize> {
        *self.reads = self.reads.saturating_add(1);
        self.pieces.read(buf)
    }
}

/// What a run came to, and how often it read.
#[derive(Drop)]
struct Ended {
    status: u8,
    output: Kept,
    told: Vec<u8>,
    reads: u64,
}

// Gives the one file that the words name.
fn day(channel: &[u8]) -> OneFile<'_> {
    OneFile {
        name: "day.channel",
        text: channel,
    }
}

// Runs over pieces of a recording.
fn run_over<R: Threads + Wait + Sync, A: Allocator + Copy + Send + Sync>(
    rt: &R,
    alloc: Global,
    heap: A,
    file: OneFile<'_>,
    pieces: Pieces<'_>,
    output: Kept,
) -> Ended
    requires { output.failures < 2 ^ 64 - 1 }
{
    let mut reads = 0;
    let reader = Counted {
        pieces,
        reads: &mut reads,
    };
    let ended = run_program(rt, &file, alloc, heap, WORDS, reader, output);
    Ended {
        status: ended.status,
        output: ended.output,
        told: ended.faults.bytes,
        reads,
    }
}

/// What a run is to come to.
#[derive(Clone, Copy)]
struct Wanted<'a> {
    status: u8,
    text: &'a [u8],
    told: &'a [u8],
}

// Runs over a recording in pieces of each size.
fn each_size<R: Threads + Wait + Sync + Abort>(
    rt: &R,
    alloc: Global,
    channel: &[u8],
    recording: &[u8],
    wanted: Wanted<'_>,
) {
    for size in SIZES {
        let pieces = Pieces::of(recording, size, 0);
        let ended = run_over(rt, alloc, alloc, day(channel), pieces, Kept::new(alloc));
        assert_eq!(rt; ended.status, wanted.status);
        assert_eq!(rt; ended.output.bytes.as_slice(), wanted.text);
        assert_eq!(rt; ended.told.as_slice(), wanted.told);
    }
}

// Returns whether a beginning of these notes was told, and then this.
fn is_told_last(told: &[u8], notes: &[u8], last: &[u8]) -> bool {
    match told.strip_suffix(last) {
        Some(front) => notes.starts_with(front),
        None => false,
    }
}

// Returns whether a text is a beginning of the recovery's, without the last line of a run.
fn begins_recovery(text: &[u8]) -> bool {
    RECOVERY_TEXT.starts_with(text) && !text.contains(&b'Z')
}

#[test]
fn pieces_of_each_size_print_the_same(rt: HostRuntime) -> Result<(), Fail> {
    let alloc = rt.alloc();
    for (channel, capture, text, told) in [
        (CHANNEL, PLAIN, PLAIN_TEXT, b"".as_slice()),
        (CHANNEL, REFUSED, REFUSED_FRAMES_TEXT, b"".as_slice()),
        (SPREAD_CHANNEL, SPREAD, SPREAD_TEXT, b"".as_slice()),
        (SPREAD_CHANNEL, RECOVERY, RECOVERY_TEXT, RECOVERY_NOTES),
    ] {
        let recording = recording_of(alloc, capture)?;
        let status = 0;
        let wanted = Wanted { status, text, told };
        each_size(&rt, alloc, channel, &recording, wanted);
    }
    Ok(())
}

#[test]
fn each_failed_read_leaves_a_beginning(rt: HostRuntime) -> Result<(), Fail> {
    let alloc = rt.alloc();
    let recording = recording_of(alloc, RECOVERY)?;
    // a header, and five frames with the 58 bytes before their payloads
    assert_eq!(rt; recording.len(), 24 + 5 * 58 + 68 + 68 + 100 + 68 + 165);
    for fail_at in 1..1000u64 {
        let pieces = Pieces::of(&recording, 50, fail_at);
        let file = day(SPREAD_CHANNEL);
        let ended = run_over(&rt, alloc, alloc, file, pieces, Kept::new(alloc));
        if ended.status == 0 {
            // 16 pieces, and a read that finds the end
            assert_eq!(rt; ended.reads, 17);
            assert_eq!(rt; fail_at, 18);
            assert_eq!(rt; ended.output.bytes.as_slice(), RECOVERY_TEXT);
            assert_eq!(rt; ended.told.as_slice(), RECOVERY_NOTES);
            return Ok(());
        }
        assert_eq!(rt; ended.status, 1);
        assert_eq!(rt; ended.reads, fail_at);
        assert!(rt; begins_recovery(&ended.output.bytes));
        assert!(rt; is_told_last(&ended.told, RECOVERY_NOTES, b"43 Input\n"));
    }
    Err("no run without a failed read".into())
}

// Runs with each write failing in turn, until none does.
fn fail_each_write<R: Threads + Wait + Sync + Abort>(
    rt: &R,
    alloc: Global,
    recording: &[u8],
    failure: Failure,
) -> Result<(), Fail> {
    for call in 1..1000u64 {
        let pieces = Pieces::of(recording, 100, 0);
        let output = Kept::slow(alloc, 64, call, failure);
        let ended = run_over(rt, alloc, alloc, day(SPREAD_CHANNEL), pieces, output);
        if ended.output.failures == 0 {
            assert_eq!(rt; ended.status, 0);
            assert_eq!(rt; ended.output.bytes.as_slice(), RECOVERY_TEXT);
            assert!(rt; call > 5);
            return Ok(());
        }
        assert_eq!(rt; ended.status, 1);
        assert_eq!(rt; ended.output.calls, call);
        assert!(rt; RECOVERY_TEXT.starts_with(&ended.output.bytes));
        let written = ended.output.bytes.len();
        let last = format!(in alloc; "42 Output after {written} bytes\n")?;
        assert!(rt; is_told_last(&ended.told, RECOVERY_NOTES, last.as_bytes()));
    }
    Err("no run without a failed write".into())
}

#[test]
fn each_failed_write_tells_what_went_out(rt: HostRuntime) -> Result<(), Fail> {
    let recording = recording_of(rt.alloc(), RECOVERY)?;
    for failure in [
        Failure::Error(ErrorKind::Other),
        Failure::Error(ErrorKind::Interrupted),
        Failure::NoByte,
    ] {
        fail_each_write(&rt, rt.alloc(), &recording, failure)?;
    }
    Ok(())
}

#[test]
fn each_refused_allocation_leaves_a_beginning(rt: HostRuntime) -> Result<(), Fail> {
    let alloc = rt.alloc();
    let recording = recording_of(alloc, RECOVERY)?;
    let mut before = 0u64;
    for number in 1..10_000u64 {
        let heap = Refusing::new(alloc, number);
        let pieces = Pieces::of(&recording, 50, 0);
        let file = day(SPREAD_CHANNEL);
        let ended = run_over(&rt, alloc, &heap, file, pieces, Kept::new(alloc));
        if !heap.has_refused() {
            assert_eq!(rt; ended.status, 0);
            assert_eq!(rt; ended.output.bytes.as_slice(), RECOVERY_TEXT);
            // the text of the channel file, its instruments and its addresses are the first
            assert!(rt; before > 3);
            assert!(rt; number > before.saturating_add(10));
            return Ok(());
        }
        if ended.reads == 0 {
            before = number;
        }
        assert_eq!(rt; ended.status, 1);
        assert!(rt; begins_recovery(&ended.output.bytes));
        assert!(rt; is_told_last(&ended.told, RECOVERY_NOTES, b"41 Memory\n"));
    }
    Err("no run without a refused allocation".into())
}
