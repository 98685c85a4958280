//! Replays of recorded captures: their text is read and run over, and the printed text is digested.

ghost use Rattle.std.specs.Prelude.{◌≤◌};
ghost use Rattle.mdp_templates.specs.Instrument.{AreFit};

use crate::capture_text::CaptureText;
use crate::channel::Channel;
use crate::digest::Digest;
use mdp_arbiter::Start;
use mdp_capture::{Capture, CountingReader, Record, read_capture, read_capture_over_threads};
use mdp_crew::Open;
use mdp_pipeline::{Feeds, RunFault, RunPlan, Summary, run, run_in_order};
use mdp_print::Counting;
use std::alloc::Global;
use std::io;
use std::io::Read;
use std::sync::Wait;
use std::thread::Threads;

/// How a capture is run over.
#[derive(Clone, Copy)]
pub struct Replay {
    pub window: u32,
    /// The number of workers; none where it runs on one thread, in the order of lines.
    pub workers: u16,
}

/// So many captures, or channels, of so many sessions each.
#[derive(Clone, Copy)]
pub struct Amount {
    pub times: u32,
    pub sessions: u32,
}

// Runs over a capture, on one thread where there is no worker.
fn replay_capture<R: Threads + Wait + Sync>(
    rt: &R,
    alloc: Global,
    replay: Replay,
    capture: &Capture<Global>,
    digest: &mut Digest,
) -> Result<Summary, RunFault>
    requires window { (1 ≤ replay.window) × (replay.window ≤ 65536) }
    requires fit { AreFit capture.now.instruments }
{
    let plan = RunPlan {
        instruments: capture.instruments(),
        window: replay.window,
        start: Start::FromOne,
        workers: replay.workers.max(1),
    };
    let mut output = Counting::new(digest);
    if replay.workers == 0 {
        return run_in_order(alloc, plan, Feeds::of(capture), &mut output);
    }
    run(rt, alloc, plan, Feeds::of(capture), &Open, &mut output)
}

/// Reads so many captures of a channel and runs over each, and digests all that is printed.
pub fn replay_all<R: Threads + Wait + Sync>(
    rt: &R,
    alloc: Global,
    channel: &Channel,
    replay: Replay,
    amount: Amount,
) -> anyhow::Result<u64>
    requires window { (1 ≤ replay.window) × (replay.window ≤ 65536) }
{
    let mut text = CaptureText::new(alloc, channel)?;
    let mut digest = Digest::new();
    for _ in 0..amount.times {
        text.begin(amount.sessions);
        let mut reader = CountingReader::new(&mut text);
        let capture = if replay.workers == 0 {
            read_capture(alloc, &mut reader)
        } else {
            read_capture_over_threads(rt, alloc, &mut reader)
        }?;
        let summary = replay_capture(rt, alloc, replay, &capture, &mut digest)?;
        digest.put(summary.next);
        digest.put(summary.written);
    }
    Ok(digest.value())
}

/// Reads so many captures of a channel, and digests what they hold.
pub fn read(alloc: Global, channel: &Channel, amount: Amount) -> anyhow::Result<u64> {
    let mut text = CaptureText::new(alloc, channel)?;
    let mut digest = Digest::new();
    for _ in 0..amount.times {
        text.begin(amount.sessions);
        let mut reader = CountingReader::new(&mut text);
        let capture = read_capture(alloc, &mut reader)?;
        for records in [capture.a(), capture.b(), capture.s()] {
            put_records(&mut digest, records);
        }
    }
    Ok(digest.value())
}

// Gives eight bytes of a datagram as a word, from a place that the number of its line gives; 0 where it has fewer.
fn word_at(bytes: &[u8], line: u32) -> u64 {
    let places = (bytes.len() as u64).saturating_sub(7);
    let fraction = u64::from(line.wrapping_mul(0x9e37_79b1));
    let place = fraction.wrapping_mul(places) >> 32;
    let Some(rest) = bytes.get(place as usize..) else {
        return 0;
    };
    let Some(word) = rest.first_chunk::<8>() else {
        return 0;
    };
    u64::from_le_bytes(*word)
}

// Digests the lines of records, the lengths of their datagrams, and a word of each of these.
fn put_records(digest: &mut Digest, records: &[Record<Global>]) {
    for record in records {
        let bytes = record.bytes().unwrap_or(&[]);
        let length = (bytes.len() as u64).wrapping_mul(1 << 32);
        digest.put(length.wrapping_add(u64::from(record.line())));
        digest.put(word_at(bytes, record.line()));
    }
}

/// Writes the text of a channel's first capture, of so many sessions, for another program to run over.
pub fn print<W: io::Write>(
    alloc: Global,
    channel: &Channel,
    sessions: u32,
    output: &mut W,
) -> anyhow::Result<()> {
    let mut text = CaptureText::new(alloc, channel)?;
    text.begin(sessions);
    let mut piece = vec![in alloc; 0u8; 65536]?;
    for _ in 0..u64::MAX {
        let count = text.read(piece.as_mut_slice())?;
        if count == 0 {
            break;
        }
        output.write_all(&piece[..count])?;
    }
    Ok(())
}
