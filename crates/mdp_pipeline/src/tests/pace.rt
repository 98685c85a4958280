//! A reader that is held back holds back the others: what came on its feed alone is not given up, and a close comes where it stands.

use crate::feeds::Feeds;
use crate::summary::Summary;
use crate::threads::run;
use mdp_arbiter::Start;
use mdp_capture::{CountingReader, read_capture};
use mdp_crew::{Gate, RunPlan};
use mdp_templates::Memory;
use std::alloc::Global;
use std::process::Abort;
use std::sync::Wait;
use std::test::Fail;
use std::thread;
use std::thread::Threads;
use worked_runs::Kept;

/// How many packets come, by turns on feeds A and B.
const PACKETS: u16 = 400;

/// Far fewer packet numbers than come.
const WINDOW: u32 = 32;

/// Holds the reader of feed A back at each of its first places, for longer than feed B takes to be read.
#[derive(Drop)]
struct SlowA;

impl Gate for SlowA {
    fn arrive(&self, _worker: usize, _step: u64) {}

    fn reads(&self, feed: usize, place: u64) {
        if feed != 0 || place > 20 {
            return;
        }
        for _ in 0..2_000u32 {
            thread::yield_now();
        }
    }
}

fn digit(value: u16) -> u8 {
    b"0123456789abcdef"[usize::from(value % 16)]
}

/// Appends the line of a packet with a heartbeat.
fn put_heartbeat(capture: &mut Vec<u8>, number: u16) -> Result<(), Memory> {
    capture.extend_from_slice(if number % 2 == 1 { b"A " } else { b"B " })?;
    for value in [number / 16, number, number / 4096, number / 256] {
        capture.push(digit(value))?;
    }
    capture.extend_from_slice(b"000000000000000000000a0000000c0001000900\n")?;
    Ok(())
}

/// One security, the packets in their order, and a close behind packet `close`, if that comes.
fn capture_of(alloc: Global, close: u16) -> Result<Vec<u8>, Memory> {
    let mut capture = Vec::new(alloc);
    capture.extend_from_slice(b"I 1 NEAR O\n")?;
    for number in 1..=PACKETS {
        put_heartbeat(&mut capture, number)?;
        if number == close {
            capture.extend_from_slice(b"X\n")?;
        }
    }
    Ok(capture)
}

/// Where the channel stands behind the capture; none where memory ran out.
fn standing<R: Threads + Wait + Sync>(rt: &R, alloc: Global, close: u16) -> Option<(u64, bool)> {
    let Ok(text) = capture_of(alloc, close) else {
        return None;
    };
    let mut input = CountingReader::new(text.as_slice());
    let Ok(capture) = read_capture(alloc, &mut input) else {
        return None;
    };
    let mut kept = Kept::new(alloc);
    let outcome = run(
        rt,
        alloc,
        RunPlan {
            instruments: capture.instruments(),
            window: WINDOW,
            start: Start::FromOne,
            workers: 2,
        },
        Feeds::of(&capture),
        &SlowA,
        &mut kept,
    );
    match outcome {
        Ok(Summary { next, lost, .. }) => Some((next, lost)),
        Err(_) => None,
    }
}

#[test]
fn a_slow_reader_loses_nothing(rt: HostRuntime) -> Result<(), Fail> {
    assert_eq!(rt; standing(&rt, rt.alloc(), 0), Some((401, false)));
    Ok(())
}

#[test]
fn a_close_comes_where_it_stands(rt: HostRuntime) -> Result<(), Fail> {
    assert_eq!(rt; standing(&rt, rt.alloc(), 300), Some((301, false)));
    Ok(())
}
