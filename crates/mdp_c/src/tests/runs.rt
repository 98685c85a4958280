//! The worked runs through the calls, and what is told after one of them.

use super::{FOLLOW, NO_BEST, NO_FAULT, NO_LEVEL, UNTOLD, open};
use crate::became::Became;
use crate::books::{Best, mdp_best, mdp_fault, mdp_is_current, mdp_levels};
use crate::changed::mdp_changed;
use crate::feeding::{mdp_close, mdp_datagram};
use crate::handle::Handle;
use crate::levels::Level;
use crate::lines::{Lent, mdp_clear_lines, mdp_lines};
use crate::opening::mdp_free;
use crate::options::Options;
use crate::state::{State, mdp_state};
use mdp_capture::{Capture, CountingReader, Record, read_capture};
use mdp_templates::Memory;
use std::alloc::Global;
use std::process::Abort;
use std::test::Fail;
use worked_runs::{
    PLAIN, PLAIN_TEXT, RECOVERY, RECOVERY_TEXT, REFUSED, REFUSED_TEXT, SPREAD, SPREAD_TEXT,
};

/// Reads what a capture brought.
fn read(alloc: Global, capture: &[u8]) -> Option<Capture<Global>> {
    let mut input = CountingReader::new(capture);
    match read_capture(alloc, &mut input) {
        Ok(read) => Some(read),
        Err(_) => None,
    }
}

/// Appends the lines that a handle lends, and has it let them go.
fn hand_on(handle: &mut Handle, text: &mut Vec<u8, Global>) -> Result<(), Memory> {
    let mut lent = Lent { bytes: b"" };
    mdp_lines(handle, &mut lent);
    text.extend_from_slice(lent.bytes)?;
    mdp_clear_lines(handle);
    Ok(())
}

/// Pushes what came on a feed into a handle, appends the lines of each datagram, and counts those that are refused.
fn push(
    alloc: Global,
    handle: &mut Handle,
    feed: u32,
    records: &[Record<Global>],
    text: &mut Vec<u8, Global>,
) -> Result<u64, Memory> {
    let mut refused = 0u64;
    for record in records {
        let mut became = UNTOLD;
        let status = match record.bytes() {
            Some(bytes) => mdp_datagram(alloc, handle, feed, bytes, &mut became),
            None => mdp_close(handle),
        };
        if status != 0 {
            refused = refused.saturating_add(1);
        }
        hand_on(handle, text)?;
    }
    Ok(refused)
}

/// Pushes all that a capture brought into a handle, feed by feed.
fn push_all(
    alloc: Global,
    handle: &mut Handle,
    capture: &Capture<Global>,
    text: &mut Vec<u8, Global>,
) -> Result<u64, Memory> {
    let a = push(alloc, handle, 0, capture.a(), text)?;
    let b = push(alloc, handle, 1, capture.b(), text)?;
    let s = push(alloc, handle, 2, capture.s(), text)?;
    Ok(a.saturating_add(b).saturating_add(s))
}

/// Checks the text of a capture's run, but for the lines behind those of its last event, and how many datagrams of it
/// are refused.
fn prints<T: Abort>(
    rt: &T,
    alloc: Global,
    capture: &[u8],
    whole: &[u8],
    refused: u64,
) -> Result<(), Fail> {
    let Some(read) = read(alloc, capture) else {
        return Err("no capture".into());
    };
    let (mut handle, status) = open(alloc, capture, &FOLLOW);
    assert_eq!(rt; status, 0);
    let mut text = Vec::new(alloc);
    assert_eq!(rt; push_all(alloc, &mut handle, &read, &mut text)?, refused);
    assert!(rt; whole.starts_with(text.as_slice()));
    let behind = whole.get(text.len()..).unwrap_or(b"");
    assert!(rt; behind.starts_with(b"Z ") || behind.starts_with(b"X "));
    mdp_free(alloc, &mut handle);
    Ok(())
}

#[test]
fn worked_runs_print_their_texts(rt: HostRuntime) -> Result<(), Fail> {
    let alloc = rt.alloc();
    prints(&rt, alloc, PLAIN, PLAIN_TEXT, 0)?;
    prints(&rt, alloc, RECOVERY, RECOVERY_TEXT, 0)?;
    prints(&rt, alloc, SPREAD, SPREAD_TEXT, 0)?;
    prints(&rt, alloc, REFUSED, REFUSED_TEXT, 6)
}

/// A channel behind packet 5, of which nothing is missing.
const BEHIND: State = State {
    next: 6,
    highest: 5,
    waiting: 0,
    stale: 0,
    is_lost: 0,
    has_stale: 0,
};

/// Where nothing is told yet.
const NOWHERE: State = State {
    next: 9,
    highest: 9,
    waiting: 9,
    stale: 9,
    is_lost: 9,
    has_stale: 9,
};

/// Checks the books of the recovery's run: 101x9 and 103x4, an offer 90x3, and a spread with neither.
fn books<T: Abort>(rt: &T, handle: &mut Handle) {
    let mut best = NO_BEST;
    assert_eq!(rt; mdp_best(handle, 0, &mut best), 0);
    assert_eq!(rt; (best.has_bid, best.has_offer, best.is_faulty), (1, 1, 0));
    let bid = Level {
        price: 101,
        size: 9,
    };
    let offer = Level {
        price: 103,
        size: 4,
    };
    assert_eq!(rt; (best.bid, best.offer), (bid, offer));
    let mut levels = [NO_LEVEL; 2];
    let mut count = 7;
    assert_eq!(rt; mdp_levels(handle, 0, 2, 0, &mut levels, &mut count), 0);
    assert_eq!(rt; count, 1);
    assert_eq!(rt; levels, [bid, NO_LEVEL]);
    assert_eq!(rt;
        mdp_levels(handle, 1, 0, 1, &mut levels[..0], &mut count),
        84
    );
    assert_eq!(rt; count, 1);
    assert_eq!(rt; mdp_levels(handle, 3, 0, 1, &mut levels, &mut count), 83);
    assert_eq!(rt; mdp_levels(handle, 0, 3, 1, &mut levels, &mut count), 83);
    assert_eq!(rt; mdp_levels(handle, 0, 0, 2, &mut levels, &mut count), 83);
    assert_eq!(rt; mdp_best(handle, 2, &mut best), 0);
    let none = Best {
        bid: NO_LEVEL,
        offer: NO_LEVEL,
        has_bid: 0,
        has_offer: 0,
        is_faulty: 0,
        reserved: 0,
    };
    assert_eq!(rt; best, none);
    let mut fault = NO_FAULT;
    assert_eq!(rt; mdp_fault(handle, 0, &mut fault), 0);
    assert_eq!(rt; fault.is_faulty, 0);
}

/// Checks which securities changed, and that each book is current.
fn changes<T: Abort>(rt: &T, handle: &mut Handle) {
    let mut slots = [7u32; 4];
    let mut count = 9;
    assert_eq!(rt; mdp_changed(handle, &mut slots[..2], &mut count), 84);
    assert_eq!(rt; (count, slots[0]), (3, 7));
    assert_eq!(rt; mdp_changed(handle, &mut slots, &mut count), 0);
    assert_eq!(rt; slots, [0, 1, 2, 7]);
    mdp_clear_lines(handle);
    assert_eq!(rt; mdp_changed(handle, &mut slots, &mut count), 0);
    assert_eq!(rt; count, 0);
    let mut current = false;
    assert_eq!(rt; mdp_is_current(handle, 2, &mut current), 0);
    assert!(rt; current);
    assert_eq!(rt; mdp_is_current(handle, 3, &mut current), 83);
}

/// Books alone, with no lines.
const BOOKS: Options = Options {
    size: 24,
    window: 4,
    start: 0,
    lines: 0,
    reserved: 0,
};

/// Pushes what came on a feed into a handle, and tells what became of the last of it.
fn push_silently(
    alloc: Global,
    handle: &mut Handle,
    feed: u32,
    records: &[Record<Global>],
) -> Became {
    let mut became = UNTOLD;
    for record in records {
        match record.bytes() {
            Some(bytes) => mdp_datagram(alloc, handle, feed, bytes, &mut became),
            None => mdp_close(handle),
        };
    }
    became
}

#[test]
fn a_run_with_no_lines_tells_its_books(rt: HostRuntime) -> Result<(), Fail> {
    let alloc = rt.alloc();
    let Some(capture) = read(alloc, RECOVERY) else {
        return Err("no capture".into());
    };
    let (mut handle, _) = open(alloc, RECOVERY, &BOOKS);
    let lost = push_silently(alloc, &mut handle, 0, capture.a());
    assert_eq!(rt;
        (lost.kind, lost.fate, lost.has_loss, lost.has_jump),
        (1, 0, 1, 0)
    );
    assert_eq!(rt; (lost.loss_next, lost.loss_highest), (1, 5));
    let mut current = true;
    assert_eq!(rt; mdp_is_current(&mut handle, 0, &mut current), 0);
    assert!(rt; !current);
    let found = push_silently(alloc, &mut handle, 2, capture.s());
    assert_eq!(rt;
        (found.kind, found.news, found.older, found.has_jump),
        (2, 3, 0, 1)
    );
    assert_eq!(rt; (found.jump_old, found.jump_new), (1, 3));
    let mut state = NOWHERE;
    assert_eq!(rt; mdp_state(&mut handle, &mut state), 0);
    assert_eq!(rt; state, BEHIND);
    let mut lent = Lent { bytes: b"x" };
    assert_eq!(rt; mdp_lines(&mut handle, &mut lent), 0);
    assert_eq!(rt; lent.bytes, b"".as_slice());
    books(&rt, &mut handle);
    changes(&rt, &mut handle);
    mdp_free(alloc, &mut handle);
    Ok(())
}
