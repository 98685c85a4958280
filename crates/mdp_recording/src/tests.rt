//! A small recording: each call of a run over it, and each allocation refused in turn.

use crate::RecordedRun;
use mdp_arbiter::Start;
use mdp_capture::InstrumentList;
use mdp_pcap::{FeedAddress, FeedAddresses, PcapFault};
use mdp_pipeline::{EndNote, Note};
use mdp_templates::{Feed, Memory};
use refusing::Refusing;
use std::alloc::{Allocator, Global};
use std::process::Abort;
use std::test::Fail;

/// A pcap of raw IP, and its first frame: packet 1 on A, with a bid of 5 at 100.
const FIRST: &[u8] = b"\
\xd4\xc3\xb2\xa1\x02\x00\x04\x00\x00\x00\x00\x00\x00\x00\x00\x00\x00\x00\x04\x00\x65\x00\x00\x00\
\x00\x00\x00\x00\x00\x00\x00\x00\x60\x00\x00\x00\x60\x00\x00\x00\
\x45\x00\x00\x60\x00\x07\x00\x00\x10\x11\x00\x00\x0a\x00\x00\x01\xe0\x00\x1f\x01\
\x9c\x40\x37\xe6\x00\x4c\x00\x00\
\x01\x00\x00\x00\x00\x00\x00\x00\x00\x00\x00\x00\
\x38\x00\x0b\x00\x2e\x00\x01\x00\x09\x00\x00\x00\x00\x00\x00\x00\x00\x00\x80\
\x00\x00\x20\x00\x01\
\x64\x00\x00\x00\x00\x00\x00\x00\x05\x00\x00\x00\x01\x00\x00\x00\
\x00\x00\x00\x00\x01\x00\x00\x00\x01\x00\x30\x00\x00\x00\x00\x00";

/// What the first frame shows.
const FIRST_TEXT: &[u8] = b"D 1.1 NEAR B 100x5 O\nI 1.1 NEAR B O\nC 1.1 NEAR B 100x5 O\n";

/// The frames behind it: one that was cut before its group, a fragment to A, and packet 3 on B, a
/// heartbeat.
const REST: &[u8] = b"\
\x00\x00\x00\x00\x00\x00\x00\x00\x04\x00\x00\x00\x60\x00\x00\x00\
\x45\x00\x00\x60\
\x00\x00\x00\x00\x00\x00\x00\x00\x18\x00\x00\x00\x18\x00\x00\x00\
\x45\x00\x00\x18\x00\x07\x20\x00\x10\x11\x00\x00\x0a\x00\x00\x01\xe0\x00\x1f\x01\
\x00\x00\x00\x00\
\x00\x00\x00\x00\x00\x00\x00\x00\x32\x00\x00\x00\x32\x00\x00\x00\
\x45\x00\x00\x32\x00\x07\x00\x00\x10\x11\x00\x00\x0a\x00\x00\x01\xe0\x00\x20\x01\
\x9c\x40\x3b\xce\x00\x1e\x00\x00\
\x03\x00\x00\x00\x00\x00\x00\x00\x00\x00\x00\x00\
\x0a\x00\x00\x00\x0c\x00\x01\x00\x09\x00";

/// The front of a record of more captured bytes than a record may have.
const FAULTY: &[u8] = b"\x00\x00\x00\x00\x00\x00\x00\x00\xff\xff\xff\xff\xff\xff\xff\xff";

// Makes a run over a channel of one instrument, with feeds A and B.
fn new_run<A: Allocator + Copy>(alloc: A) -> Result<RecordedRun<A>, Memory> {
    let mut instruments = InstrumentList::new(alloc);
    let _ = instruments.take_line(b"I 1 NEAR O")?;
    if instruments.as_slice().is_empty() {
        return Err(Memory);
    }
    let mut addresses = FeedAddresses::new(alloc);
    addresses.add(FeedAddress {
        feed: Feed::A,
        group: 0xe000_1f01,
        port: 14310,
    })?;
    addresses.add(FeedAddress {
        feed: Feed::B,
        group: 0xe000_2001,
        port: 15310,
    })?;
    RecordedRun::new(alloc, instruments, addresses, 4, Start::FromOne)
}

// Takes the first frame, and looks at what it shows.
fn take_first<R: Abort>(rt: &R, run: &mut RecordedRun<Global>) -> Result<(), Fail> {
    assert_eq!(rt; run.ending(), Some(PcapFault::NotPcap));
    run.take_piece(FIRST)?;
    assert_eq!(rt; run.text(), FIRST_TEXT);
    assert!(rt; run.notes().is_empty());
    assert_eq!(rt; run.number(), 2);
    run.clear();
    assert!(rt; run.text().is_empty());
    Ok(())
}

// Takes the rest, and looks at what is told of it.
fn take_rest<R: Abort>(rt: &R, run: &mut RecordedRun<Global>) -> Result<(), Fail> {
    let cut = Note::Cut {
        frame: 2,
        feed: None,
    };
    let fragment = Note::Fragment {
        frame: 3,
        feed: Some(Feed::A),
    };
    run.take_piece(REST)?;
    assert!(rt; run.text().is_empty());
    assert_eq!(rt; run.notes(), [cut, fragment].as_slice());
    assert_eq!(rt; run.number(), 5);
    assert_eq!(rt; run.ending(), None);
    run.clear();
    assert!(rt; run.notes().is_empty());
    Ok(())
}

// Takes the whole recording.
fn take_all<R: Abort>(rt: &R, run: &mut RecordedRun<Global>) -> Result<(), Fail> {
    take_first(rt, run)?;
    take_rest(rt, run)
}

#[test]
fn frames_show_and_tell_what_they_bring(rt: HostRuntime) -> Result<(), Fail> {
    let mut run = new_run(rt.alloc())?;
    let outcome = take_all(&rt, &mut run);
    let note = run.into_ended().note();
    outcome?;
    match note {
        Some(EndNote::Waits { next: 2, held: 1 }) => Ok(()),
        _ => Err("packet 3 doesn't wait".into()),
    }
}

// Takes the first frame, a faulty record in two pieces, and more.
fn take_faulty<R: Abort>(rt: &R, run: &mut RecordedRun<Global>) -> Result<(), Fail> {
    run.take_piece(FIRST)?;
    run.take_piece(&FAULTY[..15])?;
    assert_eq!(rt; run.fault(), None);
    assert_eq!(rt; run.ending(), Some(PcapFault::CutShort));
    run.take_piece(&FAULTY[15..])?;
    run.take_piece(REST)?;
    assert_eq!(rt; run.fault(), Some(PcapFault::RecordSize));
    assert_eq!(rt; run.ending(), Some(PcapFault::RecordSize));
    assert_eq!(rt; run.number(), 2);
    assert!(rt; run.notes().is_empty());
    Ok(())
}

#[test]
fn a_fault_ends_a_recording(rt: HostRuntime) -> Result<(), Fail> {
    let mut run = new_run(rt.alloc())?;
    take_faulty(&rt, &mut run)
}

// Takes the recording in pieces of 16 bytes, and returns how many bytes are shown and how many notes
// told.
fn shown_and_told(heap: &Refusing<Global>) -> Result<(usize, usize), Memory> {
    let mut run = new_run(heap)?;
    for part in [FIRST, REST] {
        for piece in part.chunks(16) {
            run.take_piece(piece)?;
        }
    }
    Ok((run.text().len(), run.notes().len()))
}

#[test]
fn each_refused_allocation_is_want_of_memory(rt: HostRuntime) -> Result<(), Fail> {
    for number in 1..1000u64 {
        let heap = Refusing::new(rt.alloc(), number);
        let outcome = shown_and_told(&heap);
        if !heap.has_refused() {
            assert_eq!(rt; outcome, Ok((FIRST_TEXT.len(), 2)));
            assert!(rt; number > 10);
            return Ok(());
        }
        assert_eq!(rt; outcome, Err(Memory));
    }
    Err("an allocation is always refused".into())
}
