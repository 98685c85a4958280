//! Captures whose lines threads read: the same as by one thread, wherever pieces and parts end; and each allocation refused.

ghost use Rattle.std.specs.Prelude.{◌<◌};

use crate::over_threads::take_large_piece;
use crate::reading::Reading;
use crate::tests::{REPEATS, TEXT, are_same, read};
use crate::{Capture, CaptureFault, CaptureRefusal, CountingReader, read_capture_over_threads};
use refusing::Refusing;
use std::alloc::{Allocator, Global};
use std::process::Abort;
use std::test::Fail;
use std::thread::Threads;

// Reads a text in pieces and parts of these sizes.
fn read_in_parts<T, A>(
    rt: &T,
    alloc: A,
    text: &str,
    piece: usize,
    part: usize,
) -> Result<Capture<A>, CaptureFault>
where
    T: Threads + Sync,
    A: Allocator + Copy + Send + Sync,
    requires { 0 < piece }
{
    let mut reading = Reading::new(alloc);
    for bytes in text.as_bytes().chunks(piece) {
        take_large_piece(rt, alloc, &mut reading, bytes, part)?;
    }
    reading.finish(alloc)
}

#[test]
fn parts_of_each_size_are_the_same(rt: HostRuntime) -> Result<(), Fail> {
    let alone = read(rt.alloc(), REPEATS)?;
    for part in 0..=REPEATS.len() {
        let capture = read_in_parts(&rt, rt.alloc(), REPEATS, REPEATS.len(), part)?;
        are_same(&rt, &alone, &capture);
    }
    Ok(())
}

#[test]
fn large_pieces_of_each_size_are_the_same(rt: HostRuntime) -> Result<(), Fail> {
    let alone = read(rt.alloc(), REPEATS)?;
    for piece in 1..=REPEATS.len() {
        let capture = read_in_parts(&rt, rt.alloc(), REPEATS, piece, 25)?;
        are_same(&rt, &alone, &capture);
    }
    let alone = read(rt.alloc(), TEXT)?;
    let capture = read_in_parts(&rt, rt.alloc(), TEXT, 30, 10)?;
    are_same(&rt, &alone, &capture);
    Ok(())
}

#[test]
fn a_part_refuses_as_the_whole_text_does(rt: HostRuntime) -> Result<(), Fail> {
    let text = "I 1 N O\nA 00\nB 00\nQ\nI 1 N O\nI 2 M O\n";
    let late = CaptureFault::Refused {
        line: 5,
        refusal: CaptureRefusal::InstrumentLate,
    };
    for part in 0..text.len() {
        let fault = read_in_parts(&rt, rt.alloc(), text, text.len(), part).err();
        assert_eq!(rt; fault, Some(late));
    }
    Ok(())
}

/// How many datagrams come on feed A, and as many on feed B: with their lines more than one large piece.
const DATAGRAMS: usize = 600;
/// How many digits a datagram has behind its first eight.
const MORE_DIGITS: usize = 4088;

// Appends the line of a datagram of 2,048 bytes.
fn push_datagram(
    alloc: Global,
    text: &mut String,
    feed: &str,
    number: usize,
    zeros: &str,
) -> Result<(), Fail> {
    let front = format!(in alloc; "{feed} {number:08}")?;
    text.push_str(front.as_str())?;
    text.push_str(zeros)?;
    text.push('\n')?;
    Ok(())
}

// An instrument, and datagrams that come on A and then on B.
fn long_text(alloc: Global) -> Result<String, Fail> {
    let mut zeros = String::new(alloc);
    for _ in 0..MORE_DIGITS {
        zeros.push('0')?;
    }
    let mut text = String::from_str(alloc, "I 1 N O\n")?;
    for number in 0..DATAGRAMS {
        push_datagram(alloc, &mut text, "A", number, zeros.as_str())?;
        push_datagram(alloc, &mut text, "B", number, zeros.as_str())?;
    }
    Ok(text)
}

#[test]
fn threads_read_the_same(rt: HostRuntime) -> Result<(), Fail> {
    let text = long_text(rt.alloc())?;
    let alone = read(rt.alloc(), text.as_str())?;
    let mut input = CountingReader::new(text.as_bytes());
    let capture = read_capture_over_threads(&rt, rt.alloc(), &mut input)?;
    assert_eq!(rt; capture.a().len(), DATAGRAMS);
    are_same(&rt, &alone, &capture);
    Ok(())
}

// Reads the repeats in parts, and returns how many records feed A has, and how many lines are skipped.
fn counts(
    rt: &(impl Threads + Sync),
    heap: &Refusing<Global>,
    part: usize,
) -> Result<(usize, usize), CaptureFault> {
    let capture = read_in_parts(rt, heap, REPEATS, REPEATS.len(), part)?;
    Ok((capture.a().len(), capture.skipped().len()))
}

// Reads the repeats in parts, and returns whether the allocator refused: then memory ran out, and else all is there.
fn is_refused(rt: &(impl Abort + Threads + Sync), heap: &Refusing<Global>, part: usize) -> bool {
    match counts(rt, heap, part) {
        Ok(counts) => assert_eq!(rt; counts, (5, 8)),
        Err(fault) => {
            assert!(rt; fault == CaptureFault::Memory);
            assert!(rt; heap.has_refused());
        }
    }
    heap.has_refused()
}

// Refuses one allocation after the other, until none is refused, and returns how many were.
fn count_refused(rt: &(impl Abort + Threads + Sync), alloc: Global, part: usize) -> u64 {
    let mut refused = 0u64;
    for number in 1..1000u64 {
        let heap = Refusing::new(alloc, number);
        if !is_refused(rt, &heap, part) {
            break;
        }
        refused = number;
    }
    refused
}

#[test]
fn each_allocation_refused_over_threads(rt: HostRuntime) {
    for part in [0, 30] {
        let refused = count_refused(&rt, rt.alloc(), part);
        assert!(rt; refused > 10 && refused < 999);
    }
}
