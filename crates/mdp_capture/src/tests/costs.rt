//! What no clause says: how often a reader inside is called, and how many allocations a capture takes.

use crate::tests::TEXT;
use crate::{CountedRead, CountingReader, read_capture};
use refusing::Refusing;
use std::alloc::Global;
use std::io;
use std::io::ErrorKind;
use std::process::Abort;
use std::test::Fail;

// Gives one byte a call, counts its calls, and fails at one of them.
#[derive(Drop)]
struct Tired<'a> {
    text: &'a [u8],
    calls: u64,
    fail_at: u64,
    kind: ErrorKind,
}

impl io::Read for Tired<'_> {
    fn read(&mut self, buf: &mut [u8]) -> io::Result<usize> {
        self.calls = self.calls.saturating_add(1);
        if self.calls == self.fail_at {
            return Err(io::Error::from(self.kind));
        }
        let count = 1.min(self.text.len()).min(buf.len());
        buf[..count].copy_from_slice(&self.text[..count]);
        self.text = &self.text[count..];
        Ok(count)
    }
}

// Reads once, and answers the failures that were counted, the bytes read, and the kind of the error.
fn read_once(tired: &mut Tired<'_>) -> (u64, usize, Option<ErrorKind>) {
    let mut room = [0u8; 8];
    let mut counting = CountingReader::new(tired);
    let (count, kind) = match counting.read(&mut room) {
        Ok(count) => (count, None),
        Err(error) => (0, Some(error.kind())),
    };
    (counting.failures(), count, kind)
}

// Reads four times, of which one call fails: each read is one call.
fn read_four_times(rt: &impl Abort, kind: ErrorKind, fail_at: u64) {
    let mut tired = Tired {
        text: TEXT.as_bytes(),
        calls: 0,
        fail_at,
        kind,
    };
    for number in 1..5u64 {
        let wanted = match number == fail_at {
            true => (1, 0, Some(kind)),
            false => (0, 1, None),
        };
        assert_eq!(rt; read_once(&mut tired), wanted);
        assert_eq!(rt; tired.calls, number);
    }
}

#[test]
fn a_read_is_one_call_of_the_reader_inside(rt: HostRuntime) {
    for kind in [
        ErrorKind::Interrupted,
        ErrorKind::WouldBlock,
        ErrorKind::Other,
    ] {
        for fail_at in 1..5u64 {
            read_four_times(&rt, kind, fail_at);
        }
    }
}

// Returns whether a capture of so many datagrams is read.
fn is_read(heap: &Refusing<Global>, text: &str, datagrams: u32) -> bool {
    match read_capture(heap, &mut CountingReader::new(text.as_bytes())) {
        Ok(capture) => capture.a().len() == datagrams as usize,
        Err(_) => false,
    }
}

// Reads a capture of so many datagrams of two bytes, and returns whether it took an allocation of this number.
fn takes(alloc: Global, datagrams: u32, number: u64) -> Result<bool, Fail> {
    let mut text = String::from_str(alloc, "I 1 N O\n")?;
    for value in 0..datagrams {
        write!(text, "A {value:04}\n")?;
    }
    let heap = Refusing::new(alloc, number);
    let is_read = is_read(&heap, text.as_str(), datagrams);
    let is_refused = heap.has_refused();
    if is_read == is_refused {
        return Err("a capture is read unless an allocation is refused".into());
    }
    Ok(is_refused)
}

// A piece, a block and what counts who shares it, the instrument, and a list of records that doubles as it grows: 1,000
// records are at most ten doublings of one. Twice as many are one more. An allocation for each datagram were 1,000.
#[test]
fn datagrams_share_their_allocations(rt: HostRuntime) -> Result<(), Fail> {
    assert!(rt; takes(rt.alloc(), 1000, 4)?);
    assert!(rt; !takes(rt.alloc(), 1000, 20)?);
    assert!(rt; !takes(rt.alloc(), 2000, 21)?);
    Ok(())
}
