//! The texts of the lines, writers that fail, and allocations that are refused.

ghost use Rattle.std.specs.Prelude.{◌≤◌, length};

use crate::{
    CountedWrite, Counting, Head, put_audit, put_consolidated, put_direct, put_fault, put_implied,
    put_jump, put_last, put_merged, put_refusal, write_all_counted,
};
use arrayvec::ArrayString;
use mdp_books::{EventEnd, Place, Side, Sides};
use mdp_quotes::{Total, Verdict, are_in_order};
use mdp_sbe::Refusal;
use mdp_templates::{Feed, Level, Memory, Name};
use refusing::Refusing;
use std::alloc::{Allocator, Global};
use std::io;
use std::io::ErrorKind;
use std::process::Abort;
use std::test::Fail;

fn level(price: i64, size: i32) -> Level {
    Level { price, size }
}

fn total(price: i64, size: i64) -> Total {
    Total { price, size }
}

/// Where message `message` of packet `packet` ends an event.
fn at(packet: u32, message: u64) -> EventEnd {
    EventEnd { packet, message }
}

/// The name of this text, of at most 20 bytes.
fn name(text: &str) -> Name {
    let mut made = ArrayString::new();
    let _ = made.try_push_str(text);
    Name::new(made)
}

/// The sides of a book whose direct ones have these levels.
fn with_direct(bids: &[Level], offers: &[Level]) -> Sides
    requires bids { length bids.now ≤ 10 }
    requires offers { length offers.now ≤ 10 }
{
    Sides {
        bids: Side::from_levels(10, bids),
        offers: Side::from_levels(10, offers),
        implied_bids: Side::new(2),
        implied_offers: Side::new(2),
    }
}

/// The sides of a book whose implied ones have these levels.
fn with_implied(bids: &[Level], offers: &[Level]) -> Sides
    requires bids { length bids.now ≤ 2 }
    requires offers { length offers.now ≤ 2 }
{
    Sides {
        bids: Side::new(10),
        offers: Side::new(10),
        implied_bids: Side::from_levels(2, bids),
        implied_offers: Side::from_levels(2, offers),
    }
}

#[test]
fn prints_direct_sides(rt: HostRuntime) -> Result<(), Fail> {
    let mut out = Vec::new(rt.alloc());
    let bids = [level(100_000_000_000, 5), level(-25_000_000, 0)];
    let offers = [level(i64::MIN, i32::MAX), level(i64::MAX, i32::MIN)];
    let both = with_direct(&bids, &offers);
    assert!(rt; put_direct(&mut out, &Head::new(at(7, 3), &name("ESM6")), &both).is_ok());
    let none = with_direct(&[], &[]);
    assert!(rt;
        put_direct(
            &mut out,
            &Head::new(at(u32::MAX, u64::MAX), &name("")),
            &none
        )
        .is_ok()
    );
    let one = with_direct(&[], &offers[..1]);
    assert!(rt; put_direct(&mut out, &Head::new(at(1, 1), &name("NEAR")), &one).is_ok());
    let lines =
        b"D 7.3 ESM6 B 100000000000x5 -25000000x0 O -9223372036854775808x2147483647 9223372036854775807x-2147483648\nD 4294967295.18446744073709551615  B O\nD 1.1 NEAR B O -9223372036854775808x2147483647\n";
    assert_eq!(rt; out.as_slice(), &lines[..]);
    Ok(())
}

#[test]
fn prints_implied_sides(rt: HostRuntime) -> Result<(), Fail> {
    let mut out = Vec::new(rt.alloc());
    let bid = with_implied(&[level(-1, 10)], &[]);
    assert!(rt; put_implied(&mut out, &Head::new(at(12, 34), &name("FAR")), &bid).is_ok());
    let offers = with_implied(&[], &[level(0, 1), level(9, 2)]);
    assert!(rt; put_implied(&mut out, &Head::new(at(12, 34), &name("FAR")), &offers).is_ok());
    let lines = b"I 12.34 FAR B -1x10 O\nI 12.34 FAR B O 0x1 9x2\n";
    assert_eq!(rt; out.as_slice(), &lines[..]);
    Ok(())
}

#[test]
fn prints_consolidated_sides(rt: HostRuntime) -> Result<(), Fail> {
    let mut out = Vec::new(rt.alloc());
    let bids = [total(10, 4_294_967_294), total(-10, i64::MAX)];
    let offers = [total(i64::MAX, i64::MIN)];
    assert!(rt;
        put_consolidated(&mut out, &Head::new(at(1, 2), &name("N-F")), &bids, &offers).is_ok()
    );
    assert!(rt; put_consolidated(&mut out, &Head::new(at(1, 2), &name("N-F")), &[], &[]).is_ok());
    let lines =
        b"C 1.2 N-F B 10x4294967294 -10x9223372036854775807 O 9223372036854775807x-9223372036854775808\nC 1.2 N-F B O\n";
    assert_eq!(rt; out.as_slice(), &lines[..]);
    Ok(())
}

/// Appends the line of sides that are in order. Answers whether they are, and there was memory.
fn merge<A: Allocator>(out: &mut Vec<u8, A>, head: &Head, sides: &Sides) -> bool {
    if !are_in_order(sides) {
        return false;
    }
    put_merged(out, head, sides).is_ok()
}

#[test]
fn merges_sides_in_order(rt: HostRuntime) -> Result<(), Fail> {
    let mut out = Vec::new(rt.alloc());
    let head = Head::new(at(1, 2), &name("N"));
    // implied bids before all others and at the price of 98; implied offers between two levels and behind all
    let sides = Sides {
        bids: Side::from_levels(10, &[level(99, 1), level(98, 2), level(97, 3)]),
        offers: Side::from_levels(10, &[level(101, 4), level(103, i32::MAX)]),
        implied_bids: Side::from_levels(2, &[level(100, 7), level(98, 10)]),
        implied_offers: Side::from_levels(2, &[level(102, 8), level(104, 9)]),
    };
    assert!(rt; merge(&mut out, &head, &sides));
    // one side empty, both levels of the other at one implied price each
    let offers = [level(-5, i32::MAX), level(6, 0)];
    let alike = Sides {
        bids: Side::new(10),
        offers: Side::from_levels(10, &offers),
        implied_bids: Side::from_levels(2, &[level(9, 1), level(8, 2)]),
        implied_offers: Side::from_levels(2, &offers),
    };
    assert!(rt; merge(&mut out, &head, &alike));
    assert!(rt; merge(&mut out, &head, &with_direct(&[], &[])));
    let lines =
        b"C 1.2 N B 100x7 99x1 98x12 97x3 O 101x4 102x8 103x2147483647 104x9\nC 1.2 N B 9x1 8x2 O -5x4294967294 6x0\nC 1.2 N B O\n";
    assert_eq!(rt; out.as_slice(), &lines[..]);
    Ok(())
}

#[test]
fn prints_faults_jumps_and_the_end(rt: HostRuntime) -> Result<(), Fail> {
    let mut out = Vec::new(rt.alloc());
    let place = Place {
        packet: 3,
        message: u64::MAX,
        entry: 255,
    };
    assert!(rt; put_fault(&mut out, at(4, 1), &name("NEAR"), &place).is_ok());
    assert!(rt; put_jump(&mut out, 5, u64::MAX).is_ok());
    assert!(rt; put_jump(&mut out, 0, 1).is_ok());
    assert!(rt; put_last(&mut out, 9, true).is_ok());
    assert!(rt; put_last(&mut out, u64::MAX, false).is_ok());
    let lines =
        b"F 4.1 NEAR 3.18446744073709551615.255\nJ 5 18446744073709551615\nJ 0 1\nZ 9 lost\nZ 18446744073709551615 live\n";
    assert_eq!(rt; out.as_slice(), &lines[..]);
    Ok(())
}

#[test]
fn prints_verdicts(rt: HostRuntime) -> Result<(), Fail> {
    let mut out = Vec::new(rt.alloc());
    let verdicts = [
        Verdict::Neither,
        Verdict::Missing,
        Verdict::Extra,
        Verdict::Better,
        Verdict::Worse,
        Verdict::Equal,
        Verdict::EqualLess,
        Verdict::EqualMore,
    ];
    for n in 0..verdicts.len() {
        let offer = verdicts[verdicts.len() - 1 - n];
        assert!(rt;
            put_audit(
                &mut out,
                at(5, n as u64 + 1),
                &name("CAL"),
                verdicts[n],
                offer
            )
            .is_ok()
        );
    }
    let all_words =
        b"A 5.1 CAL bid none offer equal-more\nA 5.2 CAL bid missing offer equal-less\nA 5.3 CAL bid extra offer equal\nA 5.4 CAL bid better offer worse\nA 5.5 CAL bid worse offer better\nA 5.6 CAL bid equal offer extra\nA 5.7 CAL bid equal-less offer missing\nA 5.8 CAL bid equal-more offer none\n";
    assert_eq!(rt; out.as_slice(), &all_words[..]);
    out.clear();
    let (worse, equal) = (Verdict::Worse, Verdict::Equal);
    assert!(rt; put_audit(&mut out, at(u32::MAX, u64::MAX), &name(""), worse, equal).is_ok());
    let largest = b"A 4294967295.18446744073709551615  bid worse offer equal\n";
    assert_eq!(rt; out.as_slice(), &largest[..]);
    Ok(())
}

#[test]
fn prints_refusals(rt: HostRuntime) -> Result<(), Fail> {
    let mut out = Vec::new(rt.alloc());
    assert!(rt; put_refusal(&mut out, Feed::A, 1, Refusal::TooShort).is_ok());
    assert!(rt; put_refusal(&mut out, Feed::B, 20, Refusal::Price).is_ok());
    assert!(rt; put_refusal(&mut out, Feed::S, u32::MAX, Refusal::SnapshotLevels).is_ok());
    let lines = b"X A 1 1 TooShort\nX B 20 15 Price\nX S 4294967295 18 SnapshotLevels\n";
    assert_eq!(rt; out.as_slice(), &lines[..]);
    Ok(())
}

/// Takes one byte a call, and fails at one call: by an error of a kind, or else by taking no byte.
#[derive(Drop)]
struct Slow {
    bytes: Vec<u8>,
    calls: u64,
    fail_at: u64,
    kind: Option<ErrorKind>,
    failures: u64,
    error: Option<ErrorKind>,
}

impl CountedWrite for Slow {
    ghost taken = { λ w. w.bytes.items };

    ghost failed = { λ w. w.failures };

    ghost error = { λ w. w.error };

    fn write(&mut self, bytes: &[u8]) -> io::Result<usize> {
        self.calls = self.calls.saturating_add(1);
        let byte = match bytes.first() {
            Some(byte) if self.calls != self.fail_at => *byte,
            _ => {
                self.failures += 1;
                self.error = self.kind;
                return match self.kind {
                    Some(kind) => Err(io::Error::from(kind)),
                    None => Ok(0),
                };
            }
        };
        if self.bytes.push(byte).is_err() {
            self.failures += 1;
            self.error = Some(ErrorKind::OutOfMemory);
            return Err(io::Error::from(ErrorKind::OutOfMemory));
        }
        Ok(1)
    }

    fn failures(&self) -> u64 {
        self.failures
    }

    fn written(&self) -> u64 {
        self.bytes.len() as u64
    }
}

#[test]
fn tells_how_much_went_out(rt: HostRuntime) -> Result<(), Fail> {
    let line = b"Z 9 live\n";
    for kind in [None, Some(ErrorKind::Interrupted), Some(ErrorKind::Other)] {
        for fail_at in 1..11u64 {
            let mut slow = Slow {
                bytes: Vec::new(rt.alloc()),
                calls: 0,
                fail_at,
                kind,
                failures: 0,
                error: None,
            };
            match write_all_counted(&mut slow, line) {
                Ok(()) => {
                    assert_eq!(rt; fail_at, 10);
                    assert_eq!(rt; slow.bytes.as_slice(), &line[..]);
                    assert_eq!(rt; slow.failures(), 0);
                }
                Err((written, error)) => {
                    assert_eq!(rt; written as u64 + 1, fail_at);
                    assert_eq!(rt; slow.bytes.as_slice(), &line[..written]);
                    assert_eq!(rt; slow.failures(), 1);
                    assert_eq!(rt; error.kind(), kind.unwrap_or(ErrorKind::WriteZero));
                }
            }
            assert_eq!(rt; slow.calls, fail_at.min(9));
        }
    }
    Ok(())
}

#[test]
fn writes_no_bytes_without_a_write(rt: HostRuntime) -> Result<(), Fail> {
    let mut slow = Slow {
        bytes: Vec::new(rt.alloc()),
        calls: 0,
        fail_at: 1,
        kind: None,
        failures: 0,
        error: None,
    };
    assert!(rt; write_all_counted(&mut slow, b"").is_ok());
    assert_eq!(rt; slow.calls, 0);
    Ok(())
}

#[test]
fn counts_the_failures_of_any_writer(rt: HostRuntime) -> Result<(), Fail> {
    let mut short = [0u8; 4];
    let mut counting = Counting::new(&mut short[..]);
    match write_all_counted(&mut counting, b"Z 9 live\n") {
        Ok(()) => assert!(rt; false),
        Err((written, error)) => {
            assert_eq!(rt; written, 4);
            assert_eq!(rt; error.kind(), ErrorKind::WriteZero);
        }
    }
    assert_eq!(rt; counting.failures(), 1);
    Ok(())
}

/// Takes all bytes, counts its calls and its flushes, and fails at one call.
#[derive(Drop)]
struct Tired {
    calls: u64,
    flushes: u64,
    fail_at: u64,
    kind: ErrorKind,
}

impl io::Write for Tired {
    fn write(&mut self, bytes: &[u8]) -> io::Result<usize> {
        self.calls = self.calls.saturating_add(1);
        if self.calls == self.fail_at {
            return Err(io::Error::from(self.kind));
        }
        Ok(bytes.len())
    }

    fn flush(&mut self) -> io::Result<()> {
        self.flushes = self.flushes.saturating_add(1);
        Ok(())
    }
}

/// Writes a line once, and answers the failures that were counted, and the kind of the error.
fn write_once(tired: &mut Tired) -> (u64, Option<ErrorKind>) {
    let mut counting = Counting::new(tired);
    let kind = match counting.write(b"Z 9 live\n") {
        Ok(_) => None,
        Err(error) => Some(error.kind()),
    };
    (counting.failures(), kind)
}

// No clause says how often the writer inside is called.
#[test]
fn a_write_is_one_call_of_the_writer_inside(rt: HostRuntime) -> Result<(), Fail> {
    for kind in [
        ErrorKind::Interrupted,
        ErrorKind::WouldBlock,
        ErrorKind::Other,
    ] {
        for fail_at in 1..5u64 {
            let mut tired = Tired {
                calls: 0,
                flushes: 0,
                fail_at,
                kind,
            };
            for number in 1..5u64 {
                let wanted = match number == fail_at {
                    true => (1, Some(kind)),
                    false => (0, None),
                };
                assert_eq!(rt; write_once(&mut tired), wanted);
                assert_eq!(rt; tired.calls, number);
                assert_eq!(rt; tired.flushes, 0);
            }
        }
    }
    Ok(())
}

#[test]
fn writes_to_standard_output(rt: HostRuntime) -> Result<(), Fail> {
    let mut counting = Counting::new(io::writer(&rt));
    assert!(rt; write_all_counted(&mut counting, b"").is_ok());
    assert_eq!(rt; counting.failures(), 0);
    Ok(())
}

/// A line of each kind, by its number.
fn put_line<A: Allocator>(out: &mut Vec<u8, A>, kind: usize) -> Result<(), Memory> {
    let place = Place {
        packet: 1,
        message: 2,
        entry: 3,
    };
    let levels = [level(-25_000_000, 7), level(i64::MIN, i32::MAX)];
    let totals = [total(i64::MAX, i64::MAX), total(i64::MIN, i64::MIN)];
    let direct = with_direct(&levels, &levels);
    let head = Head::new(at(u32::MAX, u64::MAX), &name("A NAME OF 20 LETTERS"));
    match kind {
        0 => put_direct(out, &head, &direct),
        1 => put_implied(out, &head, &with_implied(&levels, &[])),
        2 => put_consolidated(out, &head, &totals, &totals),
        3 => put_fault(out, at(1, 2), &name("A NAME OF 20 LETTERS"), &place),
        4 => put_audit(
            out,
            at(u32::MAX, u64::MAX),
            &name("A NAME OF 20 LETTERS"),
            Verdict::EqualLess,
            Verdict::EqualMore,
        ),
        5 => put_jump(out, u64::MAX, u64::MAX),
        6 => put_refusal(out, Feed::S, u32::MAX, Refusal::SnapshotLevels),
        _ => put_last(out, u64::MAX, true),
    }
}

/// Appends a line with each allocation refused in turn, and answers how many were.
fn refuse_each(rt: &impl Abort, alloc: Global, kind: usize) -> Result<u64, Fail> {
    let mut whole = Vec::from_slice(alloc, b"J 1 2\n")?;
    assert!(rt; put_line(&mut whole, kind).is_ok());
    for number in 2..20u64 {
        let heap = Refusing::new(alloc, number);
        let mut out = Vec::from_slice(&heap, b"J 1 2\n")?;
        if put_line(&mut out, kind).is_ok() {
            assert_eq!(rt; out.as_slice(), whole.as_slice());
            assert!(rt; !heap.has_refused());
            return Ok(number - 2);
        }
        assert_eq!(rt; out.as_slice(), &b"J 1 2\n"[..]);
        assert!(rt; heap.has_refused());
    }
    assert!(rt; false);
    Ok(0)
}

#[test]
fn keeps_the_vector_where_memory_runs_out(rt: HostRuntime) -> Result<(), Fail> {
    // the lines of good books go out in pieces, so that a later growth finds some of the line in place
    for kind in 0..3usize {
        assert!(rt; refuse_each(&rt, rt.alloc(), kind)? > 1);
    }
    for kind in 3..8usize {
        assert!(rt; refuse_each(&rt, rt.alloc(), kind)? > 0);
    }
    Ok(())
}
