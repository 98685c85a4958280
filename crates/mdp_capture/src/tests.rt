//! Captures as their texts say, and readers that fail or give little at a time; captures whose lines threads read.

mod costs;
mod decoder;
mod instruments;
mod lanes;
mod over_threads;

ghost use Rattle.std.specs.Prelude.{◌≡◌, None};

use crate::{
    Capture, CaptureFault, CaptureRefusal, CountedRead, CountingReader, Record, Skip, SkippedLine,
    read_capture,
};
use mdp_templates::{Instrument, InstrumentKind, are_fit};
use std::alloc::Global;
use std::io;
use std::process::Abort;
use std::test::Fail;

fn read(alloc: Global, text: &str) -> Result<Capture<Global>, CaptureFault> {
    read_capture(alloc, &mut CountingReader::new(text.as_bytes()))
}

/// What a record says: the number of its line, and the bytes of its datagram, or none at a close.
type Said<'a> = (u32, Option<&'a [u8]>);

// Returns whether a record says this.
fn is_said(record: &Record<Global>, said: Said<'_>) -> bool {
    let (line, bytes) = said;
    record.line() == line && record.bytes() == bytes
}

// Sees that the records say this, in this order.
fn are_said(rt: &impl Abort, records: &[Record<Global>], wanted: &[Said<'_>]) {
    assert_eq!(rt; records.len(), wanted.len());
    for (record, said) in records.iter().zip(wanted) {
        assert!(rt; is_said(record, *said));
    }
}

// Sees that these lines are skipped, in this order, each for this.
fn are_skipped(rt: &impl Abort, lines: &[SkippedLine], wanted: &[(u32, Skip)]) {
    assert_eq!(rt; lines.len(), wanted.len());
    for (line, (number, skip)) in lines.iter().zip(wanted) {
        assert_eq!(rt; line.line, *number);
        assert_eq!(rt; line.skip, *skip);
    }
}

/// An instrument: its id, its name, what it is, and its depth.
type Listed<'a> = (i32, &'a str, InstrumentKind, u8);

// Sees that these instruments are listed, in this order.
fn are_listed(rt: &impl Abort, instruments: &[Instrument], wanted: &[Listed<'_>]) {
    assert_eq!(rt; instruments.len(), wanted.len());
    for (instrument, (id, name, kind, depth)) in instruments.iter().zip(wanted) {
        assert_eq!(rt; instrument.id, *id);
        assert_eq!(rt; instrument.name.as_str(), *name);
        assert_eq!(rt; instrument.kind, *kind);
        assert_eq!(rt; instrument.depth, *depth);
    }
    assert!(rt; are_fit(instruments));
}

// Reads a text that lists so many instruments, and of which these lines are skipped.
fn skips(
    rt: &impl Abort,
    alloc: Global,
    text: &str,
    instruments: usize,
    wanted: &[(u32, Skip)],
) -> Result<(), CaptureFault> {
    let capture = read(alloc, text)?;
    assert_eq!(rt; capture.instruments().len(), instruments);
    are_skipped(rt, capture.skipped(), wanted);
    Ok(())
}

// A text that begins as given and goes on with this many digits.
fn with_digits(alloc: Global, front: &str, digits: usize) -> Result<String, Fail> {
    let mut text = String::from_str(alloc, front)?;
    for _ in 0..digits {
        text.push('0')?;
    }
    Ok(text)
}

#[test]
fn reads_one_record(rt: HostRuntime) -> Result<(), Fail> {
    let capture = read(rt.alloc(), "I 1 N O\nA 00")?;
    let instruments = [(1, "N", InstrumentKind::Outright, 10)];
    are_listed(&rt, capture.instruments(), &instruments);
    are_said(&rt, capture.a(), &[(2, Some(&[0u8]))]);
    are_said(&rt, capture.b(), &[]);
    are_said(&rt, capture.s(), &[]);
    are_skipped(&rt, capture.skipped(), &[]);
    Ok(())
}

#[test]
fn reads_each_kind_of_line(rt: HostRuntime) -> Result<(), Fail> {
    let text =
        "I 1 NEAR O\r\n\nI 2147483647 12345678901234567890 O\nI 3 CAL C 1 2147483647\nA aF\nS 01\nB 0203\nX\n";
    let spread = InstrumentKind::Calendar {
        leg1: 1,
        leg2: 2147483647,
    };
    let instruments = [
        (1, "NEAR", InstrumentKind::Outright, 10),
        (
            2147483647,
            "12345678901234567890",
            InstrumentKind::Outright,
            10,
        ),
        (3, "CAL", spread, 10),
    ];
    let capture = read(rt.alloc(), text)?;
    are_listed(&rt, capture.instruments(), &instruments);
    are_said(&rt, capture.a(), &[(5, Some(&[175u8]))]);
    are_said(&rt, capture.b(), &[(7, Some(&[2u8, 3]))]);
    are_said(&rt, capture.s(), &[(6, Some(&[1u8])), (8, None)]);
    are_skipped(&rt, capture.skipped(), &[]);
    Ok(())
}

#[test]
fn reads_depths(rt: HostRuntime) -> Result<(), Fail> {
    let text = "I 1 N O 1\nI 2 M O 10\nI 3 L O\nI 4 CAL C 1 2\n";
    let spread = InstrumentKind::Calendar { leg1: 1, leg2: 2 };
    let instruments = [
        (1, "N", InstrumentKind::Outright, 1),
        (2, "M", InstrumentKind::Outright, 10),
        (3, "L", InstrumentKind::Outright, 10),
        (4, "CAL", spread, 10),
    ];
    let capture = read(rt.alloc(), text)?;
    are_listed(&rt, capture.instruments(), &instruments);
    are_skipped(&rt, capture.skipped(), &[]);
    Ok(())
}

#[test]
fn skips_other_depths(rt: HostRuntime) -> Result<(), Fail> {
    let text =
        "I 1 N O\nI 2 M O\nI 3 L O 0\nI 3 L O 11\nI 3 L O 05\nI 3 L O 5 5\nI 3 L O \nI 3 S C 1 2 10\n";
    let wanted = [
        (3, Skip::LineForm),
        (4, Skip::LineForm),
        (5, Skip::LineForm),
        (6, Skip::LineForm),
        (7, Skip::LineForm),
        (8, Skip::LineForm),
    ];
    skips(&rt, rt.alloc(), text, 2, &wanted)?;
    Ok(())
}

#[test]
fn drops_one_carriage_return(rt: HostRuntime) -> Result<(), Fail> {
    let alloc = rt.alloc();
    skips(&rt, alloc, "I 1 N O\nA 00\r\r\n", 1, &[(2, Skip::Hex)])?;
    // With no line feed behind it a carriage return belongs to the line.
    skips(&rt, alloc, "I 1 N O\r\nA 00\r", 1, &[(2, Skip::Hex)])?;
    Ok(())
}

#[test]
fn skips_other_forms(rt: HostRuntime) -> Result<(), Fail> {
    let wanted = [
        (2, Skip::LineForm),
        (3, Skip::LineForm),
        (4, Skip::LineForm),
        (5, Skip::LineForm),
    ];
    skips(&rt, rt.alloc(), "I 1 N O\nA  00\na 00\nX \nA", 1, &wanted)?;
    Ok(())
}

#[test]
fn a_skipped_line_makes_no_instrument_late(rt: HostRuntime) -> Result<(), Fail> {
    skips(&rt, rt.alloc(), "A 0\nI 1 N O", 1, &[(1, Skip::Hex)])?;
    Ok(())
}

#[test]
fn refuses_instruments(rt: HostRuntime) {
    let rows = [
        ("I 1 N O\nA 00\nI 1 N O", 3, CaptureRefusal::InstrumentLate),
        ("I 1 N O\nI 3 S C 1 1", 2, CaptureRefusal::UnknownLeg),
        ("I 1 N O\nI 2 N O", 2, CaptureRefusal::DuplicateId),
        ("I 1 NEAR O\nI 1 FAR O", 2, CaptureRefusal::DuplicateId),
        (
            "I 01 N O\nI 2147483648 M O",
            0,
            CaptureRefusal::NoInstrument,
        ),
        ("", 0, CaptureRefusal::NoInstrument),
    ];
    for (text, line, refusal) in rows {
        let fault = read(rt.alloc(), text).err();
        assert_eq!(rt; fault, Some(CaptureFault::Refused { line, refusal }));
    }
}

// Reads a datagram of so many digits, and sees that it has so many bytes, or that it is skipped for this.
fn takes_digits(
    rt: &impl Abort,
    alloc: Global,
    digits: usize,
    wanted: Result<usize, Skip>,
) -> Result<(), Fail> {
    let text = with_digits(alloc, "I 1 N O\nA ", digits)?;
    let capture = read(alloc, text.as_str())?;
    match wanted {
        Ok(length) => {
            assert_eq!(rt; capture.a().len(), 1);
            let bytes = capture.a()[0].bytes();
            assert_eq!(rt; bytes.map_or(0, |bytes| bytes.len()), length);
        }
        Err(skip) => are_skipped(rt, capture.skipped(), &[(2, skip)]),
    }
    Ok(())
}

#[test]
fn takes_the_longest_datagram(rt: HostRuntime) -> Result<(), Fail> {
    takes_digits(&rt, rt.alloc(), 4096, Ok(2048))?;
    takes_digits(&rt, rt.alloc(), 4097, Err(Skip::Hex))?;
    takes_digits(&rt, rt.alloc(), 4098, Err(Skip::TooLong))
}

#[test]
fn refuses_the_513th_instrument(rt: HostRuntime) -> Result<(), Fail> {
    let mut text = String::new(rt.alloc());
    for id in 1..=513u32 {
        write!(text, "I {id} N{id} O\n")?;
    }
    let many = CaptureFault::Refused {
        line: 513,
        refusal: CaptureRefusal::TooMany,
    };
    assert_eq!(rt; read(rt.alloc(), text.as_str()).err(), Some(many));
    Ok(())
}

#[test]
fn tells_numbers_and_names(rt: HostRuntime) -> Result<(), Fail> {
    assert_eq!(rt; Skip::Hex.number(), 22);
    assert_eq!(rt; Skip::Hex.name(), "Hex");
    assert_eq!(rt; CaptureRefusal::NoInstrument.number(), 34);
    assert_eq!(rt; CaptureRefusal::NoInstrument.name(), "None");
    let fault = CaptureFault::Refused {
        line: 7,
        refusal: CaptureRefusal::UnknownLeg,
    };
    assert_eq!(rt;
        format!(in rt.alloc(); "{fault}")?.as_str(),
        "line 7: 32 UnknownLeg"
    );
    let fault = CaptureFault::Refused {
        line: 0,
        refusal: CaptureRefusal::NoInstrument,
    };
    assert_eq!(rt; format!(in rt.alloc(); "{fault}")?.as_str(), "34 None");
    let fault = CaptureFault::Memory;
    assert_eq!(rt; format!(in rt.alloc(); "{fault}")?.as_str(), "41 Memory");
    assert!(rt; Record::<Global>::close(3).bytes().is_none());
    Ok(())
}

// Gives at most so many bytes a call, and fails at one call.
#[derive(Drop)]
struct Slow<'a> {
    text: &'a [u8],
    step: usize,
    fail_at: u64,
    failures: u64,
    left: u64,
}

impl CountedRead for Slow<'_> {
    ghost rest = { λ _. None };

    ghost failed = { λ r. r.failures };

    ghost left = { λ r. r.left };

    fn read(&mut self, buf: &mut [u8]) -> io::Result<usize> {
        let call = u64::MAX - self.left;
        if self.left == 0 || call == self.fail_at {
            self.failures += 1;
            self.left = self.left.saturating_sub(1);
            return Err(io::Error::from(io::ErrorKind::Interrupted));
        }
        self.left -= 1;
        let count = self.step.min(self.text.len()).min(buf.len());
        buf[..count].copy_from_slice(&self.text[..count]);
        self.text = &self.text[count..];
        Ok(count)
    }

    fn failures(&self) -> u64 {
        self.failures
    }
}

// Gives a text in pieces of this size, and fails at one call.
fn slow_reader(text: &str, step: usize, fail_at: u64) -> Slow<'_>
    ensures { result.failures ≡ 0 }
{
    Slow {
        text: text.as_bytes(),
        step,
        fail_at,
        failures: 0,
        left: u64::MAX,
    }
}

// Reads a capture, and answers the fault, if there is one, and how many reads failed.
fn fault_of(alloc: Global, mut slow: Slow<'_>) -> (Option<CaptureFault>, u64)
    requires { slow.failures ≡ 0 }
{
    let fault = read_capture(alloc, &mut slow).err();
    (fault, slow.failures())
}

// Returns whether two records are of one line and say the same.
fn is_same(one: &Record<Global>, other: &Record<Global>) -> bool {
    is_said(one, (other.line(), other.bytes()))
}

// Sees that the records are the same.
fn are_same_records(rt: &impl Abort, some: &[Record<Global>], others: &[Record<Global>]) {
    assert_eq!(rt; some.len(), others.len());
    for (one, other) in some.iter().zip(others) {
        assert!(rt; is_same(one, other));
    }
}

/// Sees that two captures list as many instruments, and have the same records and skipped lines.
fn are_same(rt: &impl Abort, one: &Capture<Global>, other: &Capture<Global>) {
    assert_eq!(rt; one.instruments().len(), other.instruments().len());
    are_same_records(rt, one.a(), other.a());
    are_same_records(rt, one.b(), other.b());
    are_same_records(rt, one.s(), other.s());
    assert_eq!(rt; one.skipped(), other.skipped());
}

// Reads a text in pieces of this size, and sees that the capture is the same.
fn is_read_slowly(
    rt: &impl Abort,
    alloc: Global,
    at_once: &Capture<Global>,
    text: &str,
    step: usize,
) -> Result<(), CaptureFault> {
    let slowly = read_capture(alloc, &mut slow_reader(text, step, u64::MAX))?;
    are_same(rt, at_once, &slowly);
    Ok(())
}

const TEXT: &str = "I 1 NEAR O\r\nI 2 FAR O\nI 3 CAL C 1 2\n\nA 0102\nQ\nB ff\nS 7\nX";

#[test]
fn one_byte_at_a_time_is_the_same(rt: HostRuntime) -> Result<(), Fail> {
    skips(
        &rt,
        rt.alloc(),
        TEXT,
        3,
        &[(6, Skip::LineForm), (8, Skip::Hex)],
    )?;
    let at_once = read(rt.alloc(), TEXT)?;
    is_read_slowly(&rt, rt.alloc(), &at_once, TEXT, 1)?;
    Ok(())
}

#[test]
fn a_failed_read_is_told(rt: HostRuntime) {
    // The last read finds the end.
    let reads = TEXT.len() as u64 + 1;
    for call in 0..reads {
        let told = fault_of(rt.alloc(), slow_reader(TEXT, 1, call));
        assert_eq!(rt; told, (Some(CaptureFault::Input), 1));
    }
    let told = fault_of(rt.alloc(), slow_reader(TEXT, 1, reads));
    assert_eq!(rt; told, (None, 0));
}

#[test]
fn a_reader_without_reads_fails(rt: HostRuntime) {
    let spent = Slow {
        left: 10,
        ..slow_reader(TEXT, 1, u64::MAX)
    };
    let told = fault_of(rt.alloc(), spent);
    assert_eq!(rt; told, (Some(CaptureFault::Input), 1));
}

#[test]
fn a_reader_that_counts_has_no_failure(rt: HostRuntime) {
    let mut counting = CountingReader::new(TEXT.as_bytes());
    assert!(rt; read_capture(rt.alloc(), &mut counting).is_ok());
    assert_eq!(rt; counting.failures(), 0);
}

// Lines that repeat the digits of the line before, or nearly do.
const REPEATS: &str = concat!(
    "I 1 N O\nA 0a0B\nB 0a0B\nA 0a0b\nS 0a0b\nX\nS 0a0b\nB 0\nA 0\nB 00 \n",
    "A 00 01\nB 00 01\nA 0001\nB 0002\nB 0002\r\nA 0002\r\nB 00020\nA 00\nC 00\n\nB 00\nB 0"
);

#[test]
fn a_repeat_is_what_its_line_says(rt: HostRuntime) -> Result<(), Fail> {
    let capture = read(rt.alloc(), REPEATS)?;
    let a: [Said<'_>; 5] = [
        (2, Some(&[10u8, 11])),
        (4, Some(&[10u8, 11])),
        (13, Some(&[0u8, 1])),
        (16, Some(&[0u8, 2])),
        (18, Some(&[0u8])),
    ];
    are_said(&rt, capture.a(), &a);
    let b: [Said<'_>; 4] = [
        (3, Some(&[10u8, 11])),
        (14, Some(&[0u8, 2])),
        (15, Some(&[0u8, 2])),
        (21, Some(&[0u8])),
    ];
    are_said(&rt, capture.b(), &b);
    let s: [Said<'_>; 3] = [(5, Some(&[10u8, 11])), (6, None), (7, Some(&[10u8, 11]))];
    are_said(&rt, capture.s(), &s);
    Ok(())
}

#[test]
fn a_repeat_is_skipped_as_its_line_says(rt: HostRuntime) -> Result<(), Fail> {
    let lines = [
        (8, Skip::Hex),
        (9, Skip::Hex),
        (10, Skip::LineForm),
        (11, Skip::LineForm),
        (12, Skip::LineForm),
        (17, Skip::Hex),
        (19, Skip::LineForm),
        (22, Skip::Hex),
    ];
    skips(&rt, rt.alloc(), REPEATS, 1, &lines)?;
    Ok(())
}

#[test]
fn pieces_of_each_size_are_the_same(rt: HostRuntime) -> Result<(), Fail> {
    let at_once = read(rt.alloc(), REPEATS)?;
    for step in 1..=REPEATS.len() {
        is_read_slowly(&rt, rt.alloc(), &at_once, REPEATS, step)?;
    }
    Ok(())
}
