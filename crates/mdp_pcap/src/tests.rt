//! Samples of captured traffic, in pieces of several sizes, against what tshark finds in them; and
//! each allocation refused in turn.

mod samples;

ghost use Rattle.std.specs.Prelude.{◌<◌};

use crate::{
    CapturedFrame, FeedAddress, FeedAddresses, FrameOutcome, Halt, PcapFault, PcapReader,
    TakesFrames,
};
use mdp_templates::Feed;
use refusing::Refusing;
use std::alloc::{AllocError, Global};
use std::process::Abort;
use std::test::Fail;

/// A line for each frame of a feed.
#[derive(Drop)]
struct Lines {
    addresses: FeedAddresses<Global>,
    text: String,
}

impl TakesFrames for Lines {
    type Stop = AllocError;

    ghost Beside = { Unit {0} };

    ghost holds = { λ _ _ _. Unit {0} };

    fn take(&mut self, number: u32, frame: CapturedFrame<'_>) -> Result<(), AllocError> {
        match self.addresses.outcome_of(frame) {
            FrameOutcome::NoFeed => Ok(()),
            FrameOutcome::Datagram(feed, payload) => put_datagram(
                &mut self.text,
                number,
                feed,
                payload,
            ),
            FrameOutcome::TooLong(feed) => put(&mut self.text, number, "long", Some(feed)),
            FrameOutcome::Cut(feed) => put(&mut self.text, number, "cut", feed),
            FrameOutcome::Fragment(feed) => put(&mut self.text, number, "fragment", feed),
            FrameOutcome::Broken(feed) => put(&mut self.text, number, "broken", Some(feed)),
        }
    }
}

fn put(text: &mut String, number: u32, what: &str, feed: Option<Feed>) -> Result<(), AllocError> {
    match feed {
        Some(feed) => write!(text, "{number} {what} {feed:?}\n")?,
        None => write!(text, "{number} {what} -\n")?,
    }
    Ok(())
}

fn put_datagram(
    text: &mut String,
    number: u32,
    feed: Feed,
    payload: &[u8],
) -> Result<(), AllocError> {
    write!(text, "{number} datagram {feed:?}")?;
    if !payload.is_empty() {
        text.push(' ')?;
    }
    for byte in payload {
        write!(text, "{byte:02x}")?;
    }
    text.push('\n')?;
    Ok(())
}

fn addresses(alloc: Global) -> Result<FeedAddresses<Global>, Fail> {
    let mut addresses = FeedAddresses::new(alloc);
    addresses.add(FeedAddress {
        feed: Feed::A,
        group: 0xe000_1f01,
        port: 14310,
    })?;
    addresses.add(FeedAddress {
        feed: Feed::B,
        group: 0xe000_2001,
        port: 14310,
    })?;
    addresses.add(FeedAddress {
        feed: Feed::S,
        group: 0xe000_1f2b,
        port: 14310,
    })?;
    Ok(addresses)
}

// Reads a file in pieces of a size, and gives the lines and how it ends.
fn read(alloc: Global, file: &[u8], size: usize) -> Result<(String, Option<PcapFault>), Fail>
    requires { 0 < size }
{
    let mut reader = PcapReader::new(alloc);
    let mut lines = Lines {
        addresses: addresses(alloc)?,
        text: String::new(alloc),
    };
    for piece in file.chunks(size) {
        match reader.take_piece(piece, &mut lines) {
            Ok(()) => {}
            Err(Halt::Memory) => return Err(Fail::from(AllocError)),
            Err(Halt::Stop(stop)) => return Err(Fail::from(stop)),
        }
    }
    Ok((lines.text, reader.ending()))
}

// Reads a sample in pieces of 1, 7 and 4,096 bytes.
fn agrees(alloc: Global, file: &[u8], frames: &str, ends: Option<PcapFault>) -> Result<bool, Fail> {
    for size in [1, 7, 4096] {
        let (text, ending) = read(alloc, file, size)?;
        if text.as_str() != frames {
            return Ok(false);
        }
        if ending != ends {
            return Ok(false);
        }
    }
    Ok(true)
}

#[test]
fn reads_a_big_endian_pcap(rt: HostRuntime) -> Result<(), Fail> {
    assert!(rt;
        agrees(
            rt.alloc(),
            &samples::BIG_ENDIAN,
            samples::BIG_ENDIAN_FRAMES,
            None
        )?
    );
    Ok(())
}

#[test]
fn reads_a_pcapng_of_editcap(rt: HostRuntime) -> Result<(), Fail> {
    assert!(rt; agrees(rt.alloc(), &samples::EDITCAP, samples::EDITCAP_FRAMES, None)?);
    Ok(())
}

#[test]
fn reads_nanoseconds(rt: HostRuntime) -> Result<(), Fail> {
    assert!(rt;
        agrees(
            rt.alloc(),
            &samples::NANOSECONDS,
            samples::NANOSECONDS_FRAMES,
            None
        )?
    );
    Ok(())
}

#[test]
fn reads_big_endian_nanoseconds(rt: HostRuntime) -> Result<(), Fail> {
    assert!(rt;
        agrees(
            rt.alloc(),
            &samples::BIG_NANOSECONDS,
            samples::BIG_NANOSECONDS_FRAMES,
            None
        )?
    );
    Ok(())
}

#[test]
fn reads_linux_cooked_frames(rt: HostRuntime) -> Result<(), Fail> {
    assert!(rt; agrees(rt.alloc(), &samples::COOKED, samples::COOKED_FRAMES, None)?);
    Ok(())
}

#[test]
fn reads_linux_cooked_frames_of_version_2(rt: HostRuntime) -> Result<(), Fail> {
    assert!(rt; agrees(rt.alloc(), &samples::COOKED2, samples::COOKED2_FRAMES, None)?);
    Ok(())
}

#[test]
fn reads_raw_ip(rt: HostRuntime) -> Result<(), Fail> {
    assert!(rt; agrees(rt.alloc(), &samples::RAW, samples::RAW_FRAMES, None)?);
    Ok(())
}

#[test]
fn reads_two_sections_of_two_orders(rt: HostRuntime) -> Result<(), Fail> {
    assert!(rt;
        agrees(
            rt.alloc(),
            &samples::SECTIONS,
            samples::SECTIONS_FRAMES,
            None
        )?
    );
    Ok(())
}

#[test]
fn reads_simple_packets_that_a_snap_length_cut(rt: HostRuntime) -> Result<(), Fail> {
    assert!(rt; agrees(rt.alloc(), &samples::SNAPPED, samples::SNAPPED_FRAMES, None)?);
    Ok(())
}

#[test]
fn reads_the_whole_frames_of_a_file_that_was_cut(rt: HostRuntime) -> Result<(), Fail> {
    let ends = Some(PcapFault::CutShort);
    assert!(rt;
        agrees(
            rt.alloc(),
            &samples::CUT_SHORT,
            samples::CUT_SHORT_FRAMES,
            ends
        )?
    );
    Ok(())
}

/// A pcapng with an interface of Ethernet and one of raw IP, a frame of each, and a simple packet.
const TWO_INTERFACES: &[u8] = b"\
\x0a\x0d\x0d\x0a\x1c\x00\x00\x00\x4d\x3c\x2b\x1a\x01\x00\x00\x00\
\xff\xff\xff\xff\xff\xff\xff\xff\x1c\x00\x00\x00\
\x01\x00\x00\x00\x14\x00\x00\x00\x01\x00\x00\x00\x00\x00\x00\x00\x14\x00\x00\x00\
\x01\x00\x00\x00\x14\x00\x00\x00\x65\x00\x00\x00\x00\x00\x00\x00\x14\x00\x00\x00\
\x06\x00\x00\x00\x50\x00\x00\x00\x00\x00\x00\x00\x00\x00\x00\x00\x00\x00\x00\x00\
\x2d\x00\x00\x00\x2d\x00\x00\x00\
\x01\x00\x5e\x00\x1f\x01\x02\x00\x00\x00\x00\x01\x08\x00\
\x45\x00\x00\x1f\x00\x07\x00\x00\x10\x11\x00\x00\x0a\x00\x00\x01\xe0\x00\x1f\x01\
\x9c\x40\x37\xe6\x00\x0b\x00\x00one\x00\x00\x00\x50\x00\x00\x00\
\x06\x00\x00\x00\x40\x00\x00\x00\x01\x00\x00\x00\x00\x00\x00\x00\x00\x00\x00\x00\
\x1f\x00\x00\x00\x1f\x00\x00\x00\
\x45\x00\x00\x1f\x00\x07\x00\x00\x10\x11\x00\x00\x0a\x00\x00\x01\xe0\x00\x20\x01\
\x9c\x40\x37\xe6\x00\x0b\x00\x00two\x00\x40\x00\x00\x00\
\x03\x00\x00\x00\x40\x00\x00\x00\x2d\x00\x00\x00\
\x01\x00\x5e\x00\x1f\x2b\x02\x00\x00\x00\x00\x01\x08\x00\
\x45\x00\x00\x1f\x00\x07\x00\x00\x10\x11\x00\x00\x0a\x00\x00\x01\xe0\x00\x1f\x2b\
\x9c\x40\x37\xe6\x00\x0b\x00\x00six\x00\x00\x00\x40\x00\x00\x00";

/// Its frames.
const TWO_INTERFACES_FRAMES: &str =
    "1 datagram A 6f6e65\n2 datagram B 74776f\n3 datagram S 736978\n";

/// How the file ends where memory suffices, or why it wasn't read to its end.
type Ends = Result<Option<PcapFault>, Halt<AllocError>>;

// Reads it in pieces of 7 bytes until memory runs out, and gives the frames that were handed on,
// and how it ends.
fn read_two_interfaces(alloc: Global, heap: &Refusing<Global>) -> Result<(String, Ends), Fail> {
    let mut reader = PcapReader::new(heap);
    let mut lines = Lines {
        addresses: addresses(alloc)?,
        text: String::new(alloc),
    };
    for piece in TWO_INTERFACES.chunks(7) {
        if let Err(halt) = reader.take_piece(piece, &mut lines) {
            return Ok((lines.text, Err(halt)));
        }
    }
    Ok((lines.text, Ok(reader.ending())))
}

#[test]
fn want_of_memory_halts_behind_the_first_frames(rt: HostRuntime) -> Result<(), Fail> {
    for number in 1..100u64 {
        let heap = Refusing::new(rt.alloc(), number);
        let (text, ends) = read_two_interfaces(rt.alloc(), &heap)?;
        if !heap.has_refused() {
            assert_eq!(rt; ends, Ok(None));
            assert_eq!(rt; text.as_str(), TWO_INTERFACES_FRAMES);
            assert!(rt; number > 3);
            return Ok(());
        }
        assert_eq!(rt; ends, Err(Halt::Memory));
        assert!(rt; TWO_INTERFACES_FRAMES.starts_with(text.as_str()));
    }
    Err("an allocation is always refused".into())
}
