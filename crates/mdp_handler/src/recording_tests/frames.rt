//! Puts recordings together.

use mdp_capture::{Capture, CountingReader, read_capture};
use std::alloc::{AllocError, Global};
use std::test::Fail;

/// The link type of Ethernet.
pub const ETHERNET: u16 = 1;

/// A link type that is not read.
pub const UNREAD: u16 = 147;

/// A multicast group and a port.
pub type Address = ([u8; 4], u16);

/// The address of feed A.
pub const A: Address = ([224, 0, 31, 1], 14310);
/// The address of feed B.
pub const B: Address = ([224, 0, 32, 1], 15310);
/// The address of the snapshot feed.
pub const S: Address = ([224, 0, 31, 43], 14310);

/// Packet 3, a heartbeat.
pub const PACKET_3: &[u8] =
    b"\x03\x00\x00\x00\0\0\0\0\0\0\0\0\x0a\x00\x00\x00\x0c\x00\x01\x00\x09\x00";

/// A frame of Ethernet with a UDP datagram over IPv4.
#[derive(Clone, Copy)]
pub struct Frame<'a> {
    /// Where the datagram is sent to.
    to: Address,
    /// What it carries.
    payload: &'a [u8],
    /// The flags and the offset of a fragment.
    fragment: u16,
    /// How much longer the datagram says that it is than it is.
    longer: u16,
    /// How many bytes of the frame were captured, at most.
    captured: usize,
}

impl<'a> Frame<'a> {
    /// Makes a whole datagram to an address.
    pub fn to(to: Address, payload: &'a [u8]) -> Frame<'a> {
        Frame {
            to,
            payload,
            fragment: 0,
            longer: 0,
            captured: usize::MAX,
        }
    }

    /// The same, of which so many bytes were captured at most.
    pub fn cut_to(self, captured: usize) -> Frame<'a> {
        Frame { captured, ..self }
    }

    /// The same with these flags and this offset of a fragment.
    pub fn with_fragment(self, fragment: u16) -> Frame<'a> {
        Frame { fragment, ..self }
    }

    /// The same with a datagram that says that it is longer by so much.
    pub fn longer_by(self, longer: u16) -> Frame<'a> {
        Frame { longer, ..self }
    }

    // Gives the bytes that the frame had on the wire.
    fn bytes(self, alloc: Global) -> Result<Vec<u8>, AllocError> {
        let (group, port) = self.to;
        let payload = u16::try_from(self.payload.len()).unwrap_or(u16::MAX);
        let size = payload.saturating_add(8);
        let mut frame = Vec::new(alloc);
        frame.extend_from_slice(b"\x01\x00\x5e\x00\x1f\x01\x02\x00\x00\x00\x00\x01\x08\x00")?;
        frame.extend_from_slice(b"\x45\x00")?;
        frame.extend_from_slice(&size.saturating_add(20).to_be_bytes())?;
        frame.extend_from_slice(b"\x00\x07")?;
        frame.extend_from_slice(&self.fragment.to_be_bytes())?;
        frame.extend_from_slice(b"\x10\x11\x00\x00\x0a\x00\x00\x01")?;
        frame.extend_from_slice(&group)?;
        frame.extend_from_slice(b"\x9c\x40")?;
        frame.extend_from_slice(&port.to_be_bytes())?;
        frame.extend_from_slice(&size.saturating_add(self.longer).to_be_bytes())?;
        frame.extend_from_slice(b"\x00\x00")?;
        frame.extend_from_slice(self.payload)?;
        Ok(frame)
    }

    /// Appends the frame to a classic pcap.
    pub fn append(self, file: &mut Vec<u8>) -> Result<(), AllocError> {
        let frame = self.bytes(*file.allocator())?;
        let captured = self.captured.min(frame.len());
        append_sizes(file, captured, frame.len())?;
        file.extend_from_slice(&frame[..captured])
    }

    /// Appends the frame to a pcapng, as one of this interface.
    pub fn append_enhanced(self, file: &mut Vec<u8>, interface: u32) -> Result<(), AllocError> {
        let frame = self.bytes(*file.allocator())?;
        let mut body = Vec::new(*file.allocator());
        body.extend_from_slice(&interface.to_le_bytes())?;
        append_sizes(&mut body, frame.len(), frame.len())?;
        body.extend_from_slice(&frame)?;
        append_block(file, 6, &body)
    }
}

/// Appends a time of 0, and how many bytes were captured of how many.
pub fn append_sizes(
    file: &mut Vec<u8>,
    captured: usize,
    original: usize,
) -> Result<(), AllocError> {
    file.extend_from_slice(&[0; 8])?;
    for size in [captured, original] {
        let size = u32::try_from(size).unwrap_or(u32::MAX);
        file.extend_from_slice(&size.to_le_bytes())?;
    }
    Ok(())
}

/// Gives the header of a classic pcap.
pub fn header(alloc: Global, link: u16) -> Result<Vec<u8>, AllocError> {
    let mut file = Vec::new(alloc);
    file.extend_from_slice(b"\xd4\xc3\xb2\xa1\x02\x00\x04\x00")?;
    file.extend_from_slice(&[0; 8])?;
    file.extend_from_slice(b"\x00\x00\x04\x00")?;
    file.extend_from_slice(&u32::from(link).to_le_bytes())?;
    Ok(file)
}

// Appends a block of a pcapng.
fn append_block(file: &mut Vec<u8>, kind: u32, body: &[u8]) -> Result<(), AllocError> {
    let words = body.len().div_ceil(4);
    let padded = words.saturating_mul(4);
    let size = u32::try_from(padded.saturating_add(12)).unwrap_or(u32::MAX);
    file.extend_from_slice(&kind.to_le_bytes())?;
    file.extend_from_slice(&size.to_le_bytes())?;
    file.extend_from_slice(body)?;
    for _ in body.len()..padded {
        file.push(0)?;
    }
    file.extend_from_slice(&size.to_le_bytes())
}

/// Appends the header of a section of a pcapng.
pub fn append_section(file: &mut Vec<u8>) -> Result<(), AllocError> {
    let body = b"\x4d\x3c\x2b\x1a\x01\x00\x00\x00\xff\xff\xff\xff\xff\xff\xff\xff";
    append_block(file, 0x0a0d_0d0a, body)
}

/// Appends an interface of this link type to a pcapng.
pub fn append_interface(file: &mut Vec<u8>, link: u16) -> Result<(), AllocError> {
    append_block(file, 1, &u64::from(link).to_le_bytes())
}

// Reads a capture.
fn read(alloc: Global, text: &[u8]) -> Result<Capture<Global>, Fail> {
    let mut input = CountingReader::new(text);
    match read_capture(alloc, &mut input) {
        Ok(capture) => Ok(capture),
        Err(_) => Err("the capture is refused".into()),
    }
}

/// Gives a recording of a capture's datagrams: those of A, then of B, then of S.
pub fn recording_of(alloc: Global, capture: &[u8]) -> Result<Vec<u8>, Fail> {
    let capture = read(alloc, capture)?;
    let mut file = header(alloc, ETHERNET)?;
    for (to, records) in [(A, capture.a()), (B, capture.b()), (S, capture.s())] {
        for record in records {
            Frame::to(to, record.bytes().unwrap_or(&[])).append(&mut file)?;
        }
    }
    Ok(file)
}

/// Gives the payload of a capture's first datagram on feed A.
pub fn first_of(alloc: Global, capture: &[u8]) -> Result<Vec<u8>, Fail> {
    let capture = read(alloc, capture)?;
    let first = capture.a().first().ok_or("no datagram")?;
    let payload = Vec::from_slice(alloc, first.bytes().unwrap_or(&[]))?;
    Ok(payload)
}
