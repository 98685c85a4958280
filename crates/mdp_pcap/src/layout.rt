//! What was read of a file, and how many bytes its next block has.

ghost use Rattle.std.specs.Prelude.{◌≡◌, ◌≤◌, ◌+◌, length, IfOk, ℕ};
ghost use Rattle.mdp_pcap.specs.Extent.{needed, file_order, section_order, is_section_header};
ghost use Rattle.mdp_pcap.specs.Extent.{record_length, block_length, section_length};

use crate::number::{Endianness, big32, number32};

/// Why a file is not read on.
#[derive(Clone, Copy, Debug, PartialEq, Eq)]
pub enum PcapFault {
    /// It has fewer than 4 bytes, or begins as neither pcap of version 2.4 nor pcapng of major version 1 does.
    NotPcap,
    /// A frame has a link type that is not read.
    LinkType,
    /// A frame has more than 262,144 captured bytes, a block more than 16 MiB or lengths that contradict one another;
    /// or it names an interface that no description has; or a later section has no known byte order or version.
    RecordSize,
    /// The input ends inside a header, a record or a block.
    CutShort,
}

impl PcapFault {
    ghost use Rattle.mdp_pcap.specs.Fault.{pcap_fault_name, pcap_fault_number};

    /// Gives the number that is printed, from 71 to 74.
    pub fn number(self) -> u8
        ensures { result ≡ pcap_fault_number self }
    {
        match self {
            PcapFault::NotPcap => 71,
            PcapFault::LinkType => 72,
            PcapFault::RecordSize => 73,
            PcapFault::CutShort => 74,
        }
    }

    /// Lends the name that is printed, in ASCII letters.
    pub fn name(self) -> &'static str
        ensures { result.now ≡ pcap_fault_name self }
    {
        match self {
            PcapFault::NotPcap => "NotPcap",
            PcapFault::LinkType => "LinkType",
            PcapFault::RecordSize => "RecordSize",
            PcapFault::CutShort => "CutShort",
        }
    }
}

/// What follows in a file.
#[derive(Clone, Copy, Debug, PartialEq, Eq)]
pub(crate) enum Layout {
    /// A file header, or the header of a first section.
    Start,
    /// The records of a classic pcap of this byte order.
    Records(Endianness),
    /// The blocks of a section of this byte order.
    Blocks(Endianness),
}

/// An interface on which frames were captured.
#[derive(Clone, Copy, Debug, PartialEq, Eq)]
pub(crate) struct Interface {
    /// The link type of its frames.
    pub(crate) link_type: u16,
    /// The most bytes that are captured of a frame, or 0 for all of them.
    pub(crate) snap_length: u32,
}

/// Gives the byte order of a classic pcap by its magic number.
pub(crate) fn file_order(magic: u32) -> Option<Endianness>
    ensures { result ≡ file_order magic }
{
    match magic {
        0xa1b2_c3d4 => Some(Endianness::Big),
        0xa1b2_3c4d => Some(Endianness::Big),
        0xd4c3_b2a1 => Some(Endianness::Little),
        0x4d3c_b2a1 => Some(Endianness::Little),
        _ => None,
    }
}

/// Gives the byte order of a section by its byte-order magic.
pub(crate) fn section_order(magic: u32) -> Option<Endianness>
    ensures { result ≡ section_order magic }
{
    match magic {
        0x1a2b_3c4d => Some(Endianness::Big),
        0x4d3c_2b1a => Some(Endianness::Little),
        _ => None,
    }
}

/// Answers whether a block is a section header.
pub(crate) fn is_section_header(text: &[u8]) -> bool
    requires { 4 ≤ length text.now }
    ensures { result ≡ is_section_header text.now }
{
    big32(text, 0) == 0x0a0d_0d0a
}

// Gives how many bytes a record has of which so many were captured.
fn record_length(captured: usize) -> Result<usize, PcapFault>
    ensures { result ≡ record_length captured }
{
    if captured > 262_144 {
        return Err(PcapFault::RecordSize);
    }
    Ok(16 + captured)
}

// Gives how many bytes a block has by its total length.
fn block_length(total: usize) -> Result<usize, PcapFault>
    ensures { result ≡ block_length total }
{
    if total < 12 {
        return Err(PcapFault::RecordSize);
    }
    if total > 16_777_216 {
        return Err(PcapFault::RecordSize);
    }
    if total % 4 == 0 {
        return Ok(total);
    }
    Err(PcapFault::RecordSize)
}

// Gives how many bytes a section header has.
fn section_length(fault: PcapFault, text: &[u8]) -> Result<usize, PcapFault>
    requires { 4 ≤ length text.now }
    ensures { result ≡ section_length fault text.now }
{
    if text.len() < 12 {
        return Ok(12);
    }
    match section_order(big32(text, 8)) {
        Some(order) => block_length(number32(order, text, 4) as usize),
        None => Err(fault),
    }
}

/// Gives how many bytes the block at the front of a text has, or where there are too few to tell that, how many tell
/// more.
pub(crate) fn needed(layout: Layout, text: &[u8]) -> Result<usize, PcapFault>
    ensures { result ≡ needed layout text.now }
{
    match layout {
        Layout::Start => needed_first(text),
        Layout::Records(order) => {
            if text.len() < 16 {
                return Ok(16);
            }
            record_length(number32(order, text, 8) as usize)
        }
        Layout::Blocks(order) => {
            if text.len() < 8 {
                return Ok(8);
            }
            if is_section_header(text) {
                return section_length(PcapFault::RecordSize, text);
            }
            block_length(number32(order, text, 4) as usize)
        }
    }
}

// The same of the first bytes of a file.
fn needed_first(text: &[u8]) -> Result<usize, PcapFault>
    ensures { result ≡ needed Layout.Start text.now }
{
    if text.len() < 4 {
        return Ok(4);
    }
    if is_section_header(text) {
        return section_length(PcapFault::NotPcap, text);
    }
    if file_order(big32(text, 0)).is_some() {
        return Ok(24);
    }
    Err(PcapFault::NotPcap)
}
