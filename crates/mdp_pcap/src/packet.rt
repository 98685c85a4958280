//! The frames of packet records and packet blocks.

ghost use Rattle.std.specs.Prelude.{◌≡◌, ◌≤◌, length, IfOk};
ghost use Rattle.mdp_pcap.specs.Block.{packet_in, packet_record, enhanced_packet, simple_packet, snapped};
ghost use Rattle.mdp_pcap.specs.Placing.{said_in, IsInside};

use crate::block::Block;
use crate::layout::{Interface, PcapFault};
use crate::link::{Link, link_of};
use crate::number::{Endianness, number32};

/// Where the captured bytes of a frame stand in a block.
#[derive(Clone, Copy, Debug, PartialEq, Eq)]
pub(crate) struct Packet {
    /// The link layer of the frame.
    pub(crate) link: Link,
    /// The offset of its first byte.
    pub(crate) start: usize,
    /// The number of its captured bytes.
    pub(crate) captured: usize,
    /// How many bytes it had on the wire.
    pub(crate) original: u32,
}

/// Where a kind of block has the captured bytes of its frame: from an offset on, with so many bytes after them.
#[derive(Clone, Copy)]
pub(crate) struct Body {
    start: usize,
    tail: usize,
}

/// That of a record of a classic pcap.
const RECORD: Body = Body { start: 16, tail: 0 };
/// That of an enhanced packet block.
const ENHANCED: Body = Body { start: 28, tail: 4 };
/// That of a simple packet block.
const SIMPLE: Body = Body { start: 12, tail: 4 };

/// Reads a record of a classic pcap.
pub(crate) fn packet_record(
    order: Endianness,
    interface: Option<Interface>,
    block: &[u8],
) -> Result<Block, PcapFault>
    requires { 16 ≤ length block.now }
    ensures said { said_in block.now result ≡ packet_record order interface block.now }
    ensures inside { IfOk result (IsInside block.now) }
{
    let Some(interface) = interface else {
        return Err(PcapFault::RecordSize);
    };
    let captured = number32(order, block, 8) as usize;
    let original = number32(order, block, 12);
    packet_in(RECORD, captured, original, interface, block)
}

/// Reads an enhanced packet block.
pub(crate) fn enhanced_packet(
    order: Endianness,
    interface: Option<Interface>,
    block: &[u8],
) -> Result<Block, PcapFault>
    requires { 32 ≤ length block.now }
    ensures said { said_in block.now result ≡ enhanced_packet order interface block.now }
    ensures inside { IfOk result (IsInside block.now) }
{
    let Some(interface) = interface else {
        return Err(PcapFault::RecordSize);
    };
    let captured = number32(order, block, 20) as usize;
    let original = number32(order, block, 24);
    packet_in(ENHANCED, captured, original, interface, block)
}

/// Reads a simple packet block.
pub(crate) fn simple_packet(
    order: Endianness,
    interface: Option<Interface>,
    block: &[u8],
) -> Result<Block, PcapFault>
    requires { 16 ≤ length block.now }
    ensures said { said_in block.now result ≡ simple_packet order interface block.now }
    ensures inside { IfOk result (IsInside block.now) }
{
    let Some(interface) = interface else {
        return Err(PcapFault::RecordSize);
    };
    let original = number32(order, block, 8);
    let captured = snapped(interface.snap_length, original) as usize;
    packet_in(SIMPLE, captured, original, interface, block)
}

fn snapped(snap_length: u32, original: u32) -> u32
    ensures { result ≡ snapped snap_length original }
{
    if snap_length == 0 {
        return original;
    }
    snap_length.min(original)
}

// Reads a frame of so many captured bytes, of so many on the wire.
fn packet_in(
    body: Body,
    captured: usize,
    original: u32,
    interface: Interface,
    block: &[u8],
) -> Result<Block, PcapFault>
    requires starts { body.start ≤ 28 }
    requires tails { body.tail ≤ 4 }
    ensures said { said_in block.now result ≡ packet_in body captured original interface block.now }
    ensures inside { IfOk result (IsInside block.now) }
{
    if captured > 262_144 {
        return Err(PcapFault::RecordSize);
    }
    if block.len() < body.start + captured + body.tail {
        return Err(PcapFault::RecordSize);
    }
    let Some(link) = link_of(interface.link_type) else {
        return Err(PcapFault::LinkType);
    };
    Ok(Block::Packet(Packet {
        link,
        start: body.start,
        captured,
        original,
    }))
}
