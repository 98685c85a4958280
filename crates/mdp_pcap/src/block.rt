//! The blocks of a file: headers, records and blocks.

ghost use Rattle.std.specs.Prelude.{◌≡◌, ◌≤◌, [], length, IfOk};
ghost use Rattle.mdp_pcap.specs.Block.{block_of};
ghost use Rattle.mdp_pcap.specs.File.{front_of};
ghost use Rattle.mdp_pcap.specs.Placing.{said_in, IsInside, front_in, IsFrontInside};

use crate::layout::{Interface, Layout, PcapFault, file_order, is_section_header, needed};
use crate::number::{Endianness, big32};
use crate::packet::{Packet, packet_record};
use crate::section::{file_header, is_closed, new_section, section_block};

/// What a whole block says.
#[derive(Clone, Copy, Debug, PartialEq, Eq)]
pub(crate) enum Block {
    /// A classic pcap of this byte order begins, with frames of this interface.
    FileHeader(Endianness, Interface),
    /// A section of this byte order begins.
    SectionHeader(Endianness),
    /// The section has this interface too.
    InterfaceDescription(Interface),
    /// A frame.
    Packet(Packet),
    /// Nothing that is read.
    Skipped,
}

/// What stands at the front of a text.
#[derive(Clone, Copy, Debug, PartialEq, Eq)]
pub(crate) enum Front {
    /// The beginning of a block: before it is whole, or tells its length, so many bytes must be there.
    Unfinished(usize),
    /// No block.
    Faulty(PcapFault),
    /// A whole block of so many bytes.
    Whole(usize, Block),
}

/// Reads a whole block.
fn block_of(layout: Layout, interfaces: &[Interface], block: &[u8]) -> Result<Block, PcapFault>
    requires { 12 ≤ length block.now }
    ensures said { said_in block.now result ≡ block_of layout interfaces.now block.now }
    ensures inside { IfOk result (IsInside block.now) }
{
    match layout {
        Layout::Start => first_block(block),
        Layout::Records(order) => {
            if block.len() < 16 {
                return Err(PcapFault::RecordSize);
            }
            packet_record(order, interfaces.first().copied(), block)
        }
        Layout::Blocks(order) => {
            if is_section_header(block) {
                return new_section(PcapFault::RecordSize, block);
            }
            if !is_closed(order, block) {
                return Err(PcapFault::RecordSize);
            }
            section_block(order, interfaces, block)
        }
    }
}

// Reads the first block of a file.
fn first_block(block: &[u8]) -> Result<Block, PcapFault>
    requires { 12 ≤ length block.now }
    ensures said { said_in block.now result ≡ block_of Layout.Start [] block.now }
    ensures inside { IfOk result (IsInside block.now) }
{
    if is_section_header(block) {
        return new_section(PcapFault::NotPcap, block);
    }
    if block.len() < 24 {
        return Err(PcapFault::RecordSize);
    }
    let Some(order) = file_order(big32(block, 0)) else {
        return Err(PcapFault::NotPcap);
    };
    file_header(order, block)
}

/// Reads what stands at the front of a text.
pub(crate) fn front_of(layout: Layout, interfaces: &[Interface], text: &[u8]) -> Front
    ensures said { front_in text.now result ≡ front_of layout interfaces.now text.now }
    ensures inside { IsFrontInside text.now result }
{
    match needed(layout, text) {
        Err(fault) => Front::Faulty(fault),
        Ok(count) => {
            if text.len() < count {
                return Front::Unfinished(count);
            }
            match block_of(layout, interfaces, &text[..count]) {
                Ok(block) => Front::Whole(count, block),
                Err(fault) => Front::Faulty(fault),
            }
        }
    }
}
