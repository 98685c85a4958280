//! The headers of a file and of a section, and the blocks of a section.

ghost use Rattle.std.specs.Prelude.{◌≡◌, ◌==◌, ◌≤◌, ◌-◌, length, slice_get, IfOk};
ghost use Rattle.mdp_pcap.specs.Number.{number_in};
ghost use Rattle.mdp_pcap.specs.Block.{file_header_in, new_section, section_block};
ghost use Rattle.mdp_pcap.specs.Placing.{said_in, IsInside};

use crate::block::Block;
use crate::layout::{Interface, PcapFault, section_order};
use crate::number::{Endianness, big32, number16, number32};
use crate::packet::{enhanced_packet, simple_packet};

/// Reads the header of a classic pcap.
pub(crate) fn file_header(order: Endianness, block: &[u8]) -> Result<Block, PcapFault>
    requires { 24 ≤ length block.now }
    ensures said { said_in block.now result ≡ file_header_in order block.now }
    ensures inside { IfOk result (IsInside block.now) }
{
    if number16(order, block, 4) != 2 {
        return Err(PcapFault::NotPcap);
    }
    if number16(order, block, 6) != 4 {
        return Err(PcapFault::NotPcap);
    }
    let interface = Interface {
        link_type: (number32(order, block, 20) % 65536) as u16,
        snap_length: number32(order, block, 16),
    };
    Ok(Block::FileHeader(order, interface))
}

/// Reads a section header block; the fault is that of what is none.
pub(crate) fn new_section(fault: PcapFault, block: &[u8]) -> Result<Block, PcapFault>
    ensures said { said_in block.now result ≡ new_section fault block.now }
    ensures inside { IfOk result (IsInside block.now) }
{
    if block.len() < 28 {
        return Err(PcapFault::RecordSize);
    }
    let Some(order) = section_order(big32(block, 8)) else {
        return Err(fault);
    };
    if !is_closed(order, block) {
        return Err(PcapFault::RecordSize);
    }
    if number16(order, block, 12) != 1 {
        return Err(fault);
    }
    Ok(Block::SectionHeader(order))
}

/// Answers whether a block ends with its total length.
pub(crate) fn is_closed(order: Endianness, block: &[u8]) -> bool
    requires { 4 ≤ length block.now }
    ensures { result ≡ (number_in order (length block.now - 4) 4 block.now == length block.now) }
{
    number32(order, block, block.len() - 4) as usize == block.len()
}

/// Reads a block of a section that is no section header.
pub(crate) fn section_block(
    order: Endianness,
    interfaces: &[Interface],
    block: &[u8],
) -> Result<Block, PcapFault>
    requires { 12 ≤ length block.now }
    ensures said { said_in block.now result ≡ section_block order interfaces.now block.now }
    ensures inside { IfOk result (IsInside block.now) }
{
    match number32(order, block, 0) {
        1 => {
            if block.len() < 20 {
                return Err(PcapFault::RecordSize);
            }
            let interface = Interface {
                link_type: number16(order, block, 8),
                snap_length: number32(order, block, 12),
            };
            Ok(Block::InterfaceDescription(interface))
        }
        3 => {
            if block.len() < 16 {
                return Err(PcapFault::RecordSize);
            }
            simple_packet(order, interfaces.first().copied(), block)
        }
        6 => {
            if block.len() < 32 {
                return Err(PcapFault::RecordSize);
            }
            let id = number32(order, block, 8) as usize;
            enhanced_packet(order, interface_at(interfaces, id), block)
        }
        _ => Ok(Block::Skipped),
    }
}

// Gives the interface of a number.
fn interface_at(interfaces: &[Interface], id: usize) -> Option<Interface>
    ensures { result ≡ slice_get interfaces.now id }
{
    interfaces.get(id).copied()
}
