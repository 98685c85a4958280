//! Numbers at an offset of a text.

ghost use Rattle.std.specs.Prelude.{◌≡◌, ◌≤◌, ◌+◌, length};
ghost use Rattle.mdp_pcap.specs.Number.{big_at, little_at, number_in};

use byteorder::{BigEndian, ByteOrder, LittleEndian};

/// The order of the bytes of a number: that of the machine that wrote the file.
#[derive(Clone, Copy, Debug, PartialEq, Eq)]
pub(crate) enum Endianness {
    /// The lowest byte first.
    Little,
    /// The highest byte first.
    Big,
}

/// Reads the 16 bits at an offset, the highest byte first.
pub(crate) fn big16(text: &[u8], offset: usize) -> u16
    requires { offset + 2 ≤ length text.now }
    ensures { result ≡ big_at offset 2 text.now }
{
    BigEndian::read_u16(&text[offset..])
}

/// Reads the 32 bits at an offset, the highest byte first.
pub(crate) fn big32(text: &[u8], offset: usize) -> u32
    requires { offset + 4 ≤ length text.now }
    ensures { result ≡ big_at offset 4 text.now }
{
    BigEndian::read_u32(&text[offset..])
}

// Reads the 16 bits at an offset, the lowest byte first.
fn little16(text: &[u8], offset: usize) -> u16
    requires { offset + 2 ≤ length text.now }
    ensures { result ≡ little_at offset 2 text.now }
{
    LittleEndian::read_u16(&text[offset..])
}

// Reads the 32 bits at an offset, the lowest byte first.
fn little32(text: &[u8], offset: usize) -> u32
    requires { offset + 4 ≤ length text.now }
    ensures { result ≡ little_at offset 4 text.now }
{
    LittleEndian::read_u32(&text[offset..])
}

/// Reads the 16 bits at an offset, in the order of a file.
pub(crate) fn number16(order: Endianness, text: &[u8], offset: usize) -> u16
    requires { offset + 2 ≤ length text.now }
    ensures { result ≡ number_in order offset 2 text.now }
{
    match order {
        Endianness::Little => little16(text, offset),
        Endianness::Big => big16(text, offset),
    }
}

/// Reads the 32 bits at an offset, in the order of a file.
pub(crate) fn number32(order: Endianness, text: &[u8], offset: usize) -> u32
    requires { offset + 4 ≤ length text.now }
    ensures { result ≡ number_in order offset 4 text.now }
{
    match order {
        Endianness::Little => little32(text, offset),
        Endianness::Big => big32(text, offset),
    }
}
