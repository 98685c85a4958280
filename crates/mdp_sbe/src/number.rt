//! Little-endian numbers at an offset of a text.

ghost use Rattle.std.specs.Prelude.{◌≡◌, ◌≤◌, ◌+◌, length};
ghost use Rattle.mdp_sbe.specs.Number.{number_at, int32_at, int64_at};

use byteorder::{ByteOrder, LittleEndian};

/// Reads the `uint16` at an offset.
pub(crate) fn u16_at(text: &[u8], offset: usize) -> u16
    requires { offset + 2 ≤ length text.now }
    ensures { result ≡ number_at offset 2 text.now }
{
    LittleEndian::read_u16(&text[offset..])
}

/// Reads the `uint32` at an offset.
pub fn u32_at(text: &[u8], offset: usize) -> u32
    requires { offset + 4 ≤ length text.now }
    ensures { result ≡ number_at offset 4 text.now }
{
    LittleEndian::read_u32(&text[offset..])
}

/// Reads the `uint64` at an offset.
pub(crate) fn u64_at(text: &[u8], offset: usize) -> u64
    requires { offset + 8 ≤ length text.now }
    ensures { result ≡ number_at offset 8 text.now }
{
    LittleEndian::read_u64(&text[offset..])
}

/// Reads the `int32` at an offset, in two's complement.
pub fn i32_at(text: &[u8], offset: usize) -> i32
    requires { offset + 4 ≤ length text.now }
    ensures { result ≡ int32_at offset text.now }
{
    LittleEndian::read_i32(&text[offset..])
}

/// Reads the `int64` at an offset, in two's complement.
pub fn i64_at(text: &[u8], offset: usize) -> i64
    requires { offset + 8 ≤ length text.now }
    ensures { result ≡ int64_at offset text.now }
{
    LittleEndian::read_i64(&text[offset..])
}
