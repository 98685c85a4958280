//! Digits in lanes, against the `hex` crate.

ghost use Rattle.std.specs.Prelude.{◌<◌};

use crate::blocks::Blocks;
use std::alloc::{AllocError, Allocator};
use std::test::Fail;

// The 32 digits of sixteen bytes, with letters of both cases.
const DIGITS: &[u8; 32] = b"0123456789abcdefABCDEF9876543210";

// The digits of a hundred bytes, with letters of both cases.
const LONG: &str = concat!(
    "00112233445566778899aabbccddeeffAABBCCDDEEFF0f1e2d3c4b5a6978",
    "8796A5B4C3D2E1F0fedcba9876543210FEDCBA98aAbBcCdDeEfF09AF09af",
    "123456789abcdef0123456789ABCDEF0fFfFfFfF0000000099999999aaaa",
    "AAAAffffFFFF09090909"
);

// Whether these digits are decoded as `hex` decodes them.
fn is_as_hex<A: Allocator + Copy>(
    alloc: A,
    blocks: &mut Blocks<A>,
    digits: &[u8],
) -> Result<bool, AllocError> {
    match blocks.decode(alloc, digits)? {
        Some(bytes) => match hex::decode(alloc, digits) {
            Ok(wanted) => Ok(bytes.as_slice() == wanted.as_slice()),
            Err(_) => Ok(false),
        },
        None => Ok(hex::decode(alloc, digits).is_err()),
    }
}

// Whether each byte at one place among digits is taken as `hex` takes it.
fn is_each_byte_as_hex<A: Allocator + Copy>(alloc: A, place: usize) -> Result<bool, AllocError>
    requires { place < 32 }
{
    let mut blocks = Blocks::new(alloc);
    let mut digits = *DIGITS;
    for byte in 0..=255u8 {
        digits[place] = byte;
        if !is_as_hex(alloc, &mut blocks, &digits)? {
            return Ok(false);
        }
    }
    Ok(true)
}

#[test]
fn each_byte_at_each_place_is_as_hex_has_it(rt: HostRuntime) -> Result<(), Fail> {
    for place in 0..32 {
        assert!(rt; is_each_byte_as_hex(rt.alloc(), place)?);
    }
    Ok(())
}

#[test]
fn digits_of_each_number_are_as_hex_has_them(rt: HostRuntime) -> Result<(), Fail> {
    let mut blocks = Blocks::new(rt.alloc());
    let digits = LONG.as_bytes();
    assert_eq!(rt; digits.len(), 200);
    assert!(rt; blocks.decode(rt.alloc(), &digits[..0])?.is_none());
    for count in 1..=digits.len() {
        assert!(rt; is_as_hex(rt.alloc(), &mut blocks, &digits[..count])?);
    }
    Ok(())
}
