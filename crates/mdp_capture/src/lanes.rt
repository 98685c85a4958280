//! Digits in lanes: the 32 digits of sixteen bytes are decoded at once.

ghost use Rattle.std.specs.Prelude.{◌≡◌, ◌+◌, ◌*◌, ◌≤◌, ◌<◌, ℕ, length, slice_index, true, Ok};
ghost use Rattle.hex.specs.Hex.{decode_of};
ghost use Rattle.mdp_capture.specs.Digits.{AreBelow16, AreValues, SpellBetween, pair_at};

use std::simd::prelude::*;

/// How many bytes are decoded at once.
pub(crate) const LANES: usize = 16;
/// The odd places of two vectors.
const ODD: [usize; 16] = [1, 3, 5, 7, 9, 11, 13, 15, 17, 19, 21, 23, 25, 27, 29, 31];

// Gives the value of each digit, and 16 or more for what is none.
#[inline(always)]
fn values_of(digits: u8x16) -> u8x16
    ensures { AreValues digits result }
{
    let ten = u8x16::splat(10);
    // `0` to `9` become 246 to 255 and all else 6 to 245: with ten more, 0 to 9 and from 16 on.
    let decimal = (digits - u8x16::splat(b'9' + 1)).simd_max(u8x16::splat(6)) + ten;
    // `A` to `F` of either case become 0 to 5 and all else 6 to 245: with ten more, 10 to 15 and from 16 on.
    let letter = (digits & u8x16::splat(0xdf)) - u8x16::splat(b'A');
    decimal.simd_min(letter.simd_min(u8x16::splat(245)) + ten)
}

// Returns whether all lanes of two vectors are below 16.
#[inline(always)]
fn are_below_16(first: u8x16, second: u8x16) -> bool
    ensures { result ≡ true → AreBelow16 first × AreBelow16 second }
{
    ((first | second) & u8x16::splat(0xf0)).reduce_or() == 0
}

// Puts each two values together, the first of which counts sixteen times, in every second lane: the upper half of a
// product by 16 * 256 + 1.
#[inline(always)]
fn pairs_in(values: u8x16) -> u8x16
    requires { AreBelow16 values }
    ensures len { length result ≡ 16 }
    ensures pairs { (i : ℕ) → i < 8 → slice_index result (2 * i + 1) ≡ pair_at values i }
{
    (u16x8::from_le_bytes(values) * u16x8::splat(4097)).to_le_bytes()
}

// Gives the bytes that two vectors of values spell, one behind the other.
#[inline(always)]
fn bytes_of(first: u8x16, second: u8x16) -> u8x16
    requires first { AreBelow16 first }
    requires second { AreBelow16 second }
    ensures len { length result ≡ 16 }
    ensures first { (i : ℕ) → i < 8 → slice_index result i ≡ pair_at first i }
    ensures second { (i : ℕ) → i < 8 → slice_index result (8 + i) ≡ pair_at second i }
{
    pairs_in(first).shuffle(pairs_in(second), ODD)
}

// Writes sixteen bytes from a place on, and returns whether their 32 digits are digits.
#[inline(always)]
fn put_sixteen(digits: &[u8], at: usize, bytes: &mut [u8]) -> bool
    requires digits { 2 * at + 32 ≤ length digits.now }
    requires bytes { at + 16 ≤ length bytes.old }
    ensures before { (k : ℕ) → k < at → slice_index bytes.new k ≡ slice_index bytes.old k }
    ensures len { length bytes.new ≡ length bytes.old }
    ensures spelt { result ≡ true → SpellBetween digits.now bytes.new at (at + 16) }
{
    let first = values_of(u8x16::from_slice(&digits[2 * at..]));
    let second = values_of(u8x16::from_slice(&digits[2 * at + LANES..]));
    if !are_below_16(first, second) {
        return false;
    }
    bytes_of(first, second).copy_to_slice(&mut bytes[at..]);
    true
}

/// Writes the bytes that digits spell, sixteen or more, and returns whether they are digits. The last sixteen are
/// decoded together, so that some are mostly written twice.
pub(crate) fn put_lanes(digits: &[u8], bytes: &mut [u8]) -> bool
    requires twice { length digits.now ≡ 2 * length bytes.old }
    requires enough { LANES ≤ length bytes.old }
    ensures { result ≡ true → decode_of digits.now ≡ Ok bytes.new }
{
    let last = bytes.len() - LANES;
    let mut at = 0;
    while at < last {
        if !put_sixteen(digits, at, bytes) {
            return false;
        }
        at += LANES;
    }
    put_sixteen(digits, last, bytes)
}
