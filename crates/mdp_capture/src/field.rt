//! The fields of a line.

ghost use Rattle.std.specs.Prelude.{◌≡◌, ◌≤◌, ◌∷◌, [], IfSome};
ghost use Rattle.std.specs.Str.{bytes_eq};
ghost use Rattle.mdp_capture.specs.Parsed.{fields_left};
ghost use Rattle.mdp_capture.specs.Line.{fields, is_digit, is_number, number_of, id_of, depth_of, is_graphic, is_name, name_of};
ghost use Rattle.std.specs.List.{list_all};

use arrayvec::ArrayString;
use mdp_templates::{DIRECT_DEPTH, Name};
use memchr::memchr;

const LARGEST_ID: u32 = 2147483647;

/// Lends the first field of a text, and the text after the space behind it, if there is one.
pub(crate) fn next_field(text: &[u8]) -> (&[u8], Option<&[u8]>)
    ensures { fields text.now ≡ result.0.now ∷ fields_left result.1 }
{
    match memchr(b' ', text) {
        Some(end) => (&text[..end], Some(&text[end + 1..])),
        None => (text, None),
    }
}

/// Returns whether a field is this one letter.
pub(crate) fn is_letter(field: &[u8], letter: u8) -> bool
    ensures { result ≡ bytes_eq field.now (letter ∷ []) }
{
    field == [letter].as_slice()
}

/// Returns the id that a field spells, a decimal number from 1 to 2147483647 without sign or leading zero.
pub(crate) fn id_of(field: &[u8]) -> Option<i32>
    ensures { result ≡ id_of field.now }
{
    let id = number_of(field, LARGEST_ID)?;
    Some(id as i32)
}

/// Returns the depth that a field spells, a decimal number from 1 to 10 without sign or leading zero.
pub(crate) fn depth_of(field: &[u8]) -> Option<u8>
    ensures { result ≡ depth_of field.now }
{
    let depth = number_of(field, DIRECT_DEPTH as u32)?;
    Some(depth as u8)
}

// Returns the decimal number from 1 to the most that a field spells, without sign or leading zero.
fn number_of(field: &[u8], most: u32) -> Option<u64>
    ensures is { result ≡ number_of most field.now }
    ensures few { IfSome result (λ number. number ≤ most) }
{
    if !is_number(field) {
        return None;
    }
    let most = most as u64;
    let mut number = 0u64;
    for digit in field {
        number = number * 10 + u64::from(digit - b'0');
        if number > most {
            return None;
        }
    }
    if number == 0 { None } else { Some(number) }
}

// Returns whether a field has decimal digits alone and no leading zero.
fn is_number(field: &[u8]) -> bool
    ensures { result ≡ is_number field.now }
{
    match field {
        [b'0', ..] => false,
        _ => has_digits_alone(field),
    }
}

// Returns whether each byte of a field is a decimal digit.
fn has_digits_alone(field: &[u8]) -> bool
    ensures { result ≡ list_all is_digit field.now }
{
    field.iter().all(|byte| byte.is_ascii_digit())
}

/// Gives the name that a field spells, 1 to 20 bytes, each from 33 to 126.
pub(crate) fn name_of(field: &[u8]) -> Option<Name>
    ensures { result ≡ name_of field.now }
{
    if !is_name(field) {
        return None;
    }
    let text = str::from_utf8(field).ok()?;
    let text = ArrayString::from(text).ok()?;
    Some(Name::new(text))
}

// Returns whether a field has 1 to 20 bytes, each from 33 to 126.
fn is_name(field: &[u8]) -> bool
    ensures { result ≡ is_name field.now }
{
    !field.is_empty() && field.len() <= 20 && is_graphic(field)
}

// Returns whether each byte of a field is a visible ASCII character, 33 to 126.
fn is_graphic(field: &[u8]) -> bool
    ensures { result ≡ list_all is_graphic field.now }
{
    field.iter().all(|byte| byte.is_ascii_graphic())
}
