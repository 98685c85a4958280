//! The parts of a line, and the numbers that they spell.

ghost use Rattle.std.specs.Prelude.{◌≡◌, ◌∷◌, false, true, MatchOption};
ghost use Rattle.std.specs.List.{list_all};
ghost use Rattle.mdp_capture.specs.Line.{is_digit, is_number};
ghost use Rattle.mdp_channel.specs.Address.{byte_of, parts, parts_left, port_of};

use memchr::memchr;

/// Lends what stands before the first of a byte, and what stands behind it, if the text has one.
pub(crate) fn cut_at(byte: u8, text: &[u8]) -> (&[u8], Option<&[u8]>)
    ensures { parts byte text.now ≡ result.0.now ∷ parts_left byte result.1 }
{
    match memchr(byte, text) {
        Some(end) => (&text[..end], Some(&text[end + 1..])),
        None => (text, None),
    }
}

/// Gives the port that a field spells, a decimal number from 1 to 65535 without sign or leading zero.
pub(crate) fn port_of(field: &[u8]) -> Option<u16>
    ensures { result ≡ port_of field.now }
{
    let text = number_text(field)?;
    text.parse::<u16>().ok()
}

/// Gives the byte that a field spells, a decimal number from 0 to 255 without sign or leading zero.
pub(crate) fn byte_of(field: &[u8]) -> Option<u8>
    ensures { result ≡ byte_of field.now }
{
    if field == b"0".as_slice() {
        return Some(0);
    }
    let text = number_text(field)?;
    text.parse::<u8>().ok()
}

// Lends a field as text, if it has decimal digits alone and no leading zero.
fn number_text(field: &[u8]) -> Option<&str>
    ensures { MatchOption result (is_number field.now ≡ false)
        (λ text. (is_number field.now ≡ true) × (text.now ≡ field.now)) }
{
    if !is_number(field) {
        return None;
    }
    str::from_utf8(field).ok()
}

// Returns whether a field has decimal digits alone and no leading zero.
fn is_number(field: &[u8]) -> bool
    ensures { result ≡ is_number field.now }
{
    !field.starts_with(b"0") && has_digits_alone(field)
}

// Returns whether each byte of a field is a decimal digit.
fn has_digits_alone(field: &[u8]) -> bool
    ensures { result ≡ list_all is_digit field.now }
{
    field.iter().all(|byte| byte.is_ascii_digit())
}
