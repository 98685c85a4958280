//! An instrument as a caller in C lists it.

ghost use Rattle.std.specs.Prelude.{◌≡◌, ◌≤◌, IfSome, length, take};
ghost use Rattle.std.specs.List.{list_all};
ghost use Rattle.mdp_capture.specs.Line.{calendar_of, is_graphic, is_name, name_of, outright_of};
ghost use Rattle.mdp_templates.specs.Instrument.{HasDepth};
ghost use Rattle.mdp_session.specs.Listed.{calendar_beside, depth_in, id_in, instrument_in, kind_in, name_in};

use arrayvec::ArrayString;
use mdp_templates::{DIRECT_DEPTH, Instrument, InstrumentKind, Name};

/// An instrument as a caller in C lists it, 36 bytes with no gap between them. It can say what a line of a capture can.
#[repr(C)]
#[derive(Clone, Copy)]
pub struct Listed {
    /// The security id, from 1 to 2147483647.
    pub id: i32,
    /// A calendar spread's first leg, by its id; 0 for an outright.
    pub leg1: i32,
    /// A calendar spread's second leg, by its id; 0 for an outright.
    pub leg2: i32,
    /// How many levels a side of the direct book has at most, from 1 to 10; a spread has 10.
    pub depth: u8,
    /// How many bytes the name has, from 1 to 20.
    pub length: u8,
    /// The name, each of its bytes from 33 to 126. What stands behind it is not looked at.
    pub name: [u8; 20],
    /// Nothing yet: 0.
    pub reserved: u16,
}

/// Gives the instrument that is listed; none where a field is out of its range.
pub fn instrument_in(listed: &Listed) -> Option<Instrument>
    ensures instrument { result ≡ instrument_in listed.now }
    ensures depth { IfSome result HasDepth }
{
    if listed.reserved != 0 {
        return None;
    }
    let id = id_in(listed)?;
    let name = name_in(listed)?;
    let (kind, depth) = kind_in(listed)?;
    Some(Instrument {
        id,
        name,
        kind,
        depth,
    })
}

// Returns the id, if it is one.
fn id_in(listed: &Listed) -> Option<i32>
    ensures { result ≡ id_in listed.now.id }
{
    if listed.id < 1 {
        return None;
    }
    Some(listed.id)
}

// Gives the name, if there is one.
fn name_in(listed: &Listed) -> Option<Name>
    ensures { result ≡ name_in listed.now }
{
    let length = usize::from(listed.length);
    if length > 20 {
        return None;
    }
    name_of(&listed.name[..length])
}

// Gives the name of these bytes, if they are one.
fn name_of(bytes: &[u8]) -> Option<Name>
    ensures { result ≡ name_of bytes.now }
{
    if !is_name(bytes) {
        return None;
    }
    let text = str::from_utf8(bytes).ok()?;
    let text = ArrayString::from(text).ok()?;
    Some(Name::new(text))
}

// Returns whether these are 1 to 20 bytes, each from 33 to 126.
fn is_name(bytes: &[u8]) -> bool
    ensures { result ≡ is_name bytes.now }
{
    !bytes.is_empty() && bytes.len() <= 20 && is_graphic(bytes)
}

// Returns whether each of these is a visible ASCII character, 33 to 126.
fn is_graphic(bytes: &[u8]) -> bool
    ensures { result ≡ list_all is_graphic bytes.now }
{
    bytes.iter().all(|byte| byte.is_ascii_graphic())
}

// Gives the kind of instrument and its depth, if the legs and the depth go together.
fn kind_in(listed: &Listed) -> Option<(InstrumentKind, u8)>
    ensures { result ≡ kind_in listed.now }
{
    if listed.leg1 == 0 && listed.leg2 == 0 {
        outright_in(listed)
    } else {
        calendar_in(listed)
    }
}

// Gives the outright of the depth, if it is one.
fn outright_in(listed: &Listed) -> Option<(InstrumentKind, u8)>
    ensures { result ≡ outright_of (depth_in listed.now.depth) }
{
    if listed.depth < 1 || usize::from(listed.depth) > DIRECT_DEPTH {
        return None;
    }
    Some((InstrumentKind::Outright, listed.depth))
}

// Gives the calendar spread of the legs, if both are ids and the depth is a spread's.
fn calendar_in(listed: &Listed) -> Option<(InstrumentKind, u8)>
    ensures { result ≡ calendar_beside listed.now.depth
        (id_in listed.now.leg1) (id_in listed.now.leg2) }
{
    if usize::from(listed.depth) != DIRECT_DEPTH || listed.leg1 < 1 || listed.leg2 < 1 {
        return None;
    }
    let kind = InstrumentKind::Calendar {
        leg1: listed.leg1,
        leg2: listed.leg2,
    };
    Some((kind, listed.depth))
}
