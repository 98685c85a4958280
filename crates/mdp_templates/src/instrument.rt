//! The instruments that books are kept for.

ghost use Rattle.std.specs.Prelude.{◌≡◌, ◌≤◌, ◌↔◌, IsTrue, length};
ghost use Rattle.mdp_templates.specs.Instrument.{HasOutright, AreLegs, HasLegs, IsDepthOf, FitsAfter, AreFit};

use crate::entry::DIRECT_DEPTH;
use arrayvec::ArrayString;
use std::marker::Model;

/// The name of an instrument, at most 20 bytes of text, seen as its bytes.
#[derive(Drop)]
pub struct Name {
    text: ArrayString<20>,
}

impl Model for Name {
    ghost use Rattle.std.specs.Prelude.{List, ℕ};

    ghost Value = { List ℕ };

    ghost view = { λ n. n.text.bytes };
}

impl Name {
    /// Makes the name of this text.
    pub fn new(text: ArrayString<20>) -> Name
        ensures { result ≡ text.bytes }
    {
        Name { text }
    }

    /// Makes an equal name.
    pub fn copy(&self) -> Name
        ensures { result ≡ self.now }
    {
        let mut text = ArrayString::new();
        match text.try_push_str(self.text.as_str()) {
            Ok(()) => Name { text },
            Err(_) => unreachable!(),
        }
    }

    /// Lends the text of the name.
    pub fn as_str(&self) -> &str
        ensures text { result.now ≡ self.now }
        ensures few { length self.now ≤ 20 }
    {
        self.text.as_str()
    }
}

/// What an instrument is.
#[derive(Clone, Copy, Debug, PartialEq, Eq)]
pub enum InstrumentKind {
    /// A future of one expiry.
    Outright,
    /// A calendar spread: the first leg less the second, each by its id.
    Calendar { leg1: i32, leg2: i32 },
}

/// An instrument of the channel.
#[derive(Drop)]
pub struct Instrument {
    /// The security id, from 1 to 2147483647.
    pub id: i32,
    pub name: Name,
    pub kind: InstrumentKind,
    /// How many levels a side of its direct book has at most, from 1 to [`DIRECT_DEPTH`]; a calendar
    /// spread's has that many.
    pub depth: u8,
}

impl Instrument {
    /// Makes an equal instrument.
    pub fn copy(&self) -> Instrument
        ensures { result ≡ self.now }
    {
        Instrument {
            id: self.id,
            name: self.name.copy(),
            kind: self.kind,
            depth: self.depth,
        }
    }
}

/// Returns whether books can be kept for these instruments: 1 to 512 of them, with different ids, the two legs of each
/// calendar different outrights that stand earlier, and depths from 1 to [`DIRECT_DEPTH`], a calendar's that many.
pub fn are_fit(instruments: &[Instrument]) -> bool
    ensures { IsTrue result ↔ AreFit instruments.now }
{
    if instruments.is_empty() || instruments.len() > MOST_INSTRUMENTS {
        return false;
    }
    for (place, instrument) in instruments.iter().enumerate() {
        if !fits_after(&instruments[..place], instrument) {
            return false;
        }
    }
    true
}

/// How many instruments a channel is read for at most.
pub const MOST_INSTRUMENTS: usize = 512;

// Returns whether an instrument fits behind these: its id is none of theirs, its legs stand among them, and its depth
// is one of its kind.
fn fits_after(earlier: &[Instrument], instrument: &Instrument) -> bool
    ensures { IsTrue result ↔ FitsAfter earlier.now instrument.now }
{
    let id = instrument.id;
    earlier.iter().all(|other| other.id != id)
        && has_legs(earlier, instrument.kind)
        && is_depth_of(instrument.kind, instrument.depth)
}

// Returns whether a side of the direct book can have this depth for this kind of instrument.
fn is_depth_of(kind: InstrumentKind, depth: u8) -> bool
    ensures { IsTrue result ↔ IsDepthOf kind depth }
{
    let depth = depth as usize;
    match kind {
        InstrumentKind::Outright => depth >= 1 && depth <= DIRECT_DEPTH,
        InstrumentKind::Calendar { .. } => depth == DIRECT_DEPTH,
    }
}

/// Returns whether the legs stand among these that this kind of instrument asks for.
pub fn has_legs(earlier: &[Instrument], kind: InstrumentKind) -> bool
    ensures { IsTrue result ↔ HasLegs earlier.now kind }
{
    match kind {
        InstrumentKind::Outright => true,
        InstrumentKind::Calendar { leg1, leg2 } => are_legs(earlier, leg1, leg2),
    }
}

// Returns whether two ids are those of two different outrights among these.
fn are_legs(earlier: &[Instrument], leg1: i32, leg2: i32) -> bool
    ensures { IsTrue result ↔ AreLegs earlier.now leg1 leg2 }
{
    if leg1 == leg2 {
        return false;
    }
    has_outright(earlier, leg1) && has_outright(earlier, leg2)
}

// Returns whether an outright with this id stands among these.
fn has_outright(instruments: &[Instrument], id: i32) -> bool
    ensures { IsTrue result ↔ HasOutright instruments.now id }
{
    instruments.iter().any(|instrument| instrument.id == id
        && instrument.kind == InstrumentKind::Outright)
}
