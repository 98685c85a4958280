//! One line of a capture.

ghost use Rattle.std.specs.Prelude.{◌≡◌, Some, IfOk, IfSome, IsErr, MatchResult};
ghost use Rattle.std.specs.Str.Lines.{strip_carriage_return};
ghost use Rattle.hex.specs.Hex.{decode_of};
ghost use Rattle.mdp_capture.specs.Line.{fields, outright_of_fields, calendar_of_fields, kind_of, instrument_of, listing, packet_of, closing_of, line_of};
ghost use Rattle.mdp_capture.specs.Listed.{instrument_said};
ghost use Rattle.mdp_templates.specs.Instrument.{HasDepth};
ghost use Rattle.mdp_capture.specs.Repeats.{IsSkippedFor, Spells, bytes_in};
ghost use Rattle.mdp_capture.specs.Parsed.{ListsDepth, content_of, fields_left};

use crate::field::{depth_of, id_of, is_letter, name_of, next_field};
use crate::skip::Skip;
use bytes::Bytes;
use hex::FromHexError;
use mdp_templates::{DIRECT_DEPTH, Feed, Instrument, InstrumentKind, LONGEST_DATAGRAM};
use memchr::memchr;
use std::alloc::{AllocError, Allocator};

/// What a line says.
#[derive(Drop)]
pub(crate) enum Line<A: Allocator> {
    /// Nothing.
    Blank,
    /// An instrument of the channel.
    Listing(Instrument),
    /// A datagram's bytes, at most 2,048.
    Packet(Feed, Vec<u8, A>),
    /// A datagram's bytes, at most 2,048, in a block that lines share.
    Shared(Feed, Bytes<A>),
    /// The close of the channel.
    Closing,
    /// Nothing that could be read.
    Skipped(Skip),
}

impl<A: Allocator> Line<A> {
    /// Gives the bytes of the datagram once more, where lines may share them.
    pub(crate) fn share(&self) -> Result<Option<Bytes<A>>, AllocError>
        ensures { IfOk result (λ found. IfSome found
            (λ bytes. bytes_in (content_of self.now) ≡ Some bytes)) }
    {
        match self {
            Line::Shared(_, bytes) => {
                let bytes = bytes.clone()?;
                Ok(Some(bytes))
            }
            Line::Blank => Ok(None),
            Line::Listing(_) => Ok(None),
            Line::Packet(_, _) => Ok(None),
            Line::Closing => Ok(None),
            Line::Skipped(_) => Ok(None),
        }
    }
}

/// Gives what a line says, without its line feed and the carriage return before it.
pub(crate) fn line_of<A: Allocator>(alloc: A, text: &[u8]) -> Result<Line<A>, AllocError>
    ensures content { IfOk result (λ line. content_of line ≡ line_of text.now) }
    ensures depth { IfOk result (λ line. ListsDepth (content_of line)) }
{
    if text.is_empty() {
        return Ok(Line::Blank);
    }
    let (letter, rest) = next_field(text);
    if is_letter(letter, b'I') {
        Ok(listing_of(rest))
    } else if is_letter(letter, b'A') {
        packet_of(alloc, Feed::A, rest)
    } else if is_letter(letter, b'B') {
        packet_of(alloc, Feed::B, rest)
    } else if is_letter(letter, b'S') {
        packet_of(alloc, Feed::S, rest)
    } else if is_letter(letter, b'X') {
        Ok(closing_of(rest))
    } else {
        Ok(Line::Skipped(Skip::LineForm))
    }
}

/// Gives the instrument that a line says, without its line feed and the carriage return before it, if it says one.
pub(crate) fn instrument_on(text: &[u8]) -> Option<Instrument>
    ensures instrument { result ≡ instrument_said (line_of text.now) }
    ensures depth { IfSome result HasDepth }
{
    let (letter, rest) = next_field(text);
    if !is_letter(letter, b'I') {
        return None;
    }
    instrument_of(rest)
}

// Returns what a line says that begins with `I`.
fn listing_of<A: Allocator>(rest: Option<&[u8]>) -> Line<A>
    ensures { content_of result ≡ listing (instrument_of (fields_left rest.entry)) }
{
    match instrument_of(rest) {
        Some(instrument) => Line::Listing(instrument),
        None => Line::Skipped(Skip::LineForm),
    }
}

// Gives the instrument that the fields behind the letter describe, if they do.
fn instrument_of(rest: Option<&[u8]>) -> Option<Instrument>
    ensures { result ≡ instrument_of (fields_left rest.entry) }
{
    let (id, rest) = next_field(rest?);
    let (name, kind) = next_field(rest?);
    let id = id_of(id)?;
    let name = name_of(name)?;
    let (kind, depth) = kind_of(kind)?;
    Some(Instrument {
        id,
        name,
        kind,
        depth,
    })
}

/// The depth of a calendar spread, and of an outright that tells none.
const USUAL_DEPTH: u8 = DIRECT_DEPTH as u8;

// Gives the kind of instrument that the last fields say, and its depth, if they do.
fn kind_of(rest: Option<&[u8]>) -> Option<(InstrumentKind, u8)>
    ensures { result ≡ kind_of (fields_left rest.entry) }
{
    let (letter, rest) = next_field(rest?);
    if is_letter(letter, b'O') {
        outright_of(rest)
    } else if is_letter(letter, b'C') {
        calendar_of(rest)
    } else {
        None
    }
}

// Gives the outright of the depth that the field behind its letter says, if it does and is the last.
fn outright_of(rest: Option<&[u8]>) -> Option<(InstrumentKind, u8)>
    ensures { result ≡ outright_of_fields (fields_left rest.entry) }
{
    let Some(text) = rest else {
        return Some((InstrumentKind::Outright, USUAL_DEPTH));
    };
    let (depth, rest) = next_field(text);
    if rest.is_some() {
        return None;
    }
    let depth = depth_of(depth)?;
    Some((InstrumentKind::Outright, depth))
}

// Gives the calendar spread of two legs, if there are two ids and nothing else.
fn calendar_of(legs: Option<&[u8]>) -> Option<(InstrumentKind, u8)>
    ensures { result ≡ calendar_of_fields (fields_left legs.entry) }
{
    let (leg1, rest) = next_field(legs?);
    let (leg2, rest) = next_field(rest?);
    if rest.is_some() {
        return None;
    }
    let leg1 = id_of(leg1)?;
    let leg2 = id_of(leg2)?;
    Some((InstrumentKind::Calendar { leg1, leg2 }, USUAL_DEPTH))
}

// Returns what a line of a feed says: its datagram, or why it is skipped.
fn packet_of<A: Allocator>(alloc: A, feed: Feed, rest: Option<&[u8]>) -> Result<Line<A>, AllocError>
    ensures { IfOk result (λ line. content_of line ≡ packet_of feed (fields_left rest.entry)) }
{
    let Some(digits) = rest else {
        return Ok(Line::Skipped(Skip::LineForm));
    };
    match bytes_of(alloc, digits)? {
        Ok(bytes) => Ok(Line::Packet(feed, bytes)),
        Err(skip) => Ok(Line::Skipped(skip)),
    }
}

/// Lends the feed and the digits of a line that begins as a datagram's does.
pub(crate) fn digits_in(text: &[u8]) -> Option<(Feed, &[u8])>
    ensures { IfSome result (λ found. line_of text.now ≡ packet_of found.0 (fields found.1.now)) }
{
    match text {
        [b'A', b' ', digits @ ..] => Some((Feed::A, digits)),
        [b'B', b' ', digits @ ..] => Some((Feed::B, digits)),
        [b'S', b' ', digits @ ..] => Some((Feed::S, digits)),
        _ => None,
    }
}

// Gives the bytes that the digits of a line spell, or why the line is skipped.
fn bytes_of<A: Allocator>(alloc: A, digits: &[u8]) -> Result<Result<Vec<u8, A>, Skip>, AllocError>
    ensures { IfOk result (λ read. MatchResult read (λ bytes. Spells digits.now bytes.items)
        (IsSkippedFor digits.now)) }
{
    match hex::decode(alloc, digits) {
        Ok(bytes) if bytes.is_empty() => Ok(Err(Skip::LineForm)),
        Ok(bytes) if bytes.len() <= LONGEST_DATAGRAM => Ok(Ok(bytes)),
        Ok(_) => Ok(Err(Skip::TooLong)),
        Err(FromHexError::OutOfMemory) => Err(AllocError),
        Err(_) => Ok(Err(skip_of(digits))),
    }
}

// Returns why the line of something other than digits is skipped: for a field too many, or for a byte that is no digit.
fn skip_of(digits: &[u8]) -> Skip
    ensures { IsErr (decode_of digits.now) → IsSkippedFor digits.now result }
{
    match memchr(b' ', digits) {
        Some(_) => Skip::LineForm,
        None => Skip::Hex,
    }
}

// Returns what a line says that begins with `X`.
fn closing_of<A: Allocator>(rest: Option<&[u8]>) -> Line<A>
    ensures { content_of result ≡ closing_of (fields_left rest.entry) }
{
    match rest {
        Some(_) => Line::Skipped(Skip::LineForm),
        None => Line::Closing,
    }
}

/// Lends the line without a carriage return at its end.
pub(crate) fn without_carriage_return(line: &[u8]) -> &[u8]
    ensures { result.now ≡ strip_carriage_return line.now }
{
    match line {
        [text @ .., b'\r'] => text,
        _ => line,
    }
}
