//! A part of a capture's text, read by itself.

ghost use Rattle.std.specs.Prelude.{◌≡◌, IfOk, IfSome, Some};
ghost use Rattle.mdp_capture.specs.Cutting.{IsOneLine};
ghost use Rattle.mdp_capture.specs.Line.{line_of};
ghost use Rattle.mdp_capture.specs.Parsed.{ListsDepth, content_of};
ghost use Rattle.mdp_capture.specs.Part.{HasBytesIn, ListDepths, Says, newest_in};
ghost use Rattle.mdp_capture.specs.Repeats.{Spells};

use crate::blocks::Blocks;
use crate::line::{Line, digits_in, line_of, without_carriage_return};
use crate::repeats::has_digits;
use bytes::Bytes;
use memchr::memchr;
use std::alloc::{AllocError, Allocator};

/// What the whole lines of a part say, and what stands behind its last line feed.
#[derive(Drop)]
pub(crate) struct Part<'a, A: Allocator> {
    pub(crate) lines: Vec<Line<A>, A>,
    pub(crate) rest: &'a [u8],
}

// Gives the bytes of the last line once more, where it is a datagram whose bytes lines may share.
fn newest_in<A: Allocator>(lines: &[Line<A>]) -> Result<Option<Bytes<A>>, AllocError>
    ensures { IfOk result (λ found. IfSome found (λ bytes. newest_in lines.now ≡ Some bytes)) }
{
    match lines.last() {
        Some(line) => line.share(),
        None => Ok(None),
    }
}

// Gives the bytes of these digits, where the text of the line before has them too.
fn known_bytes<A: Allocator>(
    digits: &[u8],
    last: &[u8],
    lines: &[Line<A>],
) -> Result<Option<Bytes<A>>, AllocError>
    requires { HasBytesIn lines.now last.now }
    ensures { IfOk result (λ found. IfSome found (λ bytes. Spells digits.now bytes)) }
{
    if has_digits(last, digits) {
        newest_in(lines)
    } else {
        Ok(None)
    }
}

// Gives the bytes that digits spell, where they are a datagram's: those of the line before, or decoded.
fn bytes_of<A: Allocator + Copy>(
    alloc: A,
    blocks: &mut Blocks<A>,
    digits: &[u8],
    last: &[u8],
    lines: &[Line<A>],
) -> Result<Option<Bytes<A>>, AllocError>
    requires { HasBytesIn lines.now last.now }
    ensures { IfOk result (λ read. IfSome read (λ bytes. Spells digits.now bytes)) }
{
    let known = known_bytes(digits, last, lines)?;
    if known.is_some() {
        return Ok(known);
    }
    blocks.decode(alloc, digits)
}

// Gives what a line says; `last` is the text of the line before, the last of `lines`.
fn read_line<A: Allocator + Copy>(
    alloc: A,
    blocks: &mut Blocks<A>,
    text: &[u8],
    last: &[u8],
    lines: &[Line<A>],
) -> Result<Line<A>, AllocError>
    requires { HasBytesIn lines.now last.now }
    ensures content { IfOk result (λ line. content_of line ≡ line_of text.now) }
    ensures depth { IfOk result (λ line. ListsDepth (content_of line)) }
{
    let Some((feed, digits)) = digits_in(text) else {
        return line_of(alloc, text);
    };
    match bytes_of(alloc, blocks, digits, last, lines)? {
        Some(bytes) => Ok(Line::Shared(feed, bytes)),
        None => line_of(alloc, text),
    }
}

/// Reads the whole lines of a text.
///
/// # Errors
///
/// Memory ran out.
pub(crate) fn read_part<'a, A: Allocator + Copy>(
    alloc: A,
    text: &'a [u8],
) -> Result<Part<'a, A>, AllocError>
    ensures says { IfOk result (λ part. Says text.now part.lines.items part.rest.now) }
    ensures depths { IfOk result (λ part. ListDepths part.lines.items) }
    ensures unfinished { IfOk result (λ part. IsOneLine part.rest.now) }
{
    let mut lines = Vec::new(alloc);
    let mut blocks = Blocks::new(alloc);
    let mut rest = text;
    let mut last = &text[..0];
    while let Some(end) = memchr(b'\n', rest) {
        let text = without_carriage_return(&rest[..end]);
        rest = &rest[end + 1..];
        let line = read_line(alloc, &mut blocks, text, last, &lines)?;
        lines.push(line)?;
        last = text;
    }
    Ok(Part { lines, rest })
}
