//! Reading a capture in large pieces, the lines of which threads read.

ghost use Rattle.std.specs.Prelude.{◌≡◌, ◌≢◌, ◌+◌, ◌-◌, ◌<◌, ◌≤◌, ◌^◌, length, slice_index_or, OnOk, IfOk, IfErr, IfSome};
ghost use Rattle.std.specs.Io.KnownBytes.{IsAtEnd};
ghost use Rattle.mdp_capture.specs.Capture.{IsFaultOf, capture_of};
ghost use Rattle.mdp_capture.specs.Part.{AreReadOf, IsReadOf, joined};
ghost use Rattle.mdp_capture.specs.Reading.{RefusesPiece, TakesPiece};
ghost use Rattle.mdp_templates.specs.Instrument.{AreFit};

use crate::capture::Capture;
use crate::counted_read::CountedRead;
use crate::fault::CaptureFault;
use crate::part::{Part, read_part};
use crate::reading::{Reading, room_for};
use memchr::memchr;
use std::alloc::{AllocError, Allocator};
use std::thread;
use std::thread::Threads;

/// How many bytes are read at once.
const LARGE_PIECE: usize = 4_194_304;
/// How many bytes of a piece one thread reads, and further to the end of the line.
const PART: usize = 1_048_576;

/// Reads a capture as `read_capture` does, in large pieces whose lines threads read, each those of a part. Where a
/// thread can't be started, the lines of its part are read all the same.
///
/// # Errors
///
/// Those of `read_capture`.
pub fn read_capture_over_threads<T, R, A>(
    rt: &T,
    alloc: A,
    reader: &mut R,
) -> Result<Capture<A>, CaptureFault>
where
    T: Threads + Sync,
    R: CountedRead,
    A: Allocator + Copy + Send + Sync,
    requires { R.failed reader.old < 2 ^ 64 - 1 }
    ensures capture { IfOk result (λ capture. IfSome (R.rest reader.old)
        (λ text. capture_of text ≡ Ok capture)) }
    ensures fit { IfOk result (λ capture. AreFit capture.instruments) }
    ensures end { OnOk result (IsAtEnd (R.rest reader.new)) }
    ensures refused { IfErr result (λ fault. IfSome (R.rest reader.old)
        (λ text. IsFaultOf (capture_of text) fault)) }
    ensures input { result ≡ Err CaptureFault.Input
        → R.failed reader.new ≡ R.failed reader.old + 1 }
    ensures sound { result ≢ Err CaptureFault.Input → R.failed reader.new ≡ R.failed reader.old }
{
    let mut reading = Reading::new(alloc);
    let mut piece = room_for(alloc, LARGE_PIECE)?;
    loop {
        match reader.read(piece.as_mut_slice()) {
            Ok(0) => return reading.finish(alloc),
            Ok(n) => take_large_piece(rt, alloc, &mut reading, &piece[..n], PART)?,
            Err(_) => return Err(CaptureFault::Input),
        }
    }
}

/// Takes in the next piece of the text, whose lines threads read in parts of this size, each to the end of its last
/// line. The first line may have begun before the piece, so it is no part's.
pub(crate) fn take_large_piece<T, A>(
    rt: &T,
    alloc: A,
    reading: &mut Reading<A>,
    piece: &[u8],
    size: usize,
) -> Result<(), CaptureFault>
where
    T: Threads + Sync,
    A: Allocator + Copy + Send + Sync,
    ensures taken { OnOk result (TakesPiece reading.old piece.now reading.new) }
    ensures refused { IfErr result (RefusesPiece reading.old piece.now) }
{
    if piece.len() <= size {
        return reading.take_piece(alloc, piece);
    }
    let end = end_of_part(piece, 0);
    reading.take_piece(alloc, &piece[..end])?;
    take_by_parts(rt, alloc, reading, &piece[end..], size)
}

// Takes in the next piece of the text in parts of this size, which threads read.
fn take_by_parts<T, A>(
    rt: &T,
    alloc: A,
    reading: &mut Reading<A>,
    piece: &[u8],
    size: usize,
) -> Result<(), CaptureFault>
where
    T: Threads + Sync,
    A: Allocator + Copy + Send + Sync,
    ensures taken { OnOk result (TakesPiece reading.old piece.now reading.new) }
    ensures refused { IfErr result (RefusesPiece reading.old piece.now) }
{
    let texts = cut(alloc, piece, size)?;
    let parts = read_parts(rt, alloc, texts.as_slice())?;
    take_parts(alloc, reading, texts.as_slice(), parts)
}

// Takes in these texts, one behind the other, each of which was read by itself.
fn take_parts<A: Allocator + Copy>(
    alloc: A,
    reading: &mut Reading<A>,
    texts: &[&[u8]],
    parts: Vec<Result<Part<'_, A>, AllocError>, A>,
) -> Result<(), CaptureFault>
    requires { AreReadOf texts.now parts.items }
    ensures taken { OnOk result (TakesPiece reading.old (joined texts.now) reading.new) }
    ensures refused { IfErr result (RefusesPiece reading.old (joined texts.now)) }
{
    let mut number = 0;
    for part in parts {
        let part = part?;
        take_part(alloc, reading, texts[number], part)?;
        number += 1;
    }
    Ok(())
}

// Takes in a text that was read by itself. What was read counts where a line begins with it.
fn take_part<A: Allocator + Copy>(
    alloc: A,
    reading: &mut Reading<A>,
    text: &[u8],
    part: Part<'_, A>,
) -> Result<(), CaptureFault>
    requires { IsReadOf text.now part }
    ensures taken { OnOk result (TakesPiece reading.old text.now reading.new) }
    ensures refused { IfErr result (RefusesPiece reading.old text.now) }
{
    if reading.is_between_lines() {
        return reading.take_part(text, part);
    }
    reading.take_piece(alloc, text)
}

// Returns where the first part of a text ends: at the end of the line that has the byte at this size.
fn end_of_part(text: &[u8], size: usize) -> usize
    ensures inside { result ≤ length text.now }
    ensures some { 0 < length text.now → 0 < result }
{
    if text.len() <= size {
        return text.len();
    }
    match memchr(b'\n', &text[size..]) {
        Some(end) => size + end + 1,
        None => text.len(),
    }
}

// Cuts a text into parts of this size, each to the end of a line.
fn cut<'a, A: Allocator>(
    alloc: A,
    text: &'a [u8],
    size: usize,
) -> Result<Vec<&'a [u8], A>, AllocError>
    ensures { IfOk result (λ parts. joined parts.items ≡ text.now) }
{
    let mut parts = Vec::new(alloc);
    let mut rest = text;
    while !rest.is_empty() {
        let end = end_of_part(rest, size);
        parts.push(&rest[..end])?;
        rest = &rest[end..];
    }
    Ok(parts)
}

// Reads the text at this place.
fn read_at<'a, A: Allocator + Copy>(
    alloc: A,
    texts: &[&'a [u8]],
    place: usize,
) -> Result<Part<'a, A>, AllocError>
    requires { place < length texts.now }
    ensures { (d : _) → IfOk result (IsReadOf (slice_index_or texts.now place d).now) }
{
    read_part(alloc, texts[place])
}

// Reads each of these texts, in a thread of its own where one can be started.
fn read_parts<'a, R, A>(
    rt: &R,
    alloc: A,
    texts: &[&'a [u8]],
) -> Result<Vec<Result<Part<'a, A>, AllocError>, A>, AllocError>
where
    R: Threads + Sync,
    A: Allocator + Copy + Send + Sync,
    ensures { IfOk result (λ parts. AreReadOf texts.now parts.items) }
{
    let read = |place: usize| -> Result<Part<'_, A>, AllocError>
        requires { place < length texts.now }
        ensures { (d : _) → IfOk result (IsReadOf (slice_index_or texts.entry.now place d).now) }
    { read_at(alloc, texts, place) };
    thread::map_indices(rt, alloc, texts.len(), &read)
}
