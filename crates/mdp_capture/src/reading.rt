//! Reading a capture piece by piece.

ghost use Rattle.std.specs.Prelude.{◌≡◌, ◌≢◌, ◌+◌, ◌-◌, ◌<◌, ◌^◌, [], ℕ, List, true, OnOk, IfOk, IfErr, IfSome, vec_len};
ghost use Rattle.std.specs.Io.KnownBytes.{IsAtEnd};
ghost use Rattle.mdp_capture.specs.Capture.{IsFaultOf, IsTextFaultOf, capture_of};
ghost use Rattle.mdp_capture.specs.Part.{IsReadOf};
ghost use Rattle.mdp_capture.specs.Reading.{HasRead, RefusesPiece, TakesPiece};
ghost use Rattle.mdp_templates.specs.Instrument.{AreFit};

use crate::capture::Capture;
use crate::counted_read::CountedRead;
use crate::cutter::LineCutter;
use crate::draft::Draft;
use crate::fault::CaptureFault;
use crate::part::Part;
use std::alloc::{AllocError, Allocator};

/// Reads a capture to its end: the instruments, the records of the three feeds, and the lines that were skipped.
/// The first refusal of the run ends the reading. Beside the capture itself it takes room for one line, a piece
/// of 64 KiB and what is left of a block of 64 KiB.
///
/// # Errors
///
/// `Refused` at the first line that refuses the run, `Memory` where memory ran out, and `Input` where a read failed.
pub fn read_capture<R: CountedRead, A: Allocator + Copy>(
    alloc: A,
    reader: &mut R,
) -> Result<Capture<A>, CaptureFault>
    requires { R.failed reader.old < 2 ^ 64 - 1 }
    ensures capture { IfOk result (λ capture. IfSome (R.rest reader.old)
        (λ text. capture_of text ≡ Ok capture)) }
    ensures fit { IfOk result (λ capture. AreFit capture.instruments) }
    ensures end { OnOk result (IsAtEnd (R.rest reader.new)) }
    ensures refused { IfErr result (λ fault. IfSome (R.rest reader.old)
        (λ text. IsFaultOf (capture_of text) fault)) }
    ensures input { result ≡ Err CaptureFault.Input
        → R.failed reader.new ≡ R.failed reader.old + 1 }
    ensures sound { result ≢ Err CaptureFault.Input → R.failed reader.new ≡ R.failed reader.old }
{
    let mut reading = Reading::new(alloc);
    let mut piece = room_for(alloc, PIECE)?;
    loop {
        match reader.read(piece.as_mut_slice()) {
            Ok(0) => return reading.finish(alloc),
            Ok(n) => reading.take_piece(alloc, &piece[..n])?,
            Err(_) => return Err(CaptureFault::Input),
        }
    }
}

/// How many bytes are read at once.
const PIECE: usize = 65536;

/// Makes room for a piece of so many bytes, all zeros.
pub(crate) fn room_for<A: Allocator>(alloc: A, size: usize) -> Result<Vec<u8, A>, AllocError>
    ensures { IfOk result (λ piece. vec_len piece ≡ size) }
{
    let piece = vec![in alloc; 0u8; size]?;
    Ok(piece)
}

/// A capture that is read piece by piece.
#[derive(Drop)]
pub(crate) struct Reading<A: Allocator> {
    cutter: LineCutter<A>,
    draft: Draft<A>,
}

impl<A: Allocator + Copy> Reading<A> {
    /// Begins with no text.
    pub(crate) fn new(alloc: A) -> Reading<A>
        ensures { HasRead result [] }
    {
        Reading {
            cutter: LineCutter::new(alloc),
            draft: Draft::new(alloc),
        }
    }

    /// Takes in the next piece of the text.
    pub(crate) fn take_piece(&mut self, alloc: A, piece: &[u8]) -> Result<(), CaptureFault>
        ensures taken { OnOk result (TakesPiece self.old piece.now self.new) }
        ensures refused { IfErr result (RefusesPiece self.old piece.now) }
    {
        self.cutter.take_piece(alloc, piece, &mut self.draft)
    }

    /// Returns whether a line begins with the next piece.
    pub(crate) fn is_between_lines(&self) -> bool
        ensures { result ≡ true → self.now.cutter ≡ [] }
    {
        self.cutter.is_between_lines()
    }

    /// Takes in the next piece of the text, which begins with a line and was read by itself.
    pub(crate) fn take_part(&mut self, text: &[u8], part: Part<'_, A>) -> Result<(), CaptureFault>
        requires none { self.old.cutter ≡ [] }
        requires is_read { IsReadOf text.now part }
        ensures taken { OnOk result (TakesPiece self.old text.now self.new) }
        ensures refused { IfErr result (RefusesPiece self.old text.now) }
    {
        let Part { lines, rest } = part;
        self.draft.add_lines(lines)?;
        self.cutter.hold(rest)?;
        Ok(())
    }

    /// Gives the capture of the text, which has ended.
    pub(crate) fn finish(mut self, alloc: A) -> Result<Capture<A>, CaptureFault>
        ensures capture { IfOk result (λ capture. (text : List ℕ)
            → HasRead self text → capture_of text ≡ Ok capture) }
        ensures fit { IfOk result (λ capture. AreFit capture.instruments) }
        ensures refused { IfErr result (λ fault. (text : List ℕ)
            → HasRead self text → IsTextFaultOf (capture_of text) fault) }
    {
        self.cutter.end(alloc, &mut self.draft)?;
        self.draft.finish()
    }
}
