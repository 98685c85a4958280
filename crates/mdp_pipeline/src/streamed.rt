//! A run over the text of a capture as it comes, on one thread.

ghost use Rattle.std.specs.Prelude.{◌≡◌, ◌<◌, ◌≤◌, [], List, ℕ, IfOk, IfErr, OnOk, length};
ghost use Rattle.mdp_capture.specs.Capture.{IfRefused};
ghost use Rattle.mdp_pipeline.specs.Streamed.{EndsAsCapture, HasHandedOn, LacksInstrument, StopsAtEnd, StopsInPiece, Streams, TakesEnd, TakesPiece, setup_of, text_held};

use crate::ended::EndedRun;
use crate::note::Note;
use crate::progress::Run;
use crate::streamed_lines::StreamedLines;
use mdp_arbiter::Start;
use mdp_capture::{CaptureFault, LineCutter};
use std::alloc::Allocator;

/// A run over the text of a capture, each piece of which is taken in as it comes. Of a piece it holds what its lines
/// show and what is told of them, until that is handed on. Beside that it keeps the instruments, what waits in the
/// window, the line that has no line feed yet, and eight bytes for each refused datagram.
///
/// Once memory has run out it has failed: nothing is known of what it holds.
#[derive(Drop)]
pub struct StreamedRun<A: Allocator + Copy> {
    cutter: LineCutter<A>,
    lines: StreamedLines<A>,
}

impl<A: Allocator + Copy> StreamedRun<A> {
    /// Makes a run before its text, which takes no memory. Its window covers so many packet numbers, 1 to 65536.
    pub fn new(alloc: A, window: u32, start: Start) -> StreamedRun<A>
        requires some { 1 ≤ window }
        requires most { window ≤ 65536 }
        ensures { Streams (setup_of window start) [] [] [] result }
    {
        StreamedRun {
            cutter: LineCutter::new(alloc),
            lines: StreamedLines::new(alloc, window, start),
        }
    }

    /// Takes in the next piece of the text: each line that it ends.
    ///
    /// # Errors
    ///
    /// `Refused` at the first line that refuses the run (31 to 33, 35): the lines before it were taken in. `Memory`
    /// where memory ran out.
    pub fn take_piece(&mut self, alloc: A, piece: &[u8]) -> Result<(), CaptureFault>
        ensures taken { OnOk result (TakesPiece piece.now self.old self.new) }
        ensures refused { IfErr result (λ fault. IfRefused fault
            (λ refused. StopsInPiece piece.now refused self.old self.new)) }
    {
        self.cutter.take_piece(alloc, piece, &mut self.lines)
    }

    /// Takes in the last line, where the text ended without a line feed.
    ///
    /// # Errors
    ///
    /// Those of [`take_piece`](StreamedRun::take_piece).
    pub fn take_end(&mut self, alloc: A) -> Result<(), CaptureFault>
        ensures taken { OnOk result (TakesEnd self.old self.new) }
        ensures refused { IfErr result (λ fault. IfRefused fault
            (λ refused. StopsAtEnd refused self.old self.new)) }
    {
        self.cutter.end(alloc, &mut self.lines)
    }

    /// Lends the lines that are shown and were not handed on.
    pub fn text(&self) -> &[u8]
        ensures { result.now ≡ text_held self.now.lines.run }
    {
        self.lines.text()
    }

    /// Lends what is told of the lines and was not handed on.
    pub fn notes(&self) -> &[Note]
        ensures { result.now ≡ self.now.lines.notes.items }
    {
        self.lines.notes()
    }

    /// Lets go what it holds, since it was handed on.
    pub fn clear(&mut self)
        ensures cutter { self.new.cutter ≡ self.old.cutter }
        ensures lines { HasHandedOn self.old.lines self.new.lines }
    {
        self.lines.clear();
    }

    /// Gives the run of a text that has ended, whose last line was taken in.
    ///
    /// # Errors
    ///
    /// `Refused` where no instrument is listed (34 on line 0), `Memory` where memory ran out.
    pub fn into_ended(self, alloc: A) -> Result<EndedRun<A>, CaptureFault>
        ensures ended { IfOk result (EndsAsCapture self.lines) }
        ensures refused { IfErr result (λ fault. IfRefused fault (LacksInstrument self.lines)) }
    {
        self.lines.into_ended(alloc)
    }
}
