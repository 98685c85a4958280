//! A text that comes piece by piece, cut into lines, whatever is made of them.

ghost use Rattle.std.specs.Prelude.{◌≡◌, ◌<◌, ◌++◌, ◌∷◌, [], ℕ, List, true, length, OnOk, IfErr};
ghost use Rattle.std.specs.Str.Lines.{lines, strip_carriage_return};
ghost use Rattle.mdp_capture.specs.Capture.{IfRefused, RefusedLine};
ghost use Rattle.mdp_capture.specs.Cutting.{BeginsWithLines, CutsInto, IsOneLine, IsStopped, LeavesOutLine};

use crate::fault::CaptureFault;
use crate::line::without_carriage_return;
use memchr::memchr;
use std::alloc::{AllocError, Allocator};
use std::marker::Model;

/// What is made of the lines of a text, which it takes in one after another.
pub trait TakesLines<A: Allocator> {
    /// One has taken in these lines, in their order, and is the other now.
    ghost takes: { Self → List (List ℕ) → Self → Type 0 };

    /// What it knows of the line that it took in last.
    ghost took_last: { Self → List ℕ → Type 0 };

    /// The run is refused at this line, were it the next.
    ghost refuses: { Self → List ℕ → RefusedLine → Type 0 };

    /// Takes in a line, without its line feed and the carriage return before it. `last` is the line
    /// before, and empty where that is not at hand.
    ///
    /// # Errors
    ///
    /// `Refused` where the run is refused at this line: then it holds what it held. `Memory` where
    /// memory ran out: then nothing is known of what it holds.
    fn take_line(&mut self, alloc: A, text: &[u8], last: &[u8]) -> Result<(), CaptureFault>
        requires { 0 < length last.now → took_last self.old last.now }
        ensures taken { OnOk result (takes self.old (text.now ∷ []) self.new) }
        ensures last { OnOk result (took_last self.new text.now) }
        ensures refused { IfErr result (λ fault. IfRefused fault (λ refused.
            takes self.old [] self.new × refuses self.new text.now refused)) };

    ghost takes_none: { (x : Self) → takes x [] x };

    ghost takes_more: { (x y z : Self) (front more : List (List ℕ))
        → takes x front y → takes y more z → takes x (front ++ more) z };
}

/// Cuts a text that comes piece by piece into lines. It keeps the bytes of a line that has no line
/// feed yet, and is seen as these.
#[derive(Drop)]
pub struct LineCutter<A: Allocator> {
    pending: Vec<u8, A>,
}

impl<A: Allocator> Model for LineCutter<A> {
    ghost use Rattle.std.specs.Prelude.{ℕ, List};
    ghost use Rattle.mdp_capture.specs.Cutting.{IsOneLine};

    ghost Value = { List ℕ };

    ghost view = { λ c. c.pending.items };

    ghost invariant = { λ c. IsOneLine c.pending.items };
}

impl<A: Allocator + Copy> LineCutter<A> {
    /// Makes a cutter of a text of which nothing has come yet.
    pub fn new(alloc: A) -> LineCutter<A>
        ensures { result ≡ [] }
    {
        LineCutter {
            pending: Vec::new(alloc),
        }
    }

    /// Takes in the next piece of the text, and hands on each line that it ends.
    ///
    /// # Errors
    ///
    /// `Refused` at the first line at which the run is refused: the lines before it were handed on.
    /// `Memory` where memory ran out: then nothing is known of what was.
    pub fn take_piece<L: TakesLines<A>>(
        &mut self,
        alloc: A,
        piece: &[u8],
        taker: &mut L,
    ) -> Result<(), CaptureFault>
        ensures taken { OnOk result (CutsInto (λ front. L.takes taker.old front taker.new)
            (self.old ++ piece.now) self.new) }
        ensures refused { IfErr result (λ fault. IfRefused fault (IsStopped
            (BeginsWithLines (self.old ++ piece.now))
            (λ front. L.takes taker.old front taker.new) (L.refuses taker.new))) }
    {
        if self.pending.is_empty() {
            return self.take_lines(alloc, piece, taker);
        }
        let Some(end) = memchr(b'\n', piece) else {
            self.pending.extend_from_slice(piece)?;
            return Ok(());
        };
        self.end_line(alloc, &piece[..end], taker)?;
        self.take_lines(alloc, &piece[end + 1..], taker)
    }

    // Takes in a piece that begins with a line. Each line is handed on where it lies; only what no
    // line feed ends is kept.
    fn take_lines<L: TakesLines<A>>(
        &mut self,
        alloc: A,
        piece: &[u8],
        taker: &mut L,
    ) -> Result<(), CaptureFault>
        requires { self.old ≡ [] }
        ensures taken { OnOk result (CutsInto (λ front. L.takes taker.old front taker.new)
            piece.now self.new) }
        ensures refused { IfErr result (λ fault. IfRefused fault (IsStopped
            (BeginsWithLines piece.now)
            (λ front. L.takes taker.old front taker.new) (L.refuses taker.new))) }
    {
        let mut rest = piece;
        let mut last = &piece[..0];
        while let Some(end) = memchr(b'\n', rest) {
            let text = without_carriage_return(&rest[..end]);
            rest = &rest[end + 1..];
            taker.take_line(alloc, text, last)?;
            last = text;
        }
        self.hold(rest)?;
        Ok(())
    }

    // Takes in the line that is pending, of which these bytes are the end, without its line feed.
    fn end_line<L: TakesLines<A>>(
        &mut self,
        alloc: A,
        end: &[u8],
        taker: &mut L,
    ) -> Result<(), CaptureFault>
        requires { IsOneLine end.now }
        ensures taken { OnOk result (L.takes taker.old
            (strip_carriage_return (self.old ++ end.now) ∷ []) taker.new) }
        ensures none { OnOk result (self.new ≡ []) }
        ensures refused { IfErr result (λ fault. IfRefused fault
            (LeavesOutLine (λ front. L.takes taker.old front taker.new) (L.refuses taker.new)
            (strip_carriage_return (self.old ++ end.now)))) }
    {
        self.pending.extend_from_slice(end)?;
        let text = without_carriage_return(self.pending.as_slice());
        taker.take_line(alloc, text, &text[..0])?;
        self.pending.clear();
        Ok(())
    }

    /// Keeps the beginning of a line, where nothing is pending.
    pub(crate) fn hold(&mut self, text: &[u8]) -> Result<(), AllocError>
        requires none { self.old ≡ [] }
        requires unfinished { IsOneLine text.now }
        ensures { OnOk result (self.new ≡ text.now) }
    {
        self.pending.extend_from_slice(text)
    }

    /// Returns whether nothing is pending.
    pub(crate) fn is_between_lines(&self) -> bool
        ensures { result ≡ true → self.now ≡ [] }
    {
        self.pending.is_empty()
    }

    /// Takes in the last line, where the text ended without a line feed.
    ///
    /// # Errors
    ///
    /// Those of `take_piece`.
    pub fn end<L: TakesLines<A>>(&self, alloc: A, taker: &mut L) -> Result<(), CaptureFault>
        ensures taken { OnOk result (L.takes taker.old (lines self.now) taker.new) }
        ensures refused { IfErr result (λ fault. IfRefused fault
            (IsStopped (λ all. all ≡ lines self.now)
            (λ front. L.takes taker.old front taker.new) (L.refuses taker.new))) }
    {
        if self.pending.is_empty() {
            return Ok(());
        }
        let last = self.pending.as_slice();
        taker.take_line(alloc, last, &last[..0])
    }
}
