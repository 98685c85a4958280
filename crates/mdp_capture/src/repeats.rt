//! Lines that repeat the datagram of the line before, as feed B mostly does feed A's: they share its bytes, which are
//! not decoded anew.

ghost use Rattle.std.specs.Prelude.{◌≡◌, ◌<◌, ◌++◌, ℕ, List, true, length, OnOk, IfOk, IfErr, IfSome};
ghost use Rattle.std.proofs.Common.{◌∙◌, ap, append_assoc, refl};
ghost use Rattle.mdp_capture.specs.Capture.{add_line, add_lines, next_line};
ghost use Rattle.mdp_capture.specs.Repeats.{HasBytesOf, Spells};
ghost use Rattle.mdp_capture.specs.Draft.{capture_so_far, IsRefusedAt, LeavesOut, TakesTexts};
ghost use Rattle.mdp_capture.specs.Line.{fields, line_of, packet_of};
ghost use Rattle.mdp_templates.specs.declared.feed.Feed.{Feed};

use crate::cutter::TakesLines;
use crate::draft::Draft;
use crate::fault::CaptureFault;
use crate::line::{digits_in, line_of};
use bytes::Bytes;
use std::alloc::{AllocError, Allocator};

impl<A: Allocator + Copy> TakesLines<A> for Draft<A> {
    ghost takes = { λ old front new. TakesTexts old front new };

    ghost took_last = { λ draft text. HasBytesOf (line_of text) draft };

    ghost refuses = { λ draft text refused. IsRefusedAt draft text refused };

    fn take_line(&mut self, alloc: A, text: &[u8], last: &[u8]) -> Result<(), CaptureFault> {
        self.add_text(alloc, text, last)
    }

    ghost takes_none = { λ x rest. refl };

    ghost takes_more = { λ x y z front more first next rest.
        ap (λ (ls : List (List ℕ)). add_lines x.line ls (capture_so_far x)) (append_assoc front more rest)
        ∙ first (more ++ rest) ∙ next rest };
}

impl<A: Allocator + Copy> Draft<A> {
    // Takes in the next line. `last` is the line before, and empty where that is not at hand.
    fn add_text(&mut self, alloc: A, text: &[u8], last: &[u8]) -> Result<(), CaptureFault>
        requires { 0 < length last.now → HasBytesOf (line_of last.now) self.old }
        ensures capture { OnOk result (add_line self.old.line (line_of text.now)
            (capture_so_far self.old) ≡ Ok (capture_so_far self.new)) }
        ensures line { OnOk result (self.new.line ≡ next_line self.old.line) }
        ensures known { OnOk result (HasBytesOf (line_of text.now) self.new) }
        ensures refused { IfErr result (LeavesOut self.old (line_of text.now) self.new) }
    {
        let Some((feed, digits)) = digits_in(text) else {
            self.add_other(alloc, text)?;
            return Ok(());
        };
        match self.shared_bytes(alloc, digits, last)? {
            Some(bytes) => {
                self.add_datagram(feed, bytes)?;
                Ok(())
            }
            None => {
                self.add_other(alloc, text)?;
                Ok(())
            }
        }
    }

    // Gives the bytes that digits spell, where they are a datagram's: those of the line before, or decoded.
    fn shared_bytes(
        &mut self,
        alloc: A,
        digits: &[u8],
        last: &[u8],
    ) -> Result<Option<Bytes<A>>, AllocError>
        requires { 0 < length last.now → HasBytesOf (line_of last.now) self.old }
        ensures bytes { IfOk result (λ read. IfSome read (λ bytes. Spells digits.now bytes)) }
        ensures line { self.new.line ≡ self.old.line }
        ensures capture { capture_so_far self.new ≡ capture_so_far self.old }
    {
        let repeat = self.known_bytes(digits, last)?;
        if repeat.is_some() {
            return Ok(repeat);
        }
        self.blocks.decode(alloc, digits)
    }

    // Takes in the next line, which brings no datagram whose bytes may be shared.
    fn add_other(&mut self, alloc: A, text: &[u8]) -> Result<(), CaptureFault>
        ensures capture { OnOk result (add_line self.old.line (line_of text.now)
            (capture_so_far self.old) ≡ Ok (capture_so_far self.new)) }
        ensures line { OnOk result (self.new.line ≡ next_line self.old.line) }
        ensures known { OnOk result (HasBytesOf (line_of text.now) self.new) }
        ensures refused { IfErr result (LeavesOut self.old (line_of text.now) self.new) }
    {
        let line = line_of(alloc, text)?;
        self.add_line(line)?;
        self.brought_on = None;
        Ok(())
    }

    // Gives the bytes of these digits, where they are known.
    fn known_bytes(&self, digits: &[u8], last: &[u8]) -> Result<Option<Bytes<A>>, AllocError>
        requires { 0 < length last.now → HasBytesOf (line_of last.now) self.now }
        ensures { IfOk result (λ found. IfSome found (λ bytes. Spells digits.now bytes)) }
    {
        let Some(feed) = self.brought_on else {
            return Ok(None);
        };
        if last.is_empty() {
            return Ok(None);
        }
        if has_digits(last, digits) {
            self.newest(feed)
        } else {
            Ok(None)
        }
    }
}

/// Returns whether a line begins as a datagram's does and has these digits.
pub(crate) fn has_digits(text: &[u8], digits: &[u8]) -> bool
    ensures { result ≡ true → (feed : Feed)
        × (line_of text.now ≡ packet_of feed (fields digits.now)) }
{
    match digits_in(text) {
        Some((_, found)) => found == digits,
        None => false,
    }
}
