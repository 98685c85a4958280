//! A capture under construction.

ghost use Rattle.std.specs.Prelude.{◌≡◌, ◌++◌, ◌∷◌, [], List, OnOk, IfOk, IfErr, IfSome};
ghost use Rattle.mdp_capture.specs.Line.{LineContent, Listing, Packet, Skipped};
ghost use Rattle.mdp_capture.specs.Part.{ListDepths, capture_after, contents_of};
ghost use Rattle.mdp_capture.specs.Capture.{add_line, add_record, add_instrument, has_record, next_line, no_capture, needs_instrument, IsTextFaultOf};
ghost use Rattle.mdp_capture.specs.Parsed.{ListsDepth, content_of};
ghost use Rattle.mdp_capture.specs.Repeats.{HasBytesOf, newest_of, newest_on};
ghost use Rattle.mdp_capture.specs.Draft.{capture_so_far, LeavesOut};
ghost use Rattle.mdp_templates.specs.Instrument.{AreFit, HasDepth};

use crate::blocks::Blocks;
use crate::capture::Capture;
use crate::fault::{CaptureFault, CaptureRefusal};
use crate::instrument_list::InstrumentList;
use crate::line::Line;
use crate::record::Record;
use crate::skip::{Skip, SkippedLine};
use bytes::Bytes;
use mdp_templates::{Feed, Instrument};
use std::alloc::{AllocError, Allocator};

/// A capture under construction, with the number of its next line.
#[derive(Drop)]
pub(crate) struct Draft<A: Allocator> {
    pub(crate) line: u32,
    pub(crate) instruments: InstrumentList<A>,
    a: Vec<Record<A>, A>,
    b: Vec<Record<A>, A>,
    s: Vec<Record<A>, A>,
    skipped: Vec<SkippedLine, A>,
    pub(crate) blocks: Blocks<A>,
    /// The feed on which the line before brought a datagram whose bytes may be shared, where that is
    /// known.
    pub(crate) brought_on: Option<Feed>,
}

impl<A: Allocator + Copy> Draft<A> {
    /// Makes a capture before its first line.
    pub(crate) fn new(alloc: A) -> Draft<A>
        ensures line { result.line ≡ 1 }
        ensures nothing { capture_so_far result ≡ no_capture }
    {
        Draft {
            line: 1,
            instruments: InstrumentList::new(alloc),
            a: Vec::new(alloc),
            b: Vec::new(alloc),
            s: Vec::new(alloc),
            skipped: Vec::new(alloc),
            blocks: Blocks::new(alloc),
            brought_on: None,
        }
    }

    /// Takes in the next line.
    pub(crate) fn add_line(&mut self, line: Line<A>) -> Result<(), CaptureFault>
        requires { ListsDepth (content_of line) }
        ensures capture { OnOk result (add_line self.old.line (content_of line)
            (capture_so_far self.old) ≡ Ok (capture_so_far self.new)) }
        ensures line { OnOk result (self.new.line ≡ next_line self.old.line) }
        ensures refused { IfErr result (LeavesOut self.old (content_of line) self.new) }
    {
        self.add(line)?;
        self.line = self.line.saturating_add(1);
        Ok(())
    }

    /// Takes in the next lines.
    pub(crate) fn add_lines(&mut self, lines: Vec<Line<A>, A>) -> Result<(), CaptureFault>
        requires { ListDepths lines.items }
        ensures capture { OnOk result ((rest : List LineContent) →
            capture_after self.old (contents_of lines.items ++ rest) ≡ capture_after self.new rest) }
        ensures refused { IfErr result (λ fault. (rest : List LineContent) →
            IsTextFaultOf (capture_after self.old (contents_of lines.items ++ rest)) fault) }
    {
        for line in lines {
            self.add_line(line)?;
        }
        Ok(())
    }

    // Takes in what a line says, and does not count it.
    fn add(&mut self, line: Line<A>) -> Result<(), CaptureFault>
        requires { ListsDepth (content_of line) }
        ensures capture { OnOk result (add_line self.old.line (content_of line)
            (capture_so_far self.old) ≡ Ok (capture_so_far self.new)) }
        ensures line { self.new.line ≡ self.old.line }
        ensures refused { IfErr result (LeavesOut self.old (content_of line) self.new) }
    {
        match line {
            Line::Blank => Ok(()),
            Line::Listing(instrument) => self.add_instrument(instrument),
            Line::Packet(feed, bytes) => self.add_record(feed, Record::datagram(self.line, bytes)),
            Line::Shared(feed, bytes) => self.add_record(feed, Record::shared(self.line, bytes)),
            Line::Closing => self.add_record(Feed::S, Record::close(self.line)),
            Line::Skipped(skip) => self.skip_line(skip),
        }
    }

    // Appends a record to its feed's list.
    fn add_record(&mut self, feed: Feed, entry: Record<A>) -> Result<(), CaptureFault>
        ensures capture { OnOk result (add_record feed entry (capture_so_far self.old)
            ≡ capture_so_far self.new) }
        ensures line { self.new.line ≡ self.old.line }
        ensures memory { IfErr result (λ fault. fault ≡ CaptureFault.Memory) }
    {
        match feed {
            Feed::A => self.a.push(entry)?,
            Feed::B => self.b.push(entry)?,
            Feed::S => self.s.push(entry)?,
        }
        Ok(())
    }

    /// Takes in the next line, which brings a datagram of these bytes.
    pub(crate) fn add_datagram(&mut self, feed: Feed, bytes: Bytes<A>) -> Result<(), CaptureFault>
        ensures capture { OnOk result (add_line self.old.line (Packet feed bytes)
            (capture_so_far self.old) ≡ Ok (capture_so_far self.new)) }
        ensures line { OnOk result (self.new.line ≡ next_line self.old.line) }
        ensures known { OnOk result (HasBytesOf (Packet feed bytes) self.new) }
        ensures memory { IfErr result (λ fault. fault ≡ CaptureFault.Memory) }
    {
        self.add_record(feed, Record::shared(self.line, bytes))?;
        self.line = self.line.saturating_add(1);
        self.brought_on = Some(feed);
        Ok(())
    }

    /// Gives the bytes of the last record of a feed once more, where it is a datagram whose bytes records may share.
    pub(crate) fn newest(&self, feed: Feed) -> Result<Option<Bytes<A>>, AllocError>
        ensures { IfOk result (λ found. IfSome found
            (λ bytes. newest_on feed (capture_so_far self.now) ≡ Some bytes)) }
    {
        match feed {
            Feed::A => newest_of(self.a.as_slice()),
            Feed::B => newest_of(self.b.as_slice()),
            Feed::S => newest_of(self.s.as_slice()),
        }
    }

    // Notes that this line is skipped, and why.
    fn skip_line(&mut self, skip: Skip) -> Result<(), CaptureFault>
        ensures capture { OnOk result (add_line self.old.line (Skipped skip)
            (capture_so_far self.old) ≡ Ok (capture_so_far self.new)) }
        ensures line { self.new.line ≡ self.old.line }
        ensures memory { IfErr result (λ fault. fault ≡ CaptureFault.Memory) }
    {
        let line = self.line;
        self.skipped.push(SkippedLine { line, skip })?;
        Ok(())
    }

    // Lists an instrument, or refuses the capture.
    fn add_instrument(&mut self, instrument: Instrument) -> Result<(), CaptureFault>
        requires { HasDepth instrument }
        ensures capture { OnOk result (add_instrument self.old.line instrument
            (capture_so_far self.old) ≡ Ok (capture_so_far self.new)) }
        ensures line { self.new.line ≡ self.old.line }
        ensures refused { IfErr result (LeavesOut self.old (Listing instrument) self.new) }
    {
        let line = self.line;
        if self.has_record() {
            let refusal = CaptureRefusal::InstrumentLate;
            return Err(CaptureFault::Refused { line, refusal });
        }
        match self.instruments.add(instrument)? {
            Some(refusal) => Err(CaptureFault::Refused { line, refusal }),
            None => Ok(()),
        }
    }

    // Returns whether a feed has a record.
    fn has_record(&self) -> bool
        ensures { result ≡ has_record (capture_so_far self.now) }
    {
        !self.a.is_empty() || !self.b.is_empty() || !self.s.is_empty()
    }

    /// Gives the whole capture.
    pub(crate) fn finish(self) -> Result<Capture<A>, CaptureFault>
        ensures capture { IfOk result (λ capture. needs_instrument (Ok (capture_so_far self))
            ≡ Ok capture) }
        ensures fit { IfOk result (λ capture. AreFit capture.instruments) }
        ensures refused { IfErr result (IsTextFaultOf (needs_instrument (Ok (capture_so_far self)))) }
    {
        if self.instruments.as_slice().is_empty() {
            return Err(CaptureFault::Refused {
                line: 0,
                refusal: CaptureRefusal::NoInstrument,
            });
        }
        let instruments = self.instruments.into_vec();
        Ok(Capture::new(instruments, self.a, self.b, self.s, self.skipped))
    }
}

// Gives the bytes of the last record once more, where it is a datagram whose bytes records may share.
fn newest_of<A: Allocator>(records: &[Record<A>]) -> Result<Option<Bytes<A>>, AllocError>
    ensures { IfOk result (λ found. IfSome found (λ bytes. newest_of records.now ≡ Some bytes)) }
{
    match records.last() {
        Some(record) => record.share(),
        None => Ok(None),
    }
}
