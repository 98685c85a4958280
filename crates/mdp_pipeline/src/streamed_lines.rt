//! The lines of a capture, which a run on one thread takes in as they come.

ghost use Rattle.std.specs.Prelude.{◌≡◌, ◌<◌, ◌≤◌, ◌++◌, [], List, ℕ, length, MatchOption, OnOk, IfOk, IfErr};
ghost use Rattle.mdp_capture.specs.Capture.{IfRefused};
ghost use Rattle.mdp_capture.specs.Decoded.{KnowsDatagramOf, content_with};
ghost use Rattle.mdp_capture.specs.Line.{Blank, Closing, Listing, Packet, Skipped};
ghost use Rattle.mdp_capture.specs.Parsed.{ListsDepth};
ghost use Rattle.mdp_crew.specs.Plan.{IsLawful, channel_in};
ghost use Rattle.mdp_templates.specs.Instrument.{AreFit, HasDepth};
ghost use Rattle.mdp_pipeline.specs.Running.{HasRun};
ghost use Rattle.mdp_pipeline.specs.Streamed.{BeginsRun, EndsAsCapture, HasHandedOn, IsBefore, IsRunOrFirst, LacksInstrument, LetsTextGo, RefusesContent, RefusesText, StandsBehind, TakesContent, TakesTexts, channel_with, setup_of, text_held};
ghost use Rattle.std.proofs.Common.{append-nil, append_assoc, subst, sym};

use crate::ended::EndedRun;
use crate::note::{Note, note_moves};
use crate::progress::Run;
use mdp_arbiter::Start;
use mdp_capture::{
    CaptureFault, CaptureRefusal, DecodedLine, InstrumentList, LineDecoder, Skip, SkippedLine,
    TakesLines,
};
use mdp_crew::RunPlan;
use mdp_templates::{Feed, Instrument, Memory};
use std::alloc::Allocator;

/// The lines of a capture that came so far: the instruments that they list, and from the first record on a run of
/// these, where one is listed. It holds what is shown and told of them until that is handed on.
#[derive(Drop)]
pub(crate) struct StreamedLines<A: Allocator + Copy> {
    window: u32,
    start: Start,
    /// The number of the next line.
    line: u32,
    pub(crate) instruments: InstrumentList<A>,
    /// Whether a record came.
    has_record: bool,
    pub(crate) run: Option<Run<A>>,
    decoder: LineDecoder<A>,
    notes: Vec<Note, A>,
}

// Plans a run over these instruments, whose window covers so many packet numbers, 1 to 65536.
fn plan_over(instruments: &[Instrument], window: u32, start: Start) -> RunPlan<'_>
    ensures channel { 1 ≤ window → window ≤ 65536
        → channel_in result ≡ channel_with instruments.now (setup_of window start) }
    ensures lawful { AreFit instruments.now → IsLawful result }
{
    RunPlan {
        instruments,
        window: window.clamp(1, 65536),
        start,
        workers: 1,
    }
}

// Gives the run that has begun; where none has, it begins here.
fn run_or_first<A: Allocator + Copy>(
    alloc: A,
    run: Option<Run<A>>,
    plan: RunPlan<'_>,
) -> Result<Run<A>, Memory>
    requires { IsLawful plan }
    ensures { IfOk result (IsRunOrFirst (channel_in plan.entry) run) }
{
    match run {
        Some(run) => Ok(run),
        None => Run::new(alloc, plan),
    }
}

// Lets go the text that a run holds, if one has begun.
fn clear_text<A: Allocator + Copy>(run: &mut Option<Run<A>>)
    ensures { LetsTextGo run.old run.new }
{
    match run {
        Some(run) => run.handler.clear_lines(),
        None => {}
    }
}

impl<A: Allocator + Copy> TakesLines<A> for StreamedLines<A> {
    ghost takes = { λ old front new. TakesTexts old front new };

    ghost took_last = { λ lines text. KnowsDatagramOf text lines.decoder };

    ghost refuses = { λ lines text refused. RefusesText lines text refused };

    fn take_line(&mut self, alloc: A, text: &[u8], last: &[u8]) -> Result<(), CaptureFault> {
        let line = self.decoder.decode(alloc, text, last)?;
        self.take(alloc, line)?;
        self.line = self.line.saturating_add(1);
        Ok(())
    }

    ghost takes_none = { λ x setup before sent told stands.
        subst (λ (texts : List (List ℕ)). StandsBehind setup texts sent told x)
        (sym (append-nil before)) stands };

    ghost takes_more = { λ x y z front more first next setup before sent told stands.
        subst (λ (texts : List (List ℕ)). StandsBehind setup texts sent told z)
        (append_assoc before front more)
        (next setup (before ++ front) sent told (first setup before sent told stands)) };
}

impl<A: Allocator + Copy> StreamedLines<A> {
    /// Makes a run before its first line.
    pub(crate) fn new(alloc: A, window: u32, start: Start) -> StreamedLines<A>
        requires some { 1 ≤ window }
        requires most { window ≤ 65536 }
        ensures { IsBefore (setup_of window start) result }
    {
        StreamedLines {
            window,
            start,
            line: 1,
            instruments: InstrumentList::new(alloc),
            has_record: false,
            run: None,
            decoder: LineDecoder::new(alloc),
            notes: Vec::new(alloc),
        }
    }

    /// Lends the text that is shown and was not handed on.
    pub(crate) fn text(&self) -> &[u8]
        ensures { result.now ≡ text_held self.now.run }
    {
        match &self.run {
            Some(run) => run.handler.lines(),
            None => &[],
        }
    }

    /// Lends the notes that were not handed on.
    pub(crate) fn notes(&self) -> &[Note]
        ensures { result.now ≡ self.now.notes.items }
    {
        self.notes.as_slice()
    }

    /// Lets go what is shown and told, since it was handed on.
    pub(crate) fn clear(&mut self)
        ensures { HasHandedOn self.old self.new }
    {
        clear_text(&mut self.run);
        self.notes.clear();
    }

    /// Gives the run of a text that has ended, behind all its lines; where no record came, it begins here.
    pub(crate) fn into_ended(self, alloc: A) -> Result<EndedRun<A>, CaptureFault>
        ensures ended { IfOk result (EndsAsCapture self) }
        ensures refused { IfErr result (λ fault. IfRefused fault (LacksInstrument self)) }
    {
        let StreamedLines {
            window,
            start,
            instruments,
            run,
            ..
        } = self;
        if instruments.as_slice().is_empty() {
            return Err(CaptureFault::Refused {
                line: 0,
                refusal: CaptureRefusal::NoInstrument,
            });
        }
        let plan = plan_over(instruments.as_slice(), window, start);
        let run = run_or_first(alloc, run, plan)?;
        Ok(EndedRun { instruments, run })
    }

    // Takes in what a line says, and does not count it.
    fn take(&mut self, alloc: A, line: DecodedLine) -> Result<(), CaptureFault>
        requires { ListsDepth (content_with self.old.decoder.bytes line) }
        ensures taken { OnOk result (TakesContent (content_with self.old.decoder.bytes line)
            self.old self.new) }
        ensures line { self.new.line ≡ self.old.line }
        ensures decoder { self.new.decoder ≡ self.old.decoder }
        ensures refused { IfErr result (λ fault. IfRefused fault (λ refused.
            (self.new ≡ self.old)
            × RefusesContent (content_with self.old.decoder.bytes line) self.old refused)) }
    {
        match line {
            DecodedLine::Blank => Ok(()),
            DecodedLine::Instrument(instrument) => self.list(instrument),
            DecodedLine::Datagram(feed) => {
                self.take_datagram(alloc, feed)?;
                Ok(())
            }
            DecodedLine::Close => {
                self.take_close(alloc)?;
                Ok(())
            }
            DecodedLine::Skipped(skip) => self.skip(skip),
        }
    }

    // Lists an instrument, or refuses the run.
    fn list(&mut self, instrument: Instrument) -> Result<(), CaptureFault>
        requires { HasDepth instrument }
        ensures taken { OnOk result (TakesContent (Listing instrument) self.old self.new) }
        ensures line { self.new.line ≡ self.old.line }
        ensures decoder { self.new.decoder ≡ self.old.decoder }
        ensures refused { IfErr result (λ fault. IfRefused fault (λ refused.
            (self.new ≡ self.old) × RefusesContent (Listing instrument) self.old refused)) }
    {
        let line = self.line;
        if self.has_record {
            let refusal = CaptureRefusal::InstrumentLate;
            return Err(CaptureFault::Refused { line, refusal });
        }
        match self.instruments.add(instrument)? {
            Some(refusal) => Err(CaptureFault::Refused { line, refusal }),
            None => Ok(()),
        }
    }

    // Notes that this line is skipped, and why.
    fn skip(&mut self, skip: Skip) -> Result<(), CaptureFault>
        ensures taken { OnOk result (TakesContent (Skipped skip) self.old self.new) }
        ensures line { self.new.line ≡ self.old.line }
        ensures decoder { self.new.decoder ≡ self.old.decoder }
        ensures memory { IfErr result (λ fault. fault ≡ CaptureFault.Memory) }
    {
        let line = self.line;
        self.notes.push(Note::Skipped(SkippedLine { line, skip }))?;
        Ok(())
    }

    // Makes the run of the instruments that are listed, if any.
    fn first_run(&self, alloc: A) -> Result<Option<Run<A>>, Memory>
        ensures { IfOk result (λ made. MatchOption made (self.now.instruments ≡ [])
            (λ run. (0 < length self.now.instruments) × (1 ≤ self.now.window
            → self.now.window ≤ 65536 → HasRun (channel_with self.now.instruments
            (setup_of self.now.window self.now.start)) [] [] run))) }
    {
        let instruments = self.instruments.as_slice();
        if instruments.is_empty() {
            return Ok(None);
        }
        let plan = plan_over(instruments, self.window, self.start);
        Ok(Some(Run::new(alloc, plan)?))
    }

    // Begins the run where this is the first record.
    fn begin(&mut self, alloc: A) -> Result<(), Memory>
        ensures begins { OnOk result (BeginsRun self.old self.new) }
        ensures line { self.new.line ≡ self.old.line }
        ensures decoder { self.new.decoder ≡ self.old.decoder }
    {
        if self.has_record {
            return Ok(());
        }
        let run = self.first_run(alloc)?;
        self.run = run;
        self.has_record = true;
        Ok(())
    }

    // Takes the datagram that this line brings on a feed.
    fn take_datagram(&mut self, alloc: A, feed: Feed) -> Result<(), Memory>
        ensures taken { OnOk result (TakesContent (Packet feed self.old.decoder.bytes)
            self.old self.new) }
        ensures line { self.new.line ≡ self.old.line }
        ensures decoder { self.new.decoder ≡ self.old.decoder }
    {
        self.begin(alloc)?;
        let Some(run) = &mut self.run else {
            return Ok(());
        };
        let bytes = self.decoder.bytes();
        let moved = run.take_datagram_with_moves(alloc, feed, self.line, bytes)?;
        note_moves(&mut self.notes, self.line, moved)?;
        Ok(())
    }

    // Takes the close that this line brings.
    fn take_close(&mut self, alloc: A) -> Result<(), Memory>
        ensures taken { OnOk result (TakesContent Closing self.old self.new) }
        ensures line { self.new.line ≡ self.old.line }
        ensures decoder { self.new.decoder ≡ self.old.decoder }
    {
        self.begin(alloc)?;
        let Some(run) = &mut self.run else {
            return Ok(());
        };
        run.take_close(Feed::S, self.line)
    }
}
