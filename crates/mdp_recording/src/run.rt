//! A run over a recording as it comes, on one thread.

ghost use Rattle.std.specs.Prelude.{◌≡◌, ◌<◌, ◌≤◌, [], IfOk, OnOk, length};
ghost use Rattle.mdp_pcap.specs.Reader.{content_of, ending_of};
ghost use Rattle.mdp_pipeline.specs.Streamed.{channel_with, setup_of};
ghost use Rattle.mdp_recording.specs.Frames.{beside};
ghost use Rattle.mdp_recording.specs.Recorded.{EndsAsRecording, Follows, HasHandedOn, HoldsNothing, TakesPiece};

use crate::datagrams::FramedDatagrams;
use mdp_arbiter::Start;
use mdp_capture::InstrumentList;
use mdp_crew::RunPlan;
use mdp_pcap::{FeedAddresses, PcapFault, PcapReader};
use mdp_pipeline::{EndedRun, Note, Run};
use mdp_templates::Memory;
use std::alloc::Allocator;

/// A run over a recording of a channel, each piece of which is taken in as it comes. Of a piece it holds what its
/// frames show and what is told of them, until that is handed on. Beside that it keeps the instruments and the feeds'
/// addresses, what waits in the window, a block of the file that is not whole yet, and eight bytes for each refused
/// datagram.
///
/// Once memory has run out it has failed: nothing is known of what it holds.
#[derive(Drop)]
pub struct RecordedRun<A: Allocator + Copy> {
    reader: PcapReader<A>,
    datagrams: FramedDatagrams<A>,
    instruments: InstrumentList<A>,
}

impl<A: Allocator + Copy> RecordedRun<A> {
    /// Makes a run before its recording, over a channel of these instruments, one at least, whose feeds have these
    /// addresses. Its window covers so many packet numbers, 1 to 65536.
    ///
    /// # Errors
    ///
    /// Where memory ran out.
    pub fn new(
        alloc: A,
        instruments: InstrumentList<A>,
        addresses: FeedAddresses<A>,
        window: u32,
        start: Start,
    ) -> Result<RecordedRun<A>, Memory>
        requires listed { 0 < length instruments }
        requires some { 1 ≤ window }
        requires most { window ≤ 65536 }
        ensures before { IfOk result (Follows
            (beside (channel_with instruments (setup_of window start)) addresses [] []) []) }
        ensures idle { IfOk result HoldsNothing }
    {
        let plan = RunPlan {
            instruments: instruments.as_slice(),
            window,
            start,
            workers: 1,
        };
        let run = Run::new(alloc, plan)?;
        Ok(RecordedRun {
            reader: PcapReader::new(alloc),
            datagrams: FramedDatagrams {
                alloc,
                addresses,
                run,
                notes: Vec::new(alloc),
                has_cut: false,
            },
            instruments,
        })
    }

    /// Takes in the next piece of the recording: each frame that is whole by now. After a fault of the file it takes in
    /// nothing more.
    ///
    /// # Errors
    ///
    /// Where memory ran out.
    pub fn take_piece(&mut self, piece: &[u8]) -> Result<(), Memory>
        ensures { OnOk result (TakesPiece piece.now self.old self.new) }
    {
        match self.reader.take_piece(piece, &mut self.datagrams) {
            Ok(()) => Ok(()),
            Err(_) => Err(Memory),
        }
    }

    /// Gives the fault of the file at which it stopped, if it did.
    pub fn fault(&self) -> Option<PcapFault>
        ensures { result ≡ (content_of self.now.reader).fault }
    {
        self.reader.fault()
    }

    /// Gives the fault of the file, if its input ends here.
    pub fn ending(&self) -> Option<PcapFault>
        ensures { result ≡ ending_of (content_of self.now.reader) }
    {
        self.reader.ending()
    }

    /// Gives the number that the next frame has.
    pub fn number(&self) -> u32
        ensures { result ≡ (content_of self.now.reader).number }
    {
        self.reader.number()
    }

    /// Lends the lines that are shown and were not handed on.
    pub fn text(&self) -> &[u8]
        ensures { result.now ≡ self.now.datagrams.run.handler.held }
    {
        self.datagrams.run.handler.lines()
    }

    /// Lends what is told of the frames and was not handed on.
    pub fn notes(&self) -> &[Note]
        ensures { result.now ≡ self.now.datagrams.notes.items }
    {
        self.datagrams.notes.as_slice()
    }

    /// Lets go what it holds, since it was handed on.
    pub fn clear(&mut self)
        ensures { HasHandedOn self.old self.new }
    {
        self.datagrams.run.handler.clear_lines();
        self.datagrams.notes.clear();
    }

    /// Gives the run of a recording that has ended.
    pub fn into_ended(self) -> EndedRun<A>
        ensures { EndsAsRecording self result }
    {
        let RecordedRun {
            datagrams,
            instruments,
            ..
        } = self;
        let FramedDatagrams { run, .. } = datagrams;
        EndedRun { instruments, run }
    }
}
