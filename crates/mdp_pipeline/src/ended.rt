//! A run that has come to its end.

ghost use Rattle.std.specs.Prelude.{◌≡◌, ◌<◌, ◌^◌, ◌-◌, ◌++◌, List, ℕ, IfOk, IfErr, length};
ghost use Rattle.mdp_arbiter.specs.Channel.{ListedChannel};
ghost use Rattle.mdp_capture.specs.Lines.{NumberedLine};
ghost use Rattle.mdp_crew.specs.Arbitrating.{IsNextNumber};
ghost use Rattle.mdp_crew.specs.Faults.{FailsBy, written_before};
ghost use Rattle.mdp_pipeline.specs.Notes.{end_note, stale_note};
ghost use Rattle.mdp_pipeline.specs.Output.{BeginsInTextOrder, standing_in};
ghost use Rattle.mdp_pipeline.specs.Streamed.{EndsAfter, PrintsLines};
ghost use Rattle.mdp_pipeline.specs.declared.note.Note.{Note as Notes};

use crate::in_order::finish;
use crate::progress::Run;
use crate::summary::Summary;
use mdp_capture::InstrumentList;
use mdp_crew::RunFault;
use mdp_print::CountedWrite;
use mdp_receiver::ChannelState;
use mdp_templates::Instrument;
use std::alloc::Allocator;

/// What keeps a run from going on where its text ends.
#[derive(Drop)]
pub enum EndNote {
    /// So many packets wait for this one, which never came.
    Waits { next: u64, held: u64 },
    /// The receiver is lost, and of this security, the first such in listed order, no snapshot came that includes each
    /// packet that is given up.
    NoSnapshot(Instrument),
}

/// A run over all lines of a capture, or all frames of a recording, whose end is still to be written.
#[derive(Drop)]
pub struct EndedRun<A: Allocator + Copy> {
    /// The instruments of its channel, in listed order.
    pub instruments: InstrumentList<A>,
    /// What it has come to.
    pub run: Run<A>,
}

impl<A: Allocator + Copy> EndedRun<A> {
    /// Returns what keeps the run from going on, if anything does.
    pub fn note(&self) -> Option<EndNote>
        ensures { result ≡ end_note self.now.instruments self.now.run.handler }
    {
        let ChannelState {
            next,
            lost,
            waiting,
            stale,
            ..
        } = self.run.handler.state();
        if lost {
            return self.stale_note(stale);
        }
        if waiting == 0 {
            return None;
        }
        Some(EndNote::Waits {
            next,
            held: waiting,
        })
    }

    // Names the security at a slot, of which a snapshot is missing.
    fn stale_note(&self, stale: Option<usize>) -> Option<EndNote>
        ensures { result ≡ stale_note self.now.instruments stale }
    {
        let instrument = self.instruments.as_slice().get(stale?)?;
        Some(EndNote::NoSnapshot(instrument.copy()))
    }

    /// Writes what the run still holds of its text, and the end of it: the lines of refused datagrams, feed by feed,
    /// and the last line. The writer had taken `since` bytes before the run.
    ///
    /// # Errors
    ///
    /// `Output` exactly where a write failed, else `Memory`. The bytes that went out before are a beginning of what the
    /// whole run prints.
    pub fn finish<W: CountedWrite>(
        self,
        alloc: A,
        writer: &mut W,
        since: u64,
    ) -> Result<Summary, RunFault>
        requires { W.failed writer.old < 2 ^ 64 - 1 }
        ensures text { IfOk result (λ summary. (channel : ListedChannel)
            (came : List NumberedLine) (start sent : List ℕ) (notes : List Notes)
            → EndsAfter channel came sent notes self → W.taken writer.old ≡ start ++ sent
            → (text : List ℕ) × (W.taken writer.new ≡ start ++ text)
            × PrintsLines channel came notes text (standing_in summary)) }
        ensures begins { IfErr result (λ _. (channel : ListedChannel)
            (came : List NumberedLine) (start sent : List ℕ) (notes : List Notes)
            → EndsAfter channel came sent notes self → W.taken writer.old ≡ start ++ sent
            → BeginsInTextOrder channel came start (W.taken writer.new)) }
        ensures written { IfOk result (λ summary.
            summary.written ≡ length (W.taken writer.new) - since) }
        ensures told { IfErr result (λ fault.
            written_before fault ≡ length (W.taken writer.new) - since) }
        ensures range { IfOk result (λ summary. IsNextNumber summary.next) }
        ensures failed { FailsBy result (W.failed writer.old) (W.failed writer.new) }
    {
        finish(alloc, writer, self.run, since)
    }
}
