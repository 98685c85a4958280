//! A run over a recording of a channel as it comes, on one thread.

ghost use Rattle.std.specs.Prelude.{◌≡◌, ◌≢◌, ◌<◌, ◌≤◌, ◌-◌, ◌++◌, ◌^◌, ◌⊎◌, [], List, ℕ, IfOk, IfErr, OnOk, length};
ghost use Rattle.mdp_arbiter.specs.Channel.{ListedChannel};
ghost use Rattle.mdp_crew.specs.Faults.{FailsBy, written_before};
ghost use Rattle.mdp_pcap.specs.declared.addresses.FeedAddress.{FeedAddress as Address};
ghost use Rattle.mdp_handler.specs.CommandLine.{AreLawful};
ghost use Rattle.mdp_handler.specs.Faults.{Tells};
ghost use Rattle.mdp_handler.specs.Live.{IsInput, went};
ghost use Rattle.mdp_handler.specs.Recording.{CountsEarly, EndsAs, FailsEarly, FramesSoFar, HasBegunFrames, ReadsEarly, refusal_at, refuses};
ghost use Rattle.mdp_handler.specs.Outcome.{Fails, HasEndedRecording, HasFailedRecording, HasRefusedRecording, effects, setup_asked};
ghost use Rattle.mdp_pipeline.specs.Streamed.{channel_with};
ghost use Rattle.mdp_handler.specs.declared.recording.EarlyEnd.TheVariants as early_ends;

use crate::faults::{Place, tell_end, tell_input, tell_memory, tell_notes, tell_output, tell_pcap};
use crate::live::room;
use crate::program::{DONE, FAILED, REFUSED};
use crate::settings::Settings;
use mdp_capture::CountedRead;
use mdp_channel::ChannelFile;
use mdp_crew::{RunFault, hand_on, out_of_memory};
use mdp_pcap::PcapFault;
use mdp_print::CountedWrite;
use mdp_recording::RecordedRun;
use std::alloc::Allocator;

/// Why a run over a recording ended before its recording did.
#[derive(Clone, Copy, Debug, PartialEq, Eq)]
pub enum EarlyEnd {
    /// Memory ran out, or a write failed.
    Run(RunFault),
    /// A read failed.
    Input,
}

impl From<RunFault> for EarlyEnd {
    ghost from_gives = { λ fault e. e ≡ early_ends.Run fault };

    fn from(fault: RunFault) -> EarlyEnd {
        EarlyEnd::Run(fault)
    }
}

/// How a recording came to its end.
#[derive(Clone, Copy, Debug, PartialEq, Eq)]
pub enum RecordingEnd {
    /// It is whole.
    Whole,
    /// It has a fault behind its first frames, or none of its blocks is whole.
    Faulty,
    /// It is no recording, or its first frame would have a link type that is not read.
    Refused,
}

/// Handles the next piece of a recording: takes in each frame that is whole by now, tells what is told of these frames,
/// and writes what they show. The run holds nothing after it.
///
/// # Errors
///
/// `Memory` where memory ran out, and then nothing of this piece is told or written, or `Output` where a write failed.
pub fn handle_frames<O: CountedWrite, F: CountedWrite, A: Allocator + Copy>(
    run: &mut RecordedRun<A>,
    piece: &[u8],
    output: &mut O,
    faults: &mut F,
    since: u64,
) -> Result<(), RunFault>
    requires { O.failed output.old < 2 ^ 64 - 1 }
    ensures handled { OnOk result ((channel : ListedChannel) (addresses : List Address)
        (text start : List ℕ) (first : F)
        → FramesSoFar channel addresses text
        (went start (O.taken output.old) (Tells F.failed F.taken first faults.old)) run.old
        → FramesSoFar channel addresses (text ++ piece.now)
        (went start (O.taken output.new) (Tells F.failed F.taken first faults.new)) run.new) }
    ensures begun { IfErr result (λ _. (channel : ListedChannel) (addresses : List Address)
        (text more start : List ℕ) (first : F)
        → FramesSoFar channel addresses text
        (went start (O.taken output.old) (Tells F.failed F.taken first faults.old)) run.old
        → HasBegunFrames channel addresses ((text ++ piece.now) ++ more)
        (went start (O.taken output.new) (Tells F.failed F.taken first faults.new))) }
    ensures counted { IfErr result (λ fault.
        written_before fault ≡ length (O.taken output.new) - since) }
    ensures failed { FailsBy result (O.failed output.old) (O.failed output.new) }
{
    let Ok(()) = run.take_piece(piece) else {
        return Err(out_of_memory(output, since));
    };
    tell_notes(faults, Place::Frame, run.notes());
    hand_on(output, run.text(), since)?;
    run.clear();
    Ok(())
}

// Handles a recording piece by piece, to its end or its first fault.
fn read_frames<I: CountedRead, O: CountedWrite, F: CountedWrite, A: Allocator + Copy>(
    run: &mut RecordedRun<A>,
    piece: &mut [u8],
    input: &mut I,
    output: &mut O,
    faults: &mut F,
    since: u64,
) -> Result<(), EarlyEnd>
    requires room { 0 < length piece.old }
    requires input { I.failed input.old < 2 ^ 64 - 1 }
    requires output { O.failed output.old < 2 ^ 64 - 1 }
    ensures read { OnOk result ((channel : ListedChannel) (addresses : List Address)
        (start : List ℕ) (first : F)
        → FramesSoFar channel addresses []
        (went start (O.taken output.old) (Tells F.failed F.taken first faults.old)) run.old
        → (whole : List ℕ) × IsInput (I.rest input.old) whole
        × FramesSoFar channel addresses whole
        (went start (O.taken output.new) (Tells F.failed F.taken first faults.new)) run.new) }
    ensures begun { IfErr result (λ _. (channel : ListedChannel) (addresses : List Address)
        (start : List ℕ) (first : F)
        → FramesSoFar channel addresses []
        (went start (O.taken output.old) (Tells F.failed F.taken first faults.old)) run.old
        → (whole : List ℕ) × IsInput (I.rest input.old) whole
        × HasBegunFrames channel addresses whole
        (went start (O.taken output.new) (Tells F.failed F.taken first faults.new))) }
    ensures counted { IfErr result (CountsEarly (length (O.taken output.new) - since)) }
    ensures reads { ReadsEarly result (I.failed input.old) (I.failed input.new) }
    ensures writes { FailsEarly result (O.failed output.old) (O.failed output.new) }
{
    loop {
        if let Some(_) = run.fault() {
            return Ok(());
        }
        match input.read(piece) {
            Ok(0) => return Ok(()),
            Ok(n) => handle_frames(run, &piece[..n], output, faults, since)?,
            Err(_) => return Err(EarlyEnd::Input),
        }
    }
}

// Returns whether a recording with this fault is refused, if no frame stands before it.
fn refuses(fault: PcapFault) -> bool
    ensures { result ≡ refuses fault }
{
    match fault {
        PcapFault::NotPcap => true,
        PcapFault::LinkType => true,
        PcapFault::RecordSize => false,
        PcapFault::CutShort => false,
    }
}

// Gives the fault for which a recording is refused, whose next frame would have this number.
fn refusal_at(number: u32, ending: Option<PcapFault>) -> Option<PcapFault>
    ensures { result ≡ refusal_at number ending }
{
    let fault = ending?;
    if number == 1 && refuses(fault) {
        return Some(fault);
    }
    None
}

// Writes the end of the text where the recording is not refused, and tells what keeps the run from going on, and the
// fault of the recording.
fn finish_frames<O: CountedWrite, F: CountedWrite, A: Allocator + Copy>(
    alloc: A,
    run: RecordedRun<A>,
    output: &mut O,
    faults: &mut F,
    since: u64,
) -> Result<RecordingEnd, RunFault>
    requires { O.failed output.old < 2 ^ 64 - 1 }
    ensures ended { IfOk result (λ end. (channel : ListedChannel) (addresses : List Address)
        (text start : List ℕ) (first : F)
        → FramesSoFar channel addresses text
        (went start (O.taken output.old) (Tells F.failed F.taken first faults.old)) run
        → EndsAs channel addresses text
        (went start (O.taken output.new) (Tells F.failed F.taken first faults.new)) end) }
    ensures begun { IfErr result (λ _. (channel : ListedChannel) (addresses : List Address)
        (text start : List ℕ) (first : F)
        → FramesSoFar channel addresses text
        (went start (O.taken output.old) (Tells F.failed F.taken first faults.old)) run
        → HasBegunFrames channel addresses text
        (went start (O.taken output.new) (Tells F.failed F.taken first faults.new))) }
    ensures counted { IfErr result (λ fault.
        written_before fault ≡ length (O.taken output.new) - since) }
    ensures failed { FailsBy result (O.failed output.old) (O.failed output.new) }
{
    let number = run.number();
    let ending = run.ending();
    if let Some(fault) = refusal_at(number, ending) {
        tell_pcap(faults, number, fault);
        return Ok(RecordingEnd::Refused);
    }
    let ended = run.into_ended();
    let note = ended.note();
    ended.finish(alloc, output, since)?;
    tell_end(faults, &note);
    let Some(fault) = ending else {
        return Ok(RecordingEnd::Whole);
    };
    tell_pcap(faults, number, fault);
    Ok(RecordingEnd::Faulty)
}

// Handles a recording of this channel to its end.
fn handle_recording<I: CountedRead, O: CountedWrite, F: CountedWrite, A: Allocator + Copy>(
    alloc: A,
    channel: ChannelFile<A>,
    settings: Settings<'_>,
    input: &mut I,
    output: &mut O,
    faults: &mut F,
) -> Result<RecordingEnd, EarlyEnd>
    requires listed { 0 < length channel.instruments }
    requires lawful { AreLawful settings }
    requires input { I.failed input.old < 2 ^ 64 - 1 }
    requires output { O.failed output.old < 2 ^ 64 - 1 }
    ensures ended { IfOk result (λ end. (whole : List ℕ) × IsInput (I.rest input.old) whole
        × EndsAs (channel_with channel.instruments (setup_asked settings.entry)) channel.addresses whole
        (went (O.taken output.old) (O.taken output.new)
        (Tells F.failed F.taken faults.old faults.new)) end) }
    ensures begun { IfErr result (λ _. (whole : List ℕ) × IsInput (I.rest input.old) whole
        × HasBegunFrames (channel_with channel.instruments (setup_asked settings.entry))
        channel.addresses whole (went (O.taken output.old) (O.taken output.new)
        (Tells F.failed F.taken faults.old faults.new))) }
    ensures counted { IfErr result
        (CountsEarly (length (O.taken output.new) - length (O.taken output.old))) }
    ensures reads { ReadsEarly result (I.failed input.old) (I.failed input.new) }
    ensures writes { FailsEarly result (O.failed output.old) (O.failed output.new) }
{
    let since = output.written();
    let ChannelFile {
        instruments,
        addresses,
    } = channel;
    let Ok(mut piece) = room(alloc) else {
        return Err(EarlyEnd::Run(out_of_memory(output, since)));
    };
    let made = RecordedRun::new(
        alloc,
        instruments,
        addresses,
        settings.window,
        settings.start,
    );
    let Ok(mut run) = made else {
        return Err(EarlyEnd::Run(out_of_memory(output, since)));
    };
    read_frames(&mut run, piece.as_mut_slice(), input, output, faults, since)?;
    let end = finish_frames(alloc, run, output, faults, since)?;
    Ok(end)
}

/// Runs over a recording of this channel as it comes: what the frames of each piece show goes out, and what is told of
/// them is told, before the next piece is read. At its first fault the recording ends.
pub fn run_recording<I: CountedRead, O: CountedWrite, F: CountedWrite, A: Allocator + Copy>(
    alloc: A,
    channel: ChannelFile<A>,
    settings: Settings<'_>,
    input: &mut I,
    output: &mut O,
    faults: &mut F,
) -> u8
    requires listed { 0 < length channel.instruments }
    requires lawful { AreLawful settings }
    requires input { I.failed input.old < 2 ^ 64 - 1 }
    requires output { O.failed output.old < 2 ^ 64 - 1 }
    ensures status { result ≤ 2 }
    ensures done { result ≡ 0 → HasEndedRecording
        (channel_with channel.instruments (setup_asked settings.entry)) channel.addresses
        (I.rest input.old) (went (O.taken output.old) (O.taken output.new)
        (Tells F.failed F.taken faults.old faults.new)) }
    ensures failed { result ≡ 1 → HasFailedRecording
        (channel_with channel.instruments (setup_asked settings.entry)) channel.addresses
        (I.rest input.old) (Fails I.failed input.old input.new)
        (effects (Fails O.failed output.old output.new) (O.taken output.old) (O.taken output.new)
        (Tells F.failed F.taken faults.old faults.new)) }
    ensures refused { result ≡ 2 → HasRefusedRecording (I.rest input.old)
        (went (O.taken output.old) (O.taken output.new)
        (Tells F.failed F.taken faults.old faults.new)) }
    ensures reads { result ≢ 1 → I.failed input.new ≡ I.failed input.old }
    ensures writes { result ≢ 1 → O.failed output.new ≡ O.failed output.old }
{
    match handle_recording(alloc, channel, settings, input, output, faults) {
        Ok(RecordingEnd::Whole) => DONE,
        Ok(RecordingEnd::Faulty) => FAILED,
        Ok(RecordingEnd::Refused) => REFUSED,
        Err(EarlyEnd::Run(RunFault::Memory { .. })) => {
            tell_memory(faults);
            FAILED
        }
        Err(EarlyEnd::Run(RunFault::Output { written })) => {
            tell_output(faults, written);
            FAILED
        }
        Err(EarlyEnd::Input) => {
            tell_input(faults);
            FAILED
        }
    }
}
