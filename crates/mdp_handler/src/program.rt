//! The program, over any input and outputs.

ghost use Rattle.std.specs.Prelude.{◌≡◌, ◌≢◌, ◌≤◌, ◌<◌, ◌-◌, ◌^◌, ◌++◌, ◌⊎◌, [], ℕ, List, IfOk, IfErr, codes, true};
ghost use Rattle.clap.specs.Words.{IsAmong, kind_of};
ghost use Rattle.mdp_handler.specs.CommandLine.{AreLawful, AsksForPieces, AsksToRun, shown_kinds, texts_of};
ghost use Rattle.mdp_handler.specs.Faults.{Tells, skipped_lines};
ghost use Rattle.mdp_handler.specs.Outcome.{Fails, HasDone, HasFailed, HasFailedRun, HasFailedWhole, HasFailedWrite, HasNoMemory, HasRefused, HasRefusedCapture, HasRefusedRun, HasRun, HasRunWhole, HasStopped, effects, files_known, sources_of, way_asked};
ghost use Rattle.mdp_handler.specs.Outcome.Way.{Whole};
ghost use Rattle.mdp_handler.specs.Live.{went};
ghost use Rattle.mdp_handler.specs.Printed.{HasBegun, HasPrinted};
ghost use Rattle.mdp_print.specs.Written.{HasCounted};
ghost use Rattle.mdp_crew.specs.Faults.{FailsBy, written_before};
ghost use Rattle.mdp_templates.specs.Instrument.{AreFit};

use crate::channel::run_channel;
use crate::faults::{tell, tell_input, tell_memory, tell_output, tell_refused, tell_skipped};
use crate::files::ReadsFiles;
use crate::live::run_live;
use crate::settings::{Settings, read_settings};
use clap::Error;
use clap::error::ErrorKind;
use mdp_capture::{Capture, CaptureFault, CountedRead, read_capture, read_capture_over_threads};
use mdp_crew::Open;
use mdp_pipeline::{Feeds, RunFault, RunPlan, Summary, run, run_in_order};
use mdp_print::{CountedWrite, write_all_counted};
use std::alloc::{Allocator, Global};
use std::sync::Wait;
use std::thread::Threads;

/// The exit status of a run to the end, and of help.
pub const DONE: u8 = 0;
/// The exit status where memory ran out, or a write or a read failed.
pub const FAILED: u8 = 1;
/// The exit status where the command line or the capture is refused.
pub const REFUSED: u8 = 2;

/// What the program reads and writes: its input, its output, and what it tells of faults.
#[derive(Drop)]
pub struct Streams<I, O, F> {
    /// A capture or a recording.
    pub input: I,
    /// The text of the run, or help.
    pub output: O,
    /// What went wrong, and what was lost.
    pub faults: F,
}

/// Runs the program: reads the command line `words`, of which the first is the program's name, then
/// a capture from the input, writes the text of the run to the output, and tells what went wrong on
/// the stream for faults. Answers the exit status: 0 for a run to the end and for help, 1 where memory
/// ran out or a read or a write of the output failed, and 2 where the command line or the capture is
/// refused; then nothing is written to the output, but that with `--live` the capture is handled as
/// it comes, and what its lines before the first refusal show was written. Only where the words ask
/// for a run is anything read. A run goes over threads, unless the words say `--in-order` or
/// `--live`. It tells a line for each line of the capture that was skipped, then at status 1 why it
/// ended. Why no run began is told alone. With `--live` it tells as the lines come, and where the
/// receiver was lost and found too; then why the run ended, or what keeps it from going on where the
/// capture ends. With `--channel` the input is a recording, which is handled in the same way over
/// its frames, once the file that the words name has said the channel; one that has a fault behind
/// its first frames, or ends inside a block, has status 1 and the text of its whole frames. A write
/// that fails on the stream for faults is passed over.
pub fn program<R, L, I, O, F, A>(
    rt: &R,
    files: &L,
    words_alloc: Global,
    alloc: A,
    words: &[&str],
    streams: &mut Streams<I, O, F>,
) -> u8
where
    R: Threads + Wait + Sync,
    L: ReadsFiles,
    I: CountedRead,
    O: CountedWrite,
    F: CountedWrite,
    A: Allocator + Copy + Send + Sync,
    requires input { I.failed streams.old.input < 2 ^ 64 - 1 }
    requires output { O.failed streams.old.output < 2 ^ 64 - 1 }
    ensures status { result ≤ 2 }
    ensures done { result ≡ 0 → HasDone (texts_of words.now)
        (sources_of (I.rest streams.old.input) (files_known (L.IsText files.now) (L.IsUnread files.now)))
        (went (O.taken streams.old.output) (O.taken streams.new.output)
        (Tells F.failed F.taken streams.old.faults streams.new.faults)) }
    ensures failed { result ≡ 1 → HasFailed (texts_of words.now)
        (sources_of (I.rest streams.old.input) (files_known (L.IsText files.now) (L.IsUnread files.now)))
        (Fails I.failed streams.old.input streams.new.input)
        (effects (Fails O.failed streams.old.output streams.new.output)
        (O.taken streams.old.output) (O.taken streams.new.output)
        (Tells F.failed F.taken streams.old.faults streams.new.faults)) }
    ensures refused { result ≡ 2 → HasRefused (texts_of words.now)
        (sources_of (I.rest streams.old.input) (files_known (L.IsText files.now) (L.IsUnread files.now)))
        (streams.new.input ≡ streams.old.input)
        (went (O.taken streams.old.output) (O.taken streams.new.output)
        (Tells F.failed F.taken streams.old.faults streams.new.faults)) }
    ensures unprinted { result ≡ 2 → ¬ (AsksForPieces (texts_of words.now))
        → streams.new.output ≡ streams.old.output }
    ensures unread { ¬ (AsksToRun (texts_of words.now)) → streams.new.input ≡ streams.old.input }
    ensures reads { result ≢ 1 → I.failed streams.new.input ≡ I.failed streams.old.input }
    ensures writes { result ≢ 1 → O.failed streams.new.output ≡ O.failed streams.old.output }
{
    match read_settings(words_alloc, words) {
        Ok(settings) => run_asked(rt, files, alloc, settings, streams),
        Err(error) => show(alloc, &error, &mut streams.output, &mut streams.faults),
    }
}

// Runs as the settings ask for.
fn run_asked<R, L, I, O, F, A>(
    rt: &R,
    files: &L,
    alloc: A,
    settings: Settings<'_>,
    streams: &mut Streams<I, O, F>,
) -> u8
where
    R: Threads + Wait + Sync,
    L: ReadsFiles,
    I: CountedRead,
    O: CountedWrite,
    F: CountedWrite,
    A: Allocator + Copy + Send + Sync,
    requires input { I.failed streams.old.input < 2 ^ 64 - 1 }
    requires output { O.failed streams.old.output < 2 ^ 64 - 1 }
    requires lawful { AreLawful settings }
    ensures status { result ≤ 2 }
    ensures done { result ≡ 0 → HasRun (way_asked settings.entry)
        (sources_of (I.rest streams.old.input) (files_known (L.IsText files.now) (L.IsUnread files.now)))
        settings.entry (went (O.taken streams.old.output) (O.taken streams.new.output)
        (Tells F.failed F.taken streams.old.faults streams.new.faults)) }
    ensures failed { result ≡ 1 →
        let FailedReads = Fails I.failed streams.old.input streams.new.input in
        let did = effects (Fails O.failed streams.old.output streams.new.output)
        (O.taken streams.old.output) (O.taken streams.new.output)
        (Tells F.failed F.taken streams.old.faults streams.new.faults) in
        (FailedReads 0 × HasNoMemory did)
        ⊎ HasFailedRun (way_asked settings.entry)
        (sources_of (I.rest streams.old.input) (files_known (L.IsText files.now) (L.IsUnread files.now)))
        settings.entry FailedReads did }
    ensures refused { result ≡ 2 → HasRefusedRun (way_asked settings.entry)
        (sources_of (I.rest streams.old.input) (files_known (L.IsText files.now) (L.IsUnread files.now)))
        settings.entry (streams.new.input ≡ streams.old.input)
        (went (O.taken streams.old.output) (O.taken streams.new.output)
        (Tells F.failed F.taken streams.old.faults streams.new.faults)) }
    ensures unprinted { result ≡ 2 → way_asked settings.entry ≡ Whole
        → streams.new.output ≡ streams.old.output }
    ensures reads { result ≢ 1 → I.failed streams.new.input ≡ I.failed streams.old.input }
    ensures writes { result ≢ 1 → O.failed streams.new.output ≡ O.failed streams.old.output }
{
    let Streams {
        input,
        output,
        faults,
    } = streams;
    match settings.channel {
        Some(name) => run_channel(files, alloc, name, settings, input, output, faults),
        None if settings.live => run_live(alloc, settings, input, output, faults),
        None => run_over(rt, alloc, settings, input, output, faults),
    }
}

// Shows what the command line gives in place of a run.
#[tactic(auto, using(crate::proofs::Telling::tells_nothing))]
fn show<O: CountedWrite, F: CountedWrite, A: Allocator>(
    alloc: A,
    error: &Error,
    output: &mut O,
    faults: &mut F,
) -> u8
    requires { O.failed output.old < 2 ^ 64 - 1 }
    ensures status { result ≤ 2 }
    ensures shown { result ≡ 0 → IsAmong (kind_of error.now) shown_kinds
        × ((text : List ℕ) × (O.taken output.new ≡ O.taken output.old ++ text))
        × Tells F.failed F.taken faults.old faults.new [] }
    ensures failed { result ≡ 1 →
        let did = effects (Fails O.failed output.old output.new) (O.taken output.old)
        (O.taken output.new) (Tells F.failed F.taken faults.old faults.new) in
        HasNoMemory did
        ⊎ (IsAmong (kind_of error.now) shown_kinds × HasFailedWrite [] did) }
    ensures refused { result ≡ 2 → (¬ (IsAmong (kind_of error.now) shown_kinds))
        × ((text : List ℕ) × Tells F.failed F.taken faults.old faults.new text) }
    ensures unprinted { result ≡ 2 → output.new ≡ output.old }
    ensures memory { kind_of error.now ≡ ErrorKind.OutOfMemory → result ≡ 1 }
    ensures writes { result ≢ 1 → O.failed output.new ≡ O.failed output.old }
{
    if error.kind() == ErrorKind::OutOfMemory {
        tell_memory(faults);
        return FAILED;
    }
    let Ok(text) = format!(in alloc; "{error}") else {
        tell_memory(faults);
        return FAILED;
    };
    if error.use_stderr() {
        tell(faults, text.as_bytes());
        return REFUSED;
    }
    match write_all_counted(output, text.as_bytes()) {
        Ok(()) => DONE,
        Err((written, _)) => {
            tell_output(faults, written as u64);
            FAILED
        }
    }
}

// Reads the capture and runs over it.
fn run_over<R, I, O, F, A>(
    rt: &R,
    alloc: A,
    settings: Settings<'_>,
    input: &mut I,
    output: &mut O,
    faults: &mut F,
) -> u8
where
    R: Threads + Wait + Sync,
    I: CountedRead,
    O: CountedWrite,
    F: CountedWrite,
    A: Allocator + Copy + Send + Sync,
    requires input { I.failed input.old < 2 ^ 64 - 1 }
    requires output { O.failed output.old < 2 ^ 64 - 1 }
    requires lawful { AreLawful settings }
    ensures status { result ≤ 2 }
    ensures done { result ≡ 0 → HasRunWhole (I.rest input.old) settings.entry
        (O.taken output.old) (O.taken output.new) (Tells F.failed F.taken faults.old faults.new) }
    ensures failed { result ≡ 1 →
        let FailedReads = Fails I.failed input.old input.new in
        let did = effects (Fails O.failed output.old output.new) (O.taken output.old)
        (O.taken output.new) (Tells F.failed F.taken faults.old faults.new) in
        (FailedReads 0 × HasNoMemory did)
        ⊎ HasFailedWhole (I.rest input.old) settings.entry FailedReads did }
    ensures refused { result ≡ 2 → HasRefusedCapture (I.rest input.old)
        (Tells F.failed F.taken faults.old faults.new) }
    ensures unprinted { result ≡ 2 → output.new ≡ output.old }
    ensures reads { result ≢ 1 → I.failed input.new ≡ I.failed input.old }
    ensures writes { result ≢ 1 → O.failed output.new ≡ O.failed output.old }
{
    let read = if settings.in_order {
        read_capture(alloc, input)
    } else {
        read_capture_over_threads(rt, alloc, input)
    };
    match read {
        Ok(capture) => run_capture(rt, alloc, &capture, settings, output, faults),
        Err(CaptureFault::Refused { line, refusal }) => {
            tell_refused(faults, line, refusal);
            REFUSED
        }
        Err(CaptureFault::Memory) => {
            tell_memory(faults);
            FAILED
        }
        Err(CaptureFault::Input) => {
            tell_input(faults);
            FAILED
        }
    }
}

// Returns the skipped lines, and runs over the records of all feeds.
fn run_capture<R, O, F, A>(
    rt: &R,
    alloc: A,
    capture: &Capture<A>,
    settings: Settings<'_>,
    output: &mut O,
    faults: &mut F,
) -> u8
where
    R: Threads + Wait + Sync,
    O: CountedWrite,
    F: CountedWrite,
    A: Allocator + Copy + Send + Sync,
    requires output { O.failed output.old < 2 ^ 64 - 1 }
    requires fit { AreFit capture.now.instruments }
    requires lawful { AreLawful settings }
    ensures status { result ≤ 1 }
    ensures printed { result ≡ 0 →
        HasPrinted capture.now settings.entry (O.taken output.old) (O.taken output.new) }
    ensures told { result ≡ 0 →
        Tells F.failed F.taken faults.old faults.new (skipped_lines capture.now.skipped) }
    ensures failed { result ≡ 1 → HasStopped capture.now settings.entry
        (effects (Fails O.failed output.old output.new) (O.taken output.old) (O.taken output.new)
        (Tells F.failed F.taken faults.old faults.new)) }
    ensures writes { result ≢ 1 → O.failed output.new ≡ O.failed output.old }
{
    tell_skipped(faults, capture.skipped());
    match run_records(rt, alloc, capture, settings, output) {
        Ok(_) => DONE,
        Err(RunFault::Memory { .. }) => {
            tell_memory(faults);
            FAILED
        }
        Err(RunFault::Output { written }) => {
            tell_output(faults, written);
            FAILED
        }
    }
}

// Runs over the records of all feeds: over threads, or on one thread in the order of the capture's
// lines.
fn run_records<R, O, A>(
    rt: &R,
    alloc: A,
    capture: &Capture<A>,
    settings: Settings<'_>,
    output: &mut O,
) -> Result<Summary, RunFault>
where
    R: Threads + Wait + Sync,
    O: CountedWrite,
    A: Allocator + Copy + Send + Sync,
    requires output { O.failed output.old < 2 ^ 64 - 1 }
    requires fit { AreFit capture.now.instruments }
    requires lawful { AreLawful settings }
    ensures printed { IfOk result (λ _.
        HasPrinted capture.now settings.entry (O.taken output.old) (O.taken output.new)) }
    ensures begun { IfErr result (λ _.
        HasBegun capture.now settings.entry (O.taken output.old) (O.taken output.new)) }
    ensures told { IfErr result (λ fault.
        HasCounted (O.taken output.old) (O.taken output.new) (written_before fault)) }
    ensures failed { FailsBy result (O.failed output.old) (O.failed output.new) }
{
    let plan = RunPlan {
        instruments: capture.instruments(),
        window: settings.window,
        start: settings.start,
        workers: u16::from(settings.worker_count()),
    };
    let feeds = Feeds::of(capture);
    if settings.in_order {
        return run_in_order(alloc, plan, feeds, output);
    }
    run(rt, alloc, plan, feeds, &Open, output)
}
