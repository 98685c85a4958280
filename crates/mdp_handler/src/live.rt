//! A run over a capture as it comes, on one thread.

ghost use Rattle.std.specs.Prelude.{◌≡◌, ◌≢◌, ◌<◌, ◌≤◌, ◌-◌, ◌++◌, ◌^◌, ◌⊎◌, [], List, ℕ, IfOk, IfErr, OnOk, length, take, vec_len};
ghost use Rattle.mdp_crew.specs.Faults.{FailsBy, written_before};
ghost use Rattle.mdp_print.specs.Written.{HasCounted};
ghost use Rattle.mdp_pipeline.specs.Streamed.{HasHandedOn, Setup, text_held};
ghost use Rattle.mdp_handler.specs.CommandLine.{AreLawful};
ghost use Rattle.mdp_handler.specs.Faults.{Tells, note_lines};
ghost use Rattle.mdp_handler.specs.Live.{CountsTo, EndsFor, FailsOnce, HasEnded, IsInput, ReadsOnce, SoFar, StandsAtEnd, reads_failed, went};
ghost use Rattle.mdp_handler.specs.declared.faults.Place.TheVariants as places;
ghost use Rattle.mdp_handler.specs.declared.live.LiveFault.TheVariants as live_faults;
ghost use Rattle.mdp_handler.specs.Outcome.{Fails, HasFailedLive, HasRefusedLive, HasRunLive, effects, setup_asked};

use crate::faults::{
    Place, tell_end, tell_input, tell_memory, tell_notes, tell_output, tell_refused,
};
use crate::program::{DONE, FAILED, REFUSED};
use crate::settings::Settings;
use mdp_capture::{CaptureFault, CaptureRefusal, CountedRead};
use mdp_crew::{RunFault, hand_on, out_of_memory};
use mdp_pipeline::StreamedRun;
use mdp_print::CountedWrite;
use std::alloc::{AllocError, Allocator};

/// How many bytes are read at once.
const PIECE: usize = 65536;

/// Why a run over a capture ended early that is handled as it comes.
#[derive(Clone, Copy, Debug, PartialEq, Eq)]
pub enum LiveFault {
    /// The run is refused at this line, or at line 0 where the whole capture lacks an instrument.
    Refused { line: u32, refusal: CaptureRefusal },
    /// Memory ran out, or a write failed.
    Run(RunFault),
    /// A read failed.
    Input,
}

impl From<RunFault> for LiveFault {
    ghost from_gives = { λ fault e. e ≡ live_faults.Run fault };

    fn from(fault: RunFault) -> LiveFault {
        LiveFault::Run(fault)
    }
}

// Tells what is told of the lines that a run holds and writes what they show, and lets both go.
fn hand_on_all<O: CountedWrite, F: CountedWrite, A: Allocator + Copy>(
    run: &mut StreamedRun<A>,
    output: &mut O,
    faults: &mut F,
    since: u64,
) -> Result<(), RunFault>
    requires { O.failed output.old < 2 ^ 64 - 1 }
    ensures told { Tells F.failed F.taken faults.old faults.new
        (note_lines places.Line run.old.lines.notes.items) }
    ensures shown { OnOk result
        (O.taken output.new ≡ O.taken output.old ++ text_held run.old.lines.run) }
    ensures cutter { run.new.cutter ≡ run.old.cutter }
    ensures gone { OnOk result (HasHandedOn run.old.lines run.new.lines) }
    ensures begins { IfErr result (λ _. (n : ℕ) × (O.taken output.new
        ≡ O.taken output.old ++ take n (text_held run.old.lines.run))) }
    ensures stays { IfErr result (λ _. run.new ≡ run.old) }
    ensures before { IfErr result (λ fault.
        written_before fault ≡ length (O.taken output.new) - since) }
    ensures failed { FailsBy result (O.failed output.old) (O.failed output.new) }
{
    tell_notes(faults, Place::Line, run.notes());
    hand_on(output, run.text(), since)?;
    run.clear();
    Ok(())
}

/// Handles the next piece of a capture: takes in each line that it ends, tells what is told of these lines, and writes
/// what they show. The run holds nothing after it.
///
/// # Errors
///
/// `Refused` at the first line that refuses the run: of the lines before it all is told and written. `Run` where
/// memory ran out, and then nothing of this piece is told or written, or where a write failed.
pub fn handle_piece<O: CountedWrite, F: CountedWrite, A: Allocator + Copy>(
    alloc: A,
    run: &mut StreamedRun<A>,
    piece: &[u8],
    output: &mut O,
    faults: &mut F,
    since: u64,
) -> Result<(), LiveFault>
    requires { O.failed output.old < 2 ^ 64 - 1 }
    ensures handled { OnOk result ((setup : Setup) (text start : List ℕ) (first : F)
        → SoFar setup text
        (went start (O.taken output.old) (Tells F.failed F.taken first faults.old)) run.old
        → SoFar setup (text ++ piece.now)
        (went start (O.taken output.new) (Tells F.failed F.taken first faults.new)) run.new) }
    ensures ended { IfErr result (λ fault. (setup : Setup) (text more start : List ℕ) (first : F)
        → SoFar setup text
        (went start (O.taken output.old) (Tells F.failed F.taken first faults.old)) run.old
        → EndsFor setup ((text ++ piece.now) ++ more)
        (went start (O.taken output.new) (Tells F.failed F.taken first faults.new)) fault) }
    ensures counted { IfErr result (CountsTo (length (O.taken output.new) - since)) }
    ensures failed { FailsOnce result (O.failed output.old) (O.failed output.new) }
    ensures unread { IfErr result (λ fault. reads_failed fault ≡ 0) }
{
    match run.take_piece(alloc, piece) {
        Ok(()) => {
            hand_on_all(run, output, faults, since)?;
            Ok(())
        }
        Err(CaptureFault::Refused { line, refusal }) => {
            hand_on_all(run, output, faults, since)?;
            Err(LiveFault::Refused { line, refusal })
        }
        Err(_) => Err(LiveFault::Run(out_of_memory(output, since))),
    }
}

// Takes in the last line of a capture, where that has no line feed, tells what is told of it, and writes what it shows.
fn handle_last_line<O: CountedWrite, F: CountedWrite, A: Allocator + Copy>(
    alloc: A,
    run: &mut StreamedRun<A>,
    output: &mut O,
    faults: &mut F,
    since: u64,
) -> Result<(), LiveFault>
    requires { O.failed output.old < 2 ^ 64 - 1 }
    ensures handled { OnOk result ((setup : Setup) (text start : List ℕ) (first : F)
        → SoFar setup text
        (went start (O.taken output.old) (Tells F.failed F.taken first faults.old)) run.old
        → StandsAtEnd setup text
        (went start (O.taken output.new) (Tells F.failed F.taken first faults.new)) run.new) }
    ensures ended { IfErr result (λ fault. (setup : Setup) (text start : List ℕ) (first : F)
        → SoFar setup text
        (went start (O.taken output.old) (Tells F.failed F.taken first faults.old)) run.old
        → EndsFor setup text
        (went start (O.taken output.new) (Tells F.failed F.taken first faults.new)) fault) }
    ensures counted { IfErr result (CountsTo (length (O.taken output.new) - since)) }
    ensures failed { FailsOnce result (O.failed output.old) (O.failed output.new) }
    ensures unread { IfErr result (λ fault. reads_failed fault ≡ 0) }
{
    match run.take_end(alloc) {
        Ok(()) => {
            hand_on_all(run, output, faults, since)?;
            Ok(())
        }
        Err(CaptureFault::Refused { line, refusal }) => {
            hand_on_all(run, output, faults, since)?;
            Err(LiveFault::Refused { line, refusal })
        }
        Err(_) => Err(LiveFault::Run(out_of_memory(output, since))),
    }
}

// Writes the end of the text, and tells what keeps the run from going on.
fn finish<O: CountedWrite, F: CountedWrite, A: Allocator + Copy>(
    alloc: A,
    run: StreamedRun<A>,
    output: &mut O,
    faults: &mut F,
    since: u64,
) -> Result<(), LiveFault>
    requires { O.failed output.old < 2 ^ 64 - 1 }
    ensures done { OnOk result ((setup : Setup) (text start : List ℕ) (first : F)
        → StandsAtEnd setup text
        (went start (O.taken output.old) (Tells F.failed F.taken first faults.old)) run
        → HasEnded setup text
        (went start (O.taken output.new) (Tells F.failed F.taken first faults.new))) }
    ensures ended { IfErr result (λ fault. (setup : Setup) (text start : List ℕ) (first : F)
        → StandsAtEnd setup text
        (went start (O.taken output.old) (Tells F.failed F.taken first faults.old)) run
        → EndsFor setup text
        (went start (O.taken output.new) (Tells F.failed F.taken first faults.new)) fault) }
    ensures counted { IfErr result (CountsTo (length (O.taken output.new) - since)) }
    ensures failed { FailsOnce result (O.failed output.old) (O.failed output.new) }
    ensures unread { IfErr result (λ fault. reads_failed fault ≡ 0) }
{
    match run.into_ended(alloc) {
        Ok(ended) => {
            let note = ended.note();
            ended.finish(alloc, output, since)?;
            tell_end(faults, &note);
            Ok(())
        }
        Err(CaptureFault::Refused { line, refusal }) => {
            Err(LiveFault::Refused { line, refusal })
        }
        Err(_) => Err(LiveFault::Run(out_of_memory(output, since))),
    }
}

// Handles a capture piece by piece, to its end or to what ends the run early.
fn read_pieces<I: CountedRead, O: CountedWrite, F: CountedWrite, A: Allocator + Copy>(
    alloc: A,
    run: &mut StreamedRun<A>,
    piece: &mut [u8],
    input: &mut I,
    output: &mut O,
    faults: &mut F,
    since: u64,
) -> Result<(), LiveFault>
    requires room { 0 < length piece.old }
    requires input { I.failed input.old < 2 ^ 64 - 1 }
    requires output { O.failed output.old < 2 ^ 64 - 1 }
    ensures read { OnOk result ((setup : Setup) (start : List ℕ) (first : F)
        → SoFar setup []
        (went start (O.taken output.old) (Tells F.failed F.taken first faults.old)) run.old
        → (whole : List ℕ) × IsInput (I.rest input.old) whole
        × StandsAtEnd setup whole
        (went start (O.taken output.new) (Tells F.failed F.taken first faults.new)) run.new) }
    ensures ended { IfErr result (λ fault. (setup : Setup) (start : List ℕ) (first : F)
        → SoFar setup []
        (went start (O.taken output.old) (Tells F.failed F.taken first faults.old)) run.old
        → (whole : List ℕ) × IsInput (I.rest input.old) whole
        × EndsFor setup whole
        (went start (O.taken output.new) (Tells F.failed F.taken first faults.new)) fault) }
    ensures counted { IfErr result (CountsTo (length (O.taken output.new) - since)) }
    ensures reads { ReadsOnce result (I.failed input.old) (I.failed input.new) }
    ensures writes { FailsOnce result (O.failed output.old) (O.failed output.new) }
{
    loop {
        match input.read(piece) {
            Ok(0) => return handle_last_line(alloc, run, output, faults, since),
            Ok(n) => handle_piece(alloc, run, &piece[..n], output, faults, since)?,
            Err(_) => return Err(LiveFault::Input),
        }
    }
}

// Handles a capture to its end.
fn handle_all<I: CountedRead, O: CountedWrite, F: CountedWrite, A: Allocator + Copy>(
    alloc: A,
    settings: Settings<'_>,
    input: &mut I,
    output: &mut O,
    faults: &mut F,
) -> Result<(), LiveFault>
    requires input { I.failed input.old < 2 ^ 64 - 1 }
    requires output { O.failed output.old < 2 ^ 64 - 1 }
    requires lawful { AreLawful settings }
    ensures done { OnOk result ((whole : List ℕ) × IsInput (I.rest input.old) whole
        × HasEnded (setup_asked settings.entry) whole (went (O.taken output.old) (O.taken output.new)
        (Tells F.failed F.taken faults.old faults.new))) }
    ensures ended { IfErr result (λ fault. (whole : List ℕ) × IsInput (I.rest input.old) whole
        × EndsFor (setup_asked settings.entry) whole (went (O.taken output.old) (O.taken output.new)
        (Tells F.failed F.taken faults.old faults.new)) fault) }
    ensures counted { IfErr result
        (CountsTo (length (O.taken output.new) - length (O.taken output.old))) }
    ensures reads { ReadsOnce result (I.failed input.old) (I.failed input.new) }
    ensures writes { FailsOnce result (O.failed output.old) (O.failed output.new) }
{
    let since = output.written();
    let Ok(mut piece) = room(alloc) else {
        return Err(LiveFault::Run(out_of_memory(output, since)));
    };
    let mut run = StreamedRun::new(alloc, settings.window, settings.start);
    read_pieces(
        alloc,
        &mut run,
        piece.as_mut_slice(),
        input,
        output,
        faults,
        since,
    )?;
    finish(alloc, run, output, faults, since)
}

/// Makes room for a piece, all zeros.
pub fn room<A: Allocator>(alloc: A) -> Result<Vec<u8, A>, AllocError>
    ensures { IfOk result (λ piece. vec_len piece ≡ 65536) }
{
    let piece = vec![in alloc; 0u8; PIECE]?;
    Ok(piece)
}

/// Runs over a capture as it comes: what the lines of each piece show goes out, and what is told of them is told,
/// before the next piece is read.
pub fn run_live<I: CountedRead, O: CountedWrite, F: CountedWrite, A: Allocator + Copy>(
    alloc: A,
    settings: Settings<'_>,
    input: &mut I,
    output: &mut O,
    faults: &mut F,
) -> u8
    requires input { I.failed input.old < 2 ^ 64 - 1 }
    requires output { O.failed output.old < 2 ^ 64 - 1 }
    requires lawful { AreLawful settings }
    ensures status { result ≤ 2 }
    ensures done { result ≡ 0 → HasRunLive (I.rest input.old) settings.entry
        (O.taken output.old) (O.taken output.new) (Tells F.failed F.taken faults.old faults.new) }
    ensures failed { result ≡ 1 → HasFailedLive (I.rest input.old) settings.entry
        (Fails I.failed input.old input.new)
        (effects (Fails O.failed output.old output.new) (O.taken output.old) (O.taken output.new)
        (Tells F.failed F.taken faults.old faults.new)) }
    ensures refused { result ≡ 2 → HasRefusedLive (I.rest input.old) settings.entry
        (O.taken output.old) (O.taken output.new) (Tells F.failed F.taken faults.old faults.new) }
    ensures reads { result ≢ 1 → I.failed input.new ≡ I.failed input.old }
    ensures writes { result ≢ 1 → O.failed output.new ≡ O.failed output.old }
{
    match handle_all(alloc, settings, input, output, faults) {
        Ok(()) => DONE,
        Err(LiveFault::Refused { line, refusal }) => {
            tell_refused(faults, line, refusal);
            REFUSED
        }
        Err(LiveFault::Run(RunFault::Memory { .. })) => {
            tell_memory(faults);
            FAILED
        }
        Err(LiveFault::Run(RunFault::Output { written })) => {
            tell_output(faults, written);
            FAILED
        }
        Err(LiveFault::Input) => {
            tell_input(faults);
            FAILED
        }
    }
}
