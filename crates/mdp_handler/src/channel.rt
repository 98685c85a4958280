//! The channel of a recording, whose instruments and feeds a file says.

ghost use Rattle.std.specs.Prelude.{◌≡◌, ◌≢◌, ◌<◌, ◌≤◌, ◌-◌, ◌^◌, ◌⊎◌, IfOk, IfErr, OnOk};
ghost use Rattle.mdp_channel.specs.ChannelFile.{channel_in};
ghost use Rattle.mdp_handler.specs.CommandLine.{AreLawful};
ghost use Rattle.mdp_handler.specs.Faults.{Tells, memory_line};
ghost use Rattle.mdp_handler.specs.Live.{went};
ghost use Rattle.mdp_handler.specs.Outcome.{Fails, HasFailedChannel, HasNoMemory, HasRefusedChannel, HasRunChannel, IsChannel, IsNoChannel, effects, files_known, sources_of};

use crate::faults::{tell_channel, tell_memory, tell_unread};
use crate::files::{FileFault, ReadsFiles};
use crate::program::{FAILED, REFUSED};
use crate::recording::run_recording;
use crate::settings::Settings;
use mdp_capture::CountedRead;
use mdp_channel::{ChannelFault, ChannelFile, read_channel};
use mdp_print::CountedWrite;
use std::alloc::Allocator;

// Reads the channel that the file of this name says, or tells why it says none and gives the exit status.
fn channel_at<L: ReadsFiles, F: CountedWrite, A: Allocator + Copy>(
    files: &L,
    alloc: A,
    name: &str,
    faults: &mut F,
) -> Result<ChannelFile<A>, u8>
    ensures channel { IfOk result (λ file. IsChannel
        (files_known (L.IsText files.now) (L.IsUnread files.now)) name.now (channel_in file)) }
    ensures untold { OnOk result (faults.new ≡ faults.old) }
    ensures status { IfErr result (λ status. (1 ≤ status) × (status ≤ 2)) }
    ensures memory { IfErr result (λ status. status ≡ 1
        → Tells F.failed F.taken faults.old faults.new memory_line) }
    ensures refused { IfErr result (λ status. status ≡ 2 → IsNoChannel
        (files_known (L.IsText files.now) (L.IsUnread files.now)) name.now
        (Tells F.failed F.taken faults.old faults.new)) }
{
    let text = match files.read(alloc, name) {
        Ok(text) => text,
        Err(FileFault::Memory) => {
            tell_memory(faults);
            return Err(FAILED);
        }
        Err(FileFault::Unread) => {
            tell_unread(faults);
            return Err(REFUSED);
        }
    };
    match read_channel(alloc, text.as_slice()) {
        Ok(channel) => Ok(channel),
        Err(ChannelFault::Memory) => {
            tell_memory(faults);
            Err(FAILED)
        }
        Err(fault) => {
            tell_channel(faults, fault);
            Err(REFUSED)
        }
    }
}

/// Runs over a recording of the channel whose file has this name. The file is read and judged before the first byte of
/// the input.
pub fn run_channel<
    L: ReadsFiles,
    I: CountedRead,
    O: CountedWrite,
    F: CountedWrite,
    A: Allocator + Copy,
>(
    files: &L,
    alloc: A,
    name: &str,
    settings: Settings<'_>,
    input: &mut I,
    output: &mut O,
    faults: &mut F,
) -> u8
    requires lawful { AreLawful settings }
    requires input { I.failed input.old < 2 ^ 64 - 1 }
    requires output { O.failed output.old < 2 ^ 64 - 1 }
    ensures status { result ≤ 2 }
    ensures done { result ≡ 0 → HasRunChannel name.now
        (sources_of (I.rest input.old) (files_known (L.IsText files.now) (L.IsUnread files.now)))
        settings.entry (went (O.taken output.old) (O.taken output.new)
        (Tells F.failed F.taken faults.old faults.new)) }
    ensures failed { result ≡ 1 →
        let FailedReads = Fails I.failed input.old input.new in
        let did = effects (Fails O.failed output.old output.new) (O.taken output.old)
        (O.taken output.new) (Tells F.failed F.taken faults.old faults.new) in
        (FailedReads 0 × HasNoMemory did)
        ⊎ HasFailedChannel name.now
        (sources_of (I.rest input.old) (files_known (L.IsText files.now) (L.IsUnread files.now)))
        settings.entry FailedReads did }
    ensures refused { result ≡ 2 → HasRefusedChannel name.now
        (sources_of (I.rest input.old) (files_known (L.IsText files.now) (L.IsUnread files.now)))
        (input.new ≡ input.old) (went (O.taken output.old) (O.taken output.new)
        (Tells F.failed F.taken faults.old faults.new)) }
    ensures reads { result ≢ 1 → I.failed input.new ≡ I.failed input.old }
    ensures writes { result ≢ 1 → O.failed output.new ≡ O.failed output.old }
{
    match channel_at(files, alloc, name, faults) {
        Ok(channel) => run_recording(alloc, channel, settings, input, output, faults),
        Err(status) => status,
    }
}
