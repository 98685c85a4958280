//! What became of a run, and the end of its text.

ghost use Rattle.std.specs.Prelude.{◌≡◌, ◌<◌, ◌^◌, ◌-◌, ◌++◌, ℕ, length, take, IfOk, IfErr, OnOk};
ghost use Rattle.mdp_crew.specs.Faults.{FailsBy, written_before};
ghost use Rattle.mdp_pipeline.specs.Output.{end_text, standing_in};
ghost use Rattle.mdp_pipeline.specs.Running.{joined_texts};

use crate::refusals::Refusals;
use mdp_arbiter::Standing;
use mdp_crew::{RunFault, hand_on, out_of_memory};
use mdp_print::{CountedWrite, put_last, written_since};
use std::alloc::Allocator;

/// What a run came to.
#[derive(Clone, Copy, Debug, PartialEq, Eq)]
pub struct Summary {
    /// The number of the packet that comes next, from 1 to 4294967296.
    pub next: u64,
    /// Whether the receiver is lost: a packet came the window or more past that one, or no jump has joined the channel
    /// yet.
    pub lost: bool,
    /// How many bytes were written.
    pub written: u64,
}

/// Writes the lines of the refused datagrams and the last line, after all others, in pieces. The writer had taken
/// `since` bytes before the run.
pub fn write_end<W: CountedWrite, A: Allocator + Copy>(
    alloc: A,
    writer: &mut W,
    refusals: Refusals<A>,
    standing: Standing,
    since: u64,
) -> Result<Summary, RunFault>
    requires { W.failed writer.old < 2 ^ 64 - 1 }
    ensures stands { IfOk result (λ summary. standing_in summary ≡ standing) }
    ensures text { OnOk result (W.taken writer.new ≡ W.taken writer.old
        ++ end_text (joined_texts refusals) standing) }
    ensures begins { IfErr result (λ _. (n : ℕ) × (W.taken writer.new
        ≡ W.taken writer.old ++ take n (end_text (joined_texts refusals) standing))) }
    ensures written { IfOk result (λ summary.
        summary.written ≡ length (W.taken writer.new) - since) }
    ensures told { IfErr result (λ fault.
        written_before fault ≡ length (W.taken writer.new) - since) }
    ensures failed { FailsBy result (W.failed writer.old) (W.failed writer.new) }
{
    let Standing { next, lost } = standing;
    let mut held = Vec::new(alloc);
    refusals.write_lines(writer, &mut held, since)?;
    let Ok(()) = put_last(&mut held, next, lost) else {
        return Err(out_of_memory(writer, since));
    };
    hand_on(writer, &held, since)?;
    Ok(Summary {
        next,
        lost,
        written: written_since(writer, since),
    })
}
