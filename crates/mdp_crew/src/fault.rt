//! Why a run ended early, and the writes that can end it.

ghost use Rattle.std.specs.Prelude.{◌≡◌, ℕ, ◌-◌, ◌<◌, ◌^◌, ◌++◌, length, take, OnOk, IfErr};
ghost use Rattle.mdp_crew.specs.Faults.{FailsBy, written_before};
ghost use Rattle.mdp_crew.specs.declared.fault.RunFault.TheVariants.{Memory};

use mdp_print::{CountedWrite, write_all_counted, written_since};
use thiserror::Error;

/// Why a run ended early, with the number of bytes that went out before. They are a beginning of what the whole
/// run prints.
#[derive(Clone, Copy, Debug, PartialEq, Eq, Error)]
pub enum RunFault {
    /// Memory ran out.
    #[error("41 Memory")]
    Memory { written: u64 },
    /// A write failed.
    #[error("42 Output after {written} bytes")]
    Output { written: u64 },
}

/// Makes the fault of a run that ran out of memory, and that began after the writer had taken `since` bytes.
pub fn out_of_memory<W: CountedWrite>(writer: &W, since: u64) -> RunFault
    ensures { result ≡ Memory (length (W.taken writer.now) - since) }
{
    RunFault::Memory {
        written: written_since(writer, since),
    }
}

/// Writes a text of a run that began after the writer had taken `since` bytes.
///
/// # Errors
///
/// `Output` where a write failed. A beginning of the text went out.
pub fn hand_on<W: CountedWrite>(writer: &mut W, text: &[u8], since: u64) -> Result<(), RunFault>
    requires { W.failed writer.old < 2 ^ 64 - 1 }
    ensures taken { OnOk result (W.taken writer.new ≡ W.taken writer.old ++ text.now) }
    ensures begins { IfErr result (λ _. (n : ℕ)
        × (W.taken writer.new ≡ W.taken writer.old ++ take n text.now)) }
    ensures told { IfErr result (λ fault.
        written_before fault ≡ length (W.taken writer.new) - since) }
    ensures failed { FailsBy result (W.failed writer.old) (W.failed writer.new) }
{
    match write_all_counted(writer, text) {
        Ok(()) => Ok(()),
        Err(_) => Err(RunFault::Output {
            written: written_since(writer, since),
        }),
    }
}
