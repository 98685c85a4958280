//! Why a datagram could not be read.

ghost use Rattle.std.specs.Prelude.{◌≡◌};
ghost use Rattle.mdp_templates.specs.declared.fault.Fault.TheVariants as faults;

use mdp_sbe::Refusal;
use std::alloc::{AllocError, AllocFailed};

/// Want of memory: a growth was refused.
#[derive(Clone, Copy, Debug, PartialEq, Eq)]
pub struct Memory;

impl From<AllocError> for Memory {
    fn from(_error: AllocError) -> Memory {
        Memory
    }
}

impl<T: Drop> From<AllocFailed<T>> for Memory {
    fn from(_error: AllocFailed<T>) -> Memory {
        Memory
    }
}

/// Why a datagram gave no value.
#[derive(Clone, Copy, Debug, PartialEq, Eq)]
pub enum Fault {
    /// The datagram is refused, whatever the memory.
    Refused(Refusal),
    /// Memory ran out, so that nothing is said of the datagram.
    Memory,
}

impl From<Refusal> for Fault {
    ghost from_gives = { λ r e. e ≡ faults.Refused r };

    fn from(refusal: Refusal) -> Fault {
        Fault::Refused(refusal)
    }
}

impl From<AllocError> for Fault {
    ghost from_gives = { λ _ e. e ≡ faults.Memory };

    fn from(_error: AllocError) -> Fault {
        Fault::Memory
    }
}

impl<T: Drop> From<AllocFailed<T>> for Fault {
    ghost from_gives = { λ _ e. e ≡ faults.Memory };

    fn from(_error: AllocFailed<T>) -> Fault {
        Fault::Memory
    }
}
