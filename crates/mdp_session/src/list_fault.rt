//! Why instruments can't be listed.

ghost use Rattle.std.specs.Prelude.{◌≡◌};
ghost use Rattle.mdp_session.specs.declared.list_fault.ListFault.TheVariants as faults;

use mdp_capture::CaptureRefusal;
use std::alloc::AllocError;

/// Why an entry of a list isn't listed.
#[derive(Clone, Copy, Debug, PartialEq, Eq)]
pub enum Unlisted {
    /// It says no instrument.
    NoInstrument,
    /// Its instrument is refused behind those before it, for one of the reasons 31 to 33.
    Refused(CaptureRefusal),
}

/// Why a list gave no instruments.
#[derive(Clone, Copy, Debug, PartialEq, Eq)]
pub enum ListFault {
    /// The entry of this number isn't listed, and each before it is. The first of an array has number 0, and the first
    /// line of a text number 1.
    Unlisted { number: u64, why: Unlisted },
    /// Memory ran out.
    Memory,
}

impl From<AllocError> for ListFault {
    ghost from_gives = { λ _ e. e ≡ faults.Memory };

    fn from(_error: AllocError) -> ListFault {
        ListFault::Memory
    }
}
