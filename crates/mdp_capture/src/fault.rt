//! Why a capture could not be read.

ghost use Rattle.std.specs.Prelude.{◌≡◌, Some};
ghost use Rattle.mdp_capture.specs.Faults.{fault_text};
ghost use Rattle.mdp_capture.specs.declared.fault.CaptureFault.TheVariants as faults;

use mdp_templates::Memory;
use std::alloc::{AllocError, AllocFailed};
use std::error::Error;
use std::fmt;

/// Why a run is refused, by the number and the name that are printed.
#[derive(Clone, Copy, Debug, PartialEq, Eq)]
pub enum CaptureRefusal {
    /// An earlier instrument has the id or the name of this one.
    DuplicateId,
    /// A leg is no outright of an earlier line, or both legs are the same.
    UnknownLeg,
    /// This is the 513th instrument.
    TooMany,
    /// The capture has no instrument.
    NoInstrument,
    /// An instrument stands after a datagram or a close that was not skipped.
    InstrumentLate,
}

impl CaptureRefusal {
    ghost use Rattle.mdp_capture.specs.Faults.{refusal_number, refusal_name};

    /// Returns the number that is printed, from 31 to 35.
    pub fn number(self) -> u8
        ensures { result ≡ refusal_number self }
    {
        match self {
            CaptureRefusal::DuplicateId => 31,
            CaptureRefusal::UnknownLeg => 32,
            CaptureRefusal::TooMany => 33,
            CaptureRefusal::NoInstrument => 34,
            CaptureRefusal::InstrumentLate => 35,
        }
    }

    /// Returns the name that is printed, in ASCII letters.
    pub fn name(self) -> &'static str
        ensures { result.now ≡ refusal_name self }
    {
        match self {
            CaptureRefusal::DuplicateId => "DuplicateId",
            CaptureRefusal::UnknownLeg => "UnknownLeg",
            CaptureRefusal::TooMany => "TooMany",
            CaptureRefusal::NoInstrument => "None",
            CaptureRefusal::InstrumentLate => "InstrumentLate",
        }
    }
}

/// Why a capture could not be read.
#[derive(Clone, Copy, Debug, PartialEq, Eq)]
pub enum CaptureFault {
    /// The run is refused at this line, or at line 0 where the whole capture lacks an instrument.
    Refused { line: u32, refusal: CaptureRefusal },
    /// Memory ran out.
    Memory,
    /// A read failed.
    Input,
}

#[tactic(auto, unfolding(crate::specs::Faults::refusal_text))]
impl fmt::Display for CaptureFault {
    ghost output = { λ fault. Some (fault_text fault) };

    /// Writes the number and the name, and before them the line, unless that is line 0.
    fn fmt<W: fmt::Write>(&self, f: &mut fmt::Formatter<W>) -> fmt::Result {
        match *self {
            CaptureFault::Refused { line, refusal } => {
                let (number, name) = (refusal.number(), refusal.name());
                if line == 0 {
                    return write!(f, "{number} {name}");
                }
                write!(f, "line {line}: {number} {name}")
            }
            CaptureFault::Memory => f.write_str("41 Memory"),
            CaptureFault::Input => f.write_str("43 Input"),
        }
    }
}

impl Error for CaptureFault {}

impl From<AllocError> for CaptureFault {
    ghost from_gives = { λ _ e. e ≡ faults.Memory };

    fn from(_error: AllocError) -> CaptureFault {
        CaptureFault::Memory
    }
}

impl From<Memory> for CaptureFault {
    ghost from_gives = { λ _ e. e ≡ faults.Memory };

    fn from(_error: Memory) -> CaptureFault {
        CaptureFault::Memory
    }
}

impl<T: Drop> From<AllocFailed<T>> for CaptureFault {
    ghost from_gives = { λ _ e. e ≡ faults.Memory };

    fn from(_error: AllocFailed<T>) -> CaptureFault {
        CaptureFault::Memory
    }
}
