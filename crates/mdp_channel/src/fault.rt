//! Why a channel file could not be read.

ghost use Rattle.std.specs.Prelude.{◌≡◌};
ghost use Rattle.mdp_channel.specs.declared.fault.ChannelFault.TheVariants as faults;

use mdp_capture::CaptureRefusal;
use std::alloc::AllocError;

/// Why a line is refused, by the number and the name that are printed.
#[derive(Clone, Copy, Debug, PartialEq, Eq)]
pub enum LineRefusal {
    /// It says no instrument and no address, and is neither empty nor a comment.
    Form,
    /// An earlier line has its group and port, for this feed or another.
    AddressTwice,
    /// Its instrument is refused behind those of the earlier lines, for one of the reasons 31 to 33.
    Listing(CaptureRefusal),
}

impl LineRefusal {
    ghost use Rattle.mdp_channel.specs.Fault.{line_refusal_name, line_refusal_number};

    /// Returns the number that is printed: 61, 62, or 31 to 33.
    pub fn number(self) -> u8
        ensures { result ≡ line_refusal_number self }
    {
        match self {
            LineRefusal::Form => 61,
            LineRefusal::AddressTwice => 62,
            LineRefusal::Listing(refusal) => refusal.number(),
        }
    }

    /// Lends the name that is printed, in ASCII letters.
    pub fn name(self) -> &'static str
        ensures { result.now ≡ line_refusal_name self }
    {
        match self {
            LineRefusal::Form => "ChannelForm",
            LineRefusal::AddressTwice => "AddressTwice",
            LineRefusal::Listing(refusal) => refusal.name(),
        }
    }
}

/// Why a text gave no channel.
#[derive(Clone, Copy, Debug, PartialEq, Eq)]
pub enum ChannelFault {
    /// This line is refused, and none before it is. The first line of the text has number 1, and every line counts.
    Line { line: u64, refusal: LineRefusal },
    /// No line is refused, and none says an instrument.
    NoInstrument,
    /// No line is refused and one says an instrument, but none says an address.
    NoAddress,
    /// Memory ran out.
    Memory,
}

impl ChannelFault {
    ghost use Rattle.mdp_channel.specs.Fault.{channel_fault_name, channel_fault_number};

    /// Returns the number that is printed: that of the line's refusal, 34, 63, or 41 for memory.
    pub fn number(self) -> u8
        ensures { result ≡ channel_fault_number self }
    {
        match self {
            ChannelFault::Line { refusal, .. } => refusal.number(),
            ChannelFault::NoInstrument => CaptureRefusal::NoInstrument.number(),
            ChannelFault::NoAddress => 63,
            ChannelFault::Memory => 41,
        }
    }

    /// Lends the name that is printed, in ASCII letters.
    pub fn name(self) -> &'static str
        ensures { result.now ≡ channel_fault_name self }
    {
        match self {
            ChannelFault::Line { refusal, .. } => refusal.name(),
            ChannelFault::NoInstrument => CaptureRefusal::NoInstrument.name(),
            ChannelFault::NoAddress => "NoAddress",
            ChannelFault::Memory => "Memory",
        }
    }
}

impl From<AllocError> for ChannelFault {
    ghost from_gives = { λ _ e. e ≡ faults.Memory };

    fn from(_error: AllocError) -> ChannelFault {
        ChannelFault::Memory
    }
}
