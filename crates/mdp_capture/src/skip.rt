//! Lines of a capture that are refused and skipped.

ghost use Rattle.std.specs.Prelude.{◌≡◌};

/// Why a line is skipped, by the number and the name that are printed: the first of these that holds.
#[derive(Clone, Copy, Debug, PartialEq, Eq)]
pub enum Skip {
    /// The line has none of the forms of a capture.
    LineForm,
    /// The digits of a datagram are odd in number, or one of them is no hexadecimal digit.
    Hex,
    /// The datagram has more than 2,048 bytes.
    TooLong,
}

impl Skip {
    ghost use Rattle.mdp_capture.specs.Faults.{skip_number, skip_name};

    /// Returns the number that is printed, from 21 to 23.
    pub fn number(self) -> u8
        ensures { result ≡ skip_number self }
    {
        match self {
            Skip::LineForm => 21,
            Skip::Hex => 22,
            Skip::TooLong => 23,
        }
    }

    /// Returns the name that is printed, in ASCII letters.
    pub fn name(self) -> &'static str
        ensures { result.now ≡ skip_name self }
    {
        match self {
            Skip::LineForm => "LineForm",
            Skip::Hex => "Hex",
            Skip::TooLong => "TooLong",
        }
    }
}

/// A line that was skipped.
#[derive(Clone, Copy, Debug, PartialEq, Eq)]
pub struct SkippedLine {
    /// The number of the line, from 1; each line past 4294967295 bears that number.
    pub line: u32,
    /// Why it was skipped.
    pub skip: Skip,
}
