//! The statuses that calls answer: the program's numbers, and from 81 on those of what only a caller in C can do.

ghost use Rattle.std.specs.Prelude.{◌≡◌};
ghost use Rattle.mdp_c.specs.Statuses.{unlisted_status};

use mdp_session::Unlisted;

/// The call did what it says.
pub(crate) const DONE: u32 = 0;

/// A line of a text is no `I` line.
pub(crate) const NO_LISTING: u32 = 21;

/// A datagram has more than 2,048 bytes.
pub(crate) const TOO_LONG: u32 = 23;

/// No instrument is listed.
pub(crate) const NONE_LISTED: u32 = 34;

/// Memory ran out, now or in an earlier call.
pub(crate) const MEMORY: u32 = 41;

/// The handle is closed.
pub(crate) const CLOSED: u32 = 81;

/// The handle is open.
pub(crate) const OPEN: u32 = 82;

/// An argument is out of its range.
pub(crate) const OUT_OF_RANGE: u32 = 83;

/// An array is too short.
pub(crate) const TOO_SHORT: u32 = 84;

/// Returns the status of an entry that isn't listed, where this is the status of one that says no instrument.
pub(crate) fn unlisted_status(why: Unlisted, no_instrument: u32) -> u32
    ensures { result ≡ unlisted_status no_instrument why }
{
    match why {
        Unlisted::NoInstrument => no_instrument,
        Unlisted::Refused(refusal) => u32::from(refusal.number()),
    }
}
