//! The calls, as C makes them: the worked runs with all that is told after them, what is refused, and a handle from its
//! opening to its end.

mod closed;
mod faulty;
mod instruments;
mod layout;
mod runs;

ghost use Rattle.std.specs.Prelude.{◌≡◌, ◌≤◌, length};

use crate::became::Became;
use crate::books::{Best, BookFault};
use crate::handle::Handle;
use crate::levels::Level;
use crate::opening_text::mdp_open_text;
use crate::options::Options;
use std::alloc::Global;

/// A run from packet 1, with lines, over a window of 4.
const FOLLOW: Options = Options {
    size: 24,
    window: 4,
    start: 0,
    lines: 1,
    reserved: 0,
};

/// What stands where nothing was told yet.
const UNTOLD: Became = Became {
    kind: 9,
    fate: 9,
    has_loss: 9,
    has_jump: 9,
    news: 9,
    older: 9,
    unlisted: 9,
    after_close: 9,
    loss_next: 9,
    loss_highest: 9,
    jump_old: 9,
    jump_new: 9,
};

const NO_LEVEL: Level = Level { price: 0, size: 0 };

/// The best levels where none are told yet.
const NO_BEST: Best = Best {
    bid: NO_LEVEL,
    offer: NO_LEVEL,
    has_bid: 9,
    has_offer: 9,
    is_faulty: 9,
    reserved: 9,
};

/// The fault where none is told yet.
const NO_FAULT: BookFault = BookFault {
    message: 9,
    packet: 9,
    entry: 9,
    is_faulty: 9,
    reserved: 9,
};

/// Lends the lines of a capture in front of its first datagram on feed A.
fn listing(capture: &[u8]) -> &[u8] {
    let mut was_end = false;
    for (place, byte) in capture.iter().enumerate() {
        if was_end && *byte == b'A' {
            return &capture[..place];
        }
        was_end = *byte == b'\n';
    }
    capture
}

/// Opens a handle with the instruments of a capture, and tells what was answered.
fn open(alloc: Global, capture: &[u8], options: &Options) -> (Handle, u32) {
    let mut handle = Handle::closed();
    let mut line = 0;
    let status = mdp_open_text(alloc, &mut handle, options, listing(capture), &mut line);
    (handle, status)
}
