//! The calls that take in what came.

ghost use Rattle.std.specs.Prelude.{◌≡◌};
ghost use Rattle.mdp_c.specs.Feeding.{Closes, Feeds, FeedsSession, feed_of, holding};

use crate::became::{Became, tell_became};
use crate::handle::Handle;
use crate::status::{CLOSED, DONE, MEMORY, OUT_OF_RANGE, TOO_LONG};
use mdp_session::Session;
use mdp_templates::{Feed, LONGEST_DATAGRAM};
use std::alloc::Global;

/// Takes in a datagram of a feed, 0 for A, 1 for B and 2 for S, and tells what became of it and what it moved.
///
/// Answers 0; 1 to 18, the number of the refusal, where the datagram is refused and counts as one that never came; 23
/// where it has more than 2,048 bytes; 41; 81; or 83. Only at 0 is `became` written, and at 23, 81 and 83 nothing
/// changes. At 41 the handle has failed: each later datagram is answered 41 and changes nothing, the lines that are
/// held may break off anywhere, and all else is answered as before.
#[unsafe(no_mangle)]
pub extern "C" fn mdp_datagram(
    alloc: Global,
    handle: &mut Handle,
    feed: u32,
    bytes: &[u8],
    became: &mut Became,
) -> u32
    ensures { Feeds feed bytes.now (holding handle.old.held became.old)
        (holding handle.new.held became.new) result }
{
    if !handle.is_open() {
        return CLOSED;
    }
    let Some(feed) = feed_of(feed) else {
        return OUT_OF_RANGE;
    };
    if bytes.len() > LONGEST_DATAGRAM {
        return TOO_LONG;
    }
    feed_session(alloc, handle.session(), feed, bytes, became)
}

/// Takes in that the channel was closed: from now on no packet passes, and no snapshot counts.
///
/// Answers 0, 41 or 81. At 41 the handle has failed, as after a datagram.
#[unsafe(no_mangle)]
pub extern "C" fn mdp_close(handle: &mut Handle) -> u32
    ensures { Closes handle.old.held handle.new.held result }
{
    if !handle.is_open() {
        return CLOSED;
    }
    match handle.session().close() {
        Ok(()) => DONE,
        Err(_) => MEMORY,
    }
}

// Returns the feed of a number, if there is one.
fn feed_of(number: u32) -> Option<Feed>
    ensures { result ≡ feed_of number }
{
    match number {
        0 => Some(Feed::A),
        1 => Some(Feed::B),
        2 => Some(Feed::S),
        _ => None,
    }
}

// Takes in a datagram, and tells what became of it.
fn feed_session(
    alloc: Global,
    session: &mut Session,
    feed: Feed,
    bytes: &[u8],
    became: &mut Became,
) -> u32
    ensures { FeedsSession feed bytes.now (holding session.old became.old)
        (holding session.new became.new) result }
{
    let Ok((taken, moved)) = session.datagram_with_moves(alloc, feed, bytes) else {
        return MEMORY;
    };
    tell_became(became, taken, moved)
}
