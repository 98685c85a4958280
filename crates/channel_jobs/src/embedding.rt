//! A process that embeds the handler: datagrams go in one by one, and after each it looks at the books and the channel.

ghost use Rattle.std.specs.Prelude.{◌≤◌};
ghost use Rattle.mdp_templates.specs.Instrument.{AreFit};

use crate::channel::Channel;
use crate::digest::Digest;
use crate::replays::Amount;
use anyhow::bail;
use mdp_arbiter::{PacketFate, Start};
use mdp_capture::{CountingReader, read_capture};
use mdp_quotes::{TopOfBook, Total};
use mdp_receiver::{ChannelState, Handler, Taken};
use mdp_templates::{Feed, Instrument, Memory};
use std::alloc::Global;

/// How a channel is followed.
#[derive(Clone, Copy)]
pub struct Following {
    pub window: u32,
    pub start: Start,
    /// Of how many securities, the last ones listed, the snapshots come in the last session alone.
    pub silent: usize,
}

// Digests the best level of a side.
fn put_level(digest: &mut Digest, level: Option<Total>) {
    match level {
        Some(Total { price, size }) => {
            digest.put(price.cast_unsigned());
            digest.put(size.cast_unsigned());
        }
        None => digest.put(1),
    }
}

// Digests the best levels of a book.
fn put_best(digest: &mut Digest, best: Option<TopOfBook>) {
    match best {
        Some(TopOfBook { bid, offer }) => {
            put_level(digest, bid);
            put_level(digest, offer);
        }
        None => digest.put(2),
    }
}

// Digests where a channel stands.
fn put_state(digest: &mut Digest, state: &ChannelState) {
    digest.put(state.next);
    digest.put(state.highest);
    digest.put(state.waiting);
    digest.put(if state.lost { 3 } else { 4 });
    digest.put(state.stale.map_or(5, |slot| slot as u64));
}

// Gives a word for what became of a packet.
fn word_of_fate(fate: PacketFate) -> u64 {
    match fate {
        PacketFate::First => 10,
        PacketFate::Repeat => 11,
        PacketFate::Past => 12,
        PacketFate::Late => 13,
        PacketFate::AfterClose => 14,
    }
}

// Digests what became of a datagram.
fn put_taken(digest: &mut Digest, taken: &Taken) {
    match taken {
        Taken::Packet(fate) => digest.put(word_of_fate(*fate)),
        Taken::Snapshots(counts) => {
            digest.put(counts.news as u64);
            digest.put(counts.older as u64);
            digest.put(counts.unlisted as u64);
        }
        Taken::Refused(refusal) => digest.put(u64::from(refusal.number())),
    }
}

// Hands a datagram to the handler, and looks at the book of a security and at the channel, as a strategy does.
fn take(
    handler: &mut Handler<Global>,
    alloc: Global,
    feed: Feed,
    bytes: &[u8],
    slot: usize,
    digest: &mut Digest,
) -> Result<(), Memory> {
    let taken = handler.datagram(alloc, feed, bytes)?;
    put_taken(digest, &taken);
    put_best(digest, handler.best(slot));
    digest.put(if handler.is_current(slot) { 6 } else { 7 });
    put_state(digest, &handler.state());
    digest.put_text(handler.lines());
    handler.clear_lines();
    Ok(())
}

// Hands the packets that open the books to the handler.
fn take_opening(
    handler: &mut Handler<Global>,
    alloc: Global,
    channel: &Channel,
    digest: &mut Digest,
) -> Result<(), Memory> {
    for it in channel.opening.iter() {
        take(handler, alloc, Feed::A, &it.bytes, it.slot, digest)?;
        take(handler, alloc, Feed::B, &it.bytes, it.slot, digest)?;
    }
    Ok(())
}

// Hands what comes in a session to the handler, but for snapshots of securities from a slot on.
fn take_session(
    handler: &mut Handler<Global>,
    alloc: Global,
    channel: &Channel,
    silent_from: usize,
    digest: &mut Digest,
) -> Result<(), Memory> {
    for it in channel.arrivals.iter() {
        let list = match it.feed {
            Feed::A => &channel.packets,
            Feed::B => &channel.packets,
            Feed::S => &channel.snapshots,
        };
        let Some(datagram) = list.get(it.place) else {
            continue;
        };
        if it.feed == Feed::S && datagram.slot >= silent_from {
            continue;
        }
        let shorter = if it.is_cut { 3 } else { 0 };
        let count = datagram.bytes.len().saturating_sub(shorter);
        let bytes = &datagram.bytes[..count];
        take(handler, alloc, it.feed, bytes, datagram.slot, digest)?;
    }
    Ok(())
}

// Follows a channel of these instruments for so many sessions.
fn follow_once(
    alloc: Global,
    channel: &mut Channel,
    instruments: &[Instrument],
    following: Following,
    turn: &mut u32,
    sessions: u32,
    digest: &mut Digest,
) -> Result<(), Memory>
    requires window { (1 ≤ following.window) × (following.window ≤ 65536) }
    requires fit { AreFit instruments.now }
{
    let mut handler = Handler::new(alloc, instruments, following.window, following.start)?;
    take_opening(&mut handler, alloc, channel, digest)?;
    let packets = (channel.packets.len() % 1_000_000) as u32;
    for session in 0..sessions {
        *turn = turn.wrapping_add(1);
        channel.renew(*turn, session.wrapping_mul(packets));
        let is_last = session + 1 == sessions;
        let heard = if is_last {
            usize::MAX
        } else {
            instruments.len().saturating_sub(following.silent)
        };
        take_session(&mut handler, alloc, channel, heard, digest)?;
    }
    digest.put(handler.next());
    Ok(())
}

/// Follows a channel so many times, for so many sessions each, and digests all that is seen.
pub fn follow(
    alloc: Global,
    channel: &mut Channel,
    following: Following,
    amount: Amount,
) -> anyhow::Result<u64>
    requires window { (1 ≤ following.window) × (following.window ≤ 65536) }
{
    let mut lines = String::new(alloc);
    channel.market.put_lines(&mut lines)?;
    let listing = read_capture(alloc, &mut CountingReader::new(lines.as_bytes()))?;
    let mut digest = Digest::new();
    let mut turn = 0;
    for _ in 0..amount.times {
        let followed = follow_once(
            alloc,
            channel,
            listing.instruments(),
            following,
            &mut turn,
            amount.sessions,
            &mut digest,
        );
        if followed.is_err() {
            bail!("out of memory");
        }
    }
    Ok(digest.value())
}
