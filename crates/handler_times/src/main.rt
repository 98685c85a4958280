//! Pushes what came on a channel into a handler, one datagram after another, asks what became of each and what it
//! moved, and lets go what the handler made, after each datagram that may have changed a book, so that the instructions
//! of a datagram can be counted. A capture comes on standard input. The first word says what the handler keeps:
//! `lines`, or `books` alone; with `nothing` the capture is only read. The second says how many handlers follow the
//! capture, one after another: one where it isn't there.
#![tactic(auto)]

ghost use Rattle.mdp_templates.specs.Instrument.{AreFit};

use anyhow::bail;
use mdp_arbiter::{PacketFate, Start};
use mdp_capture::{Capture, CountingReader, read_capture};
use mdp_pipeline::Feeds;
use mdp_receiver::{Handler, Moved, Taken};
use mdp_templates::Memory;
use std::alloc::Global;
use std::env;
use std::io::Write;

/// How many packets are held at most behind one that is missing.
const WINDOW: u32 = 65536;

/// What a handler made of a capture.
#[derive(Clone, Copy)]
struct Counts {
    datagrams: u64,
    firsts: u64,
    jumps: u64,
    books: u64,
    bytes: u64,
}

// Returns whether a datagram may have changed a book. A packet that came before, or too late, changes none.
fn may_change(taken: Taken) -> bool {
    match taken {
        Taken::Packet(fate) => fate == PacketFate::First,
        Taken::Snapshots(_) => true,
        Taken::Refused(_) => false,
    }
}

// Counts a datagram and what became of it: whether it was the first copy of its packet, and whether recovery went on
// at another number.
fn count_told(counts: Counts, taken: Taken, moved: Moved) -> Counts {
    let is_first = taken == Taken::Packet(PacketFate::First);
    Counts {
        datagrams: counts.datagrams.saturating_add(1),
        firsts: counts.firsts.saturating_add(u64::from(is_first)),
        jumps: counts.jumps.saturating_add(u64::from(moved.jump.is_some())),
        ..counts
    }
}

// Counts what a datagram made: the books that were printed and, where lines are kept, the bytes of text.
fn count_made(counts: Counts, handler: &Handler<Global>, keeps_lines: bool) -> Counts {
    let mut books = counts.books;
    let mut from = 0;
    while let Some(slot) = handler.changed().next_from(from) {
        books = books.saturating_add(1);
        from = slot + 1;
    }
    let length = if keeps_lines {
        handler.lines().len()
    } else {
        0
    };
    Counts {
        books,
        bytes: counts.bytes.saturating_add(length as u64),
        ..counts
    }
}

// Pushes the records of a capture into a handler, in the order of their lines.
fn follow(alloc: Global, capture: &Capture<Global>, keeps_lines: bool) -> Result<Counts, Memory>
    requires { AreFit capture.now.instruments }
{
    let mut handler = Handler::new(alloc, capture.instruments(), WINDOW, Start::FromOne)?;
    if !keeps_lines {
        handler.keep_no_lines();
    }
    let mut counts = Counts {
        datagrams: 0,
        firsts: 0,
        jumps: 0,
        books: 0,
        bytes: 0,
    };
    let mut feeds = Feeds::of(capture);
    while let Some((feed, record)) = feeds.next_by_line() {
        let Some(bytes) = record.bytes() else {
            handler.close()?;
            continue;
        };
        let (taken, moved) = handler.datagram_with_moves(alloc, feed, bytes)?;
        counts = count_told(counts, taken, moved);
        if may_change(taken) {
            counts = count_made(counts, &handler, keeps_lines);
            handler.clear_lines();
        }
    }
    Ok(counts)
}

// Pushes the records of a capture into a handler, and then into new ones, so many times in all and once at least. Gives
// what the last one made.
fn follow_often(
    alloc: Global,
    capture: &Capture<Global>,
    keeps_lines: bool,
    times: u32,
) -> Result<Counts, Memory>
    requires { AreFit capture.now.instruments }
{
    let mut counts = follow(alloc, capture, keeps_lines)?;
    for _ in 1..times {
        counts = follow(alloc, capture, keeps_lines)?;
    }
    Ok(counts)
}

fn main(rt: HostRuntime) -> anyhow::Result<()> {
    let alloc = rt.alloc();
    let capture = read_capture(alloc, &mut CountingReader::new(rt.reader()))?;
    let mut words = env::args(&rt)?.skip(1);
    let keeps_lines = match words.next() {
        Some(word) if word.as_str() == "lines" => true,
        Some(word) if word.as_str() == "books" => false,
        Some(word) if word.as_str() == "nothing" => return Ok(()),
        _ => bail!("the first word is lines, books or nothing"),
    };
    let Ok(times) = words.next().map_or(Ok(1), |word| word.parse::<u32>()) else {
        bail!("the second word says how many handlers follow the capture");
    };
    let Ok(counts) = follow_often(alloc, &capture, keeps_lines, times) else {
        bail!("out of memory");
    };
    println!(rt;
        "{} datagrams, {} first copies, {} jumps, {} books, {} bytes of text",
        counts.datagrams, counts.firsts, counts.jumps, counts.books, counts.bytes
    )?;
    Ok(())
}
