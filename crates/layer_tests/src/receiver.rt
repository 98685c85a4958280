//! A handler that datagrams are pushed into, one by one, as an embedder does it.

ghost use Rattle.std.specs.Prelude.{IfSome};
ghost use Rattle.mdp_templates.specs.Instrument.{AreFit};

use mdp_arbiter::{PacketFate, Start};
use mdp_capture::{Capture, CountingReader, Record, read_capture};
use mdp_quotes::Total;
use mdp_receiver::{ChannelState, Handler, Jump, Loss, Moved, SnapshotCounts, Taken};
use mdp_sbe::Refusal;
use mdp_templates::{Feed, Memory};
use refusing::Refusing;
use std::alloc::Allocator;
use std::process::Abort;
use std::test::Fail;
use worked_runs::{RECOVERY, RECOVERY_TEXT};

/// Pushes what came on a feed into a handler, and hands on the lines that each datagram makes.
fn push<A: Allocator + Copy>(
    alloc: A,
    handler: &mut Handler<A>,
    feed: Feed,
    records: &[Record<A>],
    text: &mut Vec<u8, A>,
) -> Result<(), Memory> {
    for record in records {
        match record.bytes() {
            Some(bytes) => {
                let _taken = handler.datagram(alloc, feed, bytes)?;
            }
            None => handler.close()?,
        }
        text.extend_from_slice(handler.lines())?;
        handler.clear_lines();
    }
    Ok(())
}

/// Pushes a capture into a handler, feed by feed, and hands on all lines, the end's too.
fn push_all<A: Allocator + Copy>(
    alloc: A,
    handler: &mut Handler<A>,
    capture: &Capture<A>,
    text: &mut Vec<u8, A>,
) -> Result<(), Memory> {
    push(alloc, handler, Feed::A, capture.a(), text)?;
    push(alloc, handler, Feed::B, capture.b(), text)?;
    push(alloc, handler, Feed::S, capture.s(), text)?;
    handler.put_end(text)
}

/// Appends the text that a handler makes of a capture, feed by feed.
fn put_text<A: Allocator + Copy>(
    alloc: A,
    capture: &Capture<A>,
    text: &mut Vec<u8, A>,
) -> Result<(), Memory>
    requires { AreFit capture.now.instruments }
{
    let mut handler = Handler::new(alloc, capture.instruments(), 4, Start::FromOne)?;
    push_all(alloc, &mut handler, capture, text)
}

/// Gives the text that a handler makes of a capture, feed by feed.
fn text_of<A: Allocator + Copy>(alloc: A, capture: &Capture<A>) -> Result<Vec<u8, A>, Memory>
    requires { AreFit capture.now.instruments }
{
    let mut text = Vec::new(alloc);
    put_text(alloc, capture, &mut text)?;
    Ok(text)
}

/// Reads the capture of a recovery, in which packet 1 is lost.
pub(crate) fn recovery<A: Allocator + Copy>(alloc: A) -> Option<Capture<A>>
    ensures { IfSome result (λ capture. AreFit capture.instruments) }
{
    let mut input = CountingReader::new(RECOVERY);
    match read_capture(alloc, &mut input) {
        Ok(capture) => Some(capture),
        Err(_) => None,
    }
}

#[test]
fn datagrams_that_are_pushed_print_the_text_of_the_run(rt: HostRuntime) -> Result<(), Fail> {
    let alloc = rt.alloc();
    let Some(capture) = recovery(alloc) else {
        return Err("no capture".into());
    };
    let text = text_of(alloc, &capture)?;
    assert_eq!(rt; text.as_slice(), RECOVERY_TEXT);
    Ok(())
}

#[test]
fn each_want_of_memory_is_answered(rt: HostRuntime) -> Result<(), Fail> {
    let mut refused = 0u64;
    for number in 1..10000u64 {
        let heap = Refusing::new(rt.alloc(), number);
        let Some(capture) = recovery(&heap) else {
            continue;
        };
        let was_made = text_of(&heap, &capture).is_ok();
        assert_eq!(rt; was_made, !heap.has_refused());
        if was_made {
            break;
        }
        refused = number;
    }
    assert!(rt; refused > 30);
    Ok(())
}

/// Returns what became of a record's datagram, and where the channel stands after it.
fn one<A: Allocator + Copy>(
    alloc: A,
    handler: &mut Handler<A>,
    feed: Feed,
    record: &Record<A>,
) -> Result<(Taken, ChannelState), Memory> {
    let bytes = match record.bytes() {
        Some(bytes) => bytes,
        None => &[],
    };
    let taken = handler.datagram(alloc, feed, bytes)?;
    Ok((taken, handler.state()))
}

/// What becomes of a datagram with so many snapshots that are news, and so many that are older.
fn snapshots(news: usize, older: usize) -> Taken {
    Taken::Snapshots(SnapshotCounts {
        news,
        older,
        unlisted: 0,
        after_close: 0,
    })
}

/// The state where packet 1 has not come, and packets up to this one wait.
fn waits_up_to(highest: u64) -> ChannelState {
    ChannelState {
        next: 1,
        lost: highest >= 5,
        highest,
        waiting: highest.saturating_sub(1),
        stale: if highest >= 5 { Some(0) } else { None },
    }
}

/// The state once packets 2 to 5 have passed behind the snapshots.
const RECOVERED: ChannelState = ChannelState {
    next: 6,
    lost: false,
    highest: 5,
    waiting: 0,
    stale: None,
};

/// Checks what becomes of a record's datagram, and where the channel stands after it.
fn becomes<A: Allocator + Copy, T: Abort>(
    rt: &T,
    alloc: A,
    handler: &mut Handler<A>,
    feed: Feed,
    record: &Record<A>,
    wanted: (Taken, ChannelState),
) -> Result<(), Memory> {
    assert_eq!(rt; one(alloc, handler, feed, record)?, wanted);
    Ok(())
}

/// Checks what becomes of packets 2 to 5, of which the last gives packet 1 up, and of the snapshots that come then.
fn recovers<A: Allocator + Copy, T: Abort>(
    rt: &T,
    alloc: A,
    handler: &mut Handler<A>,
    capture: &Capture<A>,
) -> Result<(), Memory> {
    let mut highest = 2;
    for record in capture.a() {
        let state = waits_up_to(highest);
        let first = (Taken::Packet(PacketFate::First), state);
        becomes(rt, alloc, handler, Feed::A, record, first)?;
        let again = (Taken::Packet(PacketFate::Repeat), state);
        becomes(rt, alloc, handler, Feed::B, record, again)?;
        highest = highest.saturating_add(1);
    }
    for record in capture.s() {
        let first = (snapshots(3, 0), RECOVERED);
        becomes(rt, alloc, handler, Feed::S, record, first)?;
        let again = (snapshots(0, 3), RECOVERED);
        becomes(rt, alloc, handler, Feed::S, record, again)?;
    }
    Ok(())
}

/// Each record's datagram comes on feed B, and this becomes of its packet.
fn all_become<A: Allocator + Copy, T: Abort>(
    rt: &T,
    alloc: A,
    handler: &mut Handler<A>,
    records: &[Record<A>],
    fate: PacketFate,
) -> Result<(), Memory> {
    for record in records {
        let (taken, _) = one(alloc, handler, Feed::B, record)?;
        assert_eq!(rt; taken, Taken::Packet(fate));
    }
    Ok(())
}

/// Checks a recovery, a refused datagram, and packets that come again when they have passed and after the close.
fn tells_of_each<A: Allocator + Copy, T: Abort>(
    rt: &T,
    alloc: A,
    handler: &mut Handler<A>,
    capture: &Capture<A>,
) -> Result<(), Memory> {
    recovers(rt, alloc, handler, capture)?;
    let refused = handler.datagram(alloc, Feed::A, b"short")?;
    assert_eq!(rt; refused, Taken::Refused(Refusal::TooShort));
    all_become(rt, alloc, handler, capture.a(), PacketFate::Past)?;
    handler.close()?;
    all_become(rt, alloc, handler, capture.a(), PacketFate::AfterClose)
}

/// Checks so with a new handler.
fn new_tells_of_each<A: Allocator + Copy, T: Abort>(
    rt: &T,
    alloc: A,
    capture: &Capture<A>,
) -> Result<(), Memory>
    requires { AreFit capture.now.instruments }
{
    let mut handler = Handler::new(alloc, capture.instruments(), 4, Start::FromOne)?;
    tells_of_each(rt, alloc, &mut handler, capture)
}

#[test]
fn a_handler_tells_what_became_of_each_datagram(rt: HostRuntime) -> Result<(), Fail> {
    let alloc = rt.alloc();
    let Some(capture) = recovery(alloc) else {
        return Err("no capture".into());
    };
    new_tells_of_each(&rt, alloc, &capture)?;
    Ok(())
}

/// Checks the levels of the books after a recovery, and which books are current.
fn books_stand<A: Allocator + Copy, T: Abort>(rt: &T, handler: &Handler<A>) -> Result<(), Fail> {
    let near = handler.best(0).ok_or("no best levels")?;
    let bid = Total {
        price: 101,
        size: 9,
    };
    let offer = Total {
        price: 103,
        size: 4,
    };
    assert_eq!(rt; (near.bid, near.offer), (Some(bid), Some(offer)));
    let far = handler.consolidated(1).ok_or("no levels")?;
    assert_eq!(rt; far.bids().len(), 0);
    assert_eq!(rt; far.offers(), [Total { price: 90, size: 3 }].as_slice());
    assert!(rt; handler.book(2).is_some() && handler.book(3).is_none());
    assert!(rt; handler.is_current(0) && handler.is_current(2) && !handler.is_current(3));
    Ok(())
}

/// Checks the books before anything came, and after a recovery.
fn lends_books<A: Allocator + Copy, T: Abort>(
    rt: &T,
    alloc: A,
    handler: &mut Handler<A>,
    capture: &Capture<A>,
) -> Result<(), Fail> {
    assert!(rt; handler.is_current(0) && handler.best(3).is_none());
    recovers(rt, alloc, handler, capture)?;
    books_stand(rt, handler)
}

/// Checks so with a new handler.
fn new_lends_books<A: Allocator + Copy, T: Abort>(
    rt: &T,
    alloc: A,
    capture: &Capture<A>,
) -> Result<(), Fail>
    requires { AreFit capture.now.instruments }
{
    let mut handler = Handler::new(alloc, capture.instruments(), 4, Start::FromOne)?;
    lends_books(rt, alloc, &mut handler, capture)
}

#[test]
fn a_handler_lends_the_books_as_they_stand(rt: HostRuntime) -> Result<(), Fail> {
    let alloc = rt.alloc();
    let Some(capture) = recovery(alloc) else {
        return Err("no capture".into());
    };
    new_lends_books(&rt, alloc, &capture)
}

/// Fills a text with one message that is stepped over, behind the header of a packet of this number.
fn fill_with_one_message(text: &mut [u8], number: u8) {
    let size = text.len().saturating_sub(12);
    for n in 0..text.len() {
        text[n] = match n {
            0 => number,
            12 => (size % 256) as u8,
            13 => (size / 256 % 256) as u8,
            16 => 255,
            18 => 1,
            _ => 0,
        };
    }
}

/// Pushes packets of these lengths, numbered from 1, and returns how many of them pass.
fn pass_all<A: Allocator + Copy>(
    alloc: A,
    handler: &mut Handler<A>,
    lengths: &[usize],
) -> Result<usize, Memory> {
    let mut passed = 0usize;
    let mut number = 0u8;
    for length in lengths {
        number = number.saturating_add(1);
        let mut text = vec![in alloc; 0u8; *length]?;
        fill_with_one_message(text.as_mut_slice(), number);
        let taken = handler.datagram(alloc, Feed::A, text.as_slice())?;
        if taken == Taken::Packet(PacketFate::First) && handler.next() == u64::from(number) + 1 {
            passed = passed.saturating_add(1);
        }
    }
    Ok(passed)
}

/// Checks that packets pass whose datagrams are of 2,048 bytes, less and more.
fn passes_each_length<A: Allocator + Copy, T: Abort>(
    rt: &T,
    alloc: A,
    handler: &mut Handler<A>,
) -> Result<(), Memory> {
    let lengths = [22, 2047, 2048, 2049, 22, 4096, 2048, 2049];
    assert_eq!(rt; pass_all(alloc, handler, &lengths)?, lengths.len());
    Ok(())
}

/// Checks so with a new handler.
fn new_passes_each_length<A: Allocator + Copy, T: Abort>(
    rt: &T,
    alloc: A,
    capture: &Capture<A>,
) -> Result<(), Memory>
    requires { AreFit capture.now.instruments }
{
    let mut handler = Handler::new(alloc, capture.instruments(), 4, Start::FromOne)?;
    passes_each_length(rt, alloc, &mut handler)
}

#[test]
fn a_packet_passes_however_long_its_datagram_is(rt: HostRuntime) -> Result<(), Fail> {
    let alloc = rt.alloc();
    let Some(capture) = recovery(alloc) else {
        return Err("no capture".into());
    };
    new_passes_each_length(&rt, alloc, &capture)?;
    Ok(())
}

/// Nothing moved.
const NOTHING: Moved = Moved {
    loss: None,
    jump: None,
};

/// The packet of a number is given up, since this one came.
fn loss(next: u64, highest: u64) -> Option<Loss> {
    Some(Loss { next, highest })
}

/// Recovery went on from one number at another.
fn jump(old: u64, new: u64) -> Option<Jump> {
    Some(Jump { old, new })
}

/// Returns what a packet of this number moves, which says nothing of any book.
fn packet_moves<A: Allocator + Copy>(
    alloc: A,
    handler: &mut Handler<A>,
    number: u8,
) -> Result<Moved, Memory> {
    let mut text = vec![in alloc; 0u8; 22]?;
    fill_with_one_message(text.as_mut_slice(), number);
    let (_taken, moved) = handler.datagram_with_moves(alloc, Feed::A, text.as_slice())?;
    Ok(moved)
}

/// Gives one byte of a datagram of empty snapshots, of securities 1, 2 and so on, which include these packets last.
fn byte_of_snapshots(place: usize, lasts: &[u8]) -> u8 {
    if place < 12 {
        return 0;
    }
    let behind = place.saturating_sub(12);
    let slot = behind / 29;
    match behind % 29 {
        0 => 29,
        2 => 16,
        4 => 52,
        6 => 1,
        10 => match lasts.get(slot) {
            Some(last) => *last,
            None => 0,
        },
        18 => ((slot % 255) as u8).saturating_add(1),
        26 => 22,
        _ => 0,
    }
}

/// Returns what a datagram moves with an empty snapshot of each of three securities, in listed order, which include
/// these packets last.
fn snapshots_move<A: Allocator + Copy>(
    alloc: A,
    handler: &mut Handler<A>,
    lasts: &[u8],
) -> Result<Moved, Memory> {
    let mut text = vec![in alloc; 0u8; 99]?;
    for place in 0..text.len() {
        text[place] = byte_of_snapshots(place, lasts);
    }
    let (_taken, moved) = handler.datagram_with_moves(alloc, Feed::S, text.as_slice())?;
    Ok(moved)
}

/// Each of these packets moves nothing.
fn none_moves<A: Allocator + Copy, T: Abort>(
    rt: &T,
    alloc: A,
    handler: &mut Handler<A>,
    numbers: &[u8],
) -> Result<(), Memory> {
    for number in numbers {
        assert_eq!(rt; packet_moves(alloc, handler, *number)?, NOTHING);
    }
    Ok(())
}

/// Checks a loss, which comes once, and then a jump. With a window of four places packet 6 gives packet 2 up. Packet 7
/// is the highest, so that each snapshot must include packet 3, and recovery goes on after the least of them.
fn loses_and_then_jumps<A: Allocator + Copy, T: Abort>(
    rt: &T,
    alloc: A,
    handler: &mut Handler<A>,
) -> Result<(), Memory> {
    none_moves(rt, alloc, handler, &[1, 1, 5])?;
    let lost = Moved {
        loss: loss(2, 6),
        jump: None,
    };
    assert_eq!(rt; packet_moves(alloc, handler, 6)?, lost);
    none_moves(rt, alloc, handler, &[6, 7])?;
    assert_eq!(rt; snapshots_move(alloc, handler, &[2, 4, 4])?, NOTHING);
    let recovered = Moved {
        loss: None,
        jump: jump(2, 4),
    };
    assert_eq!(rt; snapshots_move(alloc, handler, &[3, 4, 4])?, recovered);
    assert_eq!(rt; snapshots_move(alloc, handler, &[3, 4, 4])?, NOTHING);
    none_moves(rt, alloc, handler, &[4, 7])
}

/// Checks a packet that loses and jumps, since snapshots stand ready, and one behind which a datagram of snapshots
/// jumps at its second: the third, which is newer, moves nothing. Packets 4 to 7 have passed before, so that 8 is next.
fn loses_and_jumps_at_once<A: Allocator + Copy, T: Abort>(
    rt: &T,
    alloc: A,
    handler: &mut Handler<A>,
) -> Result<(), Memory> {
    assert_eq!(rt; snapshots_move(alloc, handler, &[9, 9, 10])?, NOTHING);
    none_moves(rt, alloc, handler, &[11])?;
    let both = Moved {
        loss: loss(8, 12),
        jump: jump(8, 10),
    };
    assert_eq!(rt; packet_moves(alloc, handler, 12)?, both);
    let lost = Moved {
        loss: loss(10, 14),
        jump: None,
    };
    assert_eq!(rt; packet_moves(alloc, handler, 14)?, lost);
    let recovered = Moved {
        loss: None,
        jump: jump(10, 11),
    };
    assert_eq!(rt; snapshots_move(alloc, handler, &[11, 12, 20])?, recovered);
    let (_taken, moved) = handler.datagram_with_moves(alloc, Feed::B, b"short")?;
    assert_eq!(rt; moved, NOTHING);
    handler.close()?;
    none_moves(rt, alloc, handler, &[10, 11, 40])
}

/// Checks both, one after the other.
fn loses_and_jumps<A: Allocator + Copy, T: Abort>(
    rt: &T,
    alloc: A,
    handler: &mut Handler<A>,
) -> Result<(), Memory> {
    loses_and_then_jumps(rt, alloc, handler)?;
    loses_and_jumps_at_once(rt, alloc, handler)
}

/// Checks a receiver that joins: it has no loss, and its first jump begins at packet 1.
fn joins<A: Allocator + Copy, T: Abort>(
    rt: &T,
    alloc: A,
    handler: &mut Handler<A>,
) -> Result<(), Memory> {
    none_moves(rt, alloc, handler, &[9])?;
    let joined = Moved {
        loss: None,
        jump: jump(1, 8),
    };
    assert_eq!(rt; snapshots_move(alloc, handler, &[8, 7, 9])?, joined);
    none_moves(rt, alloc, handler, &[8, 9])?;
    let lost = Moved {
        loss: loss(10, 14),
        jump: None,
    };
    assert_eq!(rt; packet_moves(alloc, handler, 14)?, lost);
    Ok(())
}

/// Checks so with a new handler.
fn new_loses_and_jumps<A: Allocator + Copy, T: Abort>(
    rt: &T,
    alloc: A,
    capture: &Capture<A>,
) -> Result<(), Memory>
    requires { AreFit capture.now.instruments }
{
    let mut handler = Handler::new(alloc, capture.instruments(), 4, Start::FromOne)?;
    loses_and_jumps(rt, alloc, &mut handler)
}

#[test]
fn a_handler_tells_each_loss_and_each_jump(rt: HostRuntime) -> Result<(), Fail> {
    let alloc = rt.alloc();
    let Some(capture) = recovery(alloc) else {
        return Err("no capture".into());
    };
    new_loses_and_jumps(&rt, alloc, &capture)?;
    Ok(())
}

/// Checks so with a new handler.
fn new_joins<A: Allocator + Copy, T: Abort>(
    rt: &T,
    alloc: A,
    capture: &Capture<A>,
) -> Result<(), Memory>
    requires { AreFit capture.now.instruments }
{
    let mut handler = Handler::new(alloc, capture.instruments(), 4, Start::Join)?;
    joins(rt, alloc, &mut handler)
}

#[test]
fn a_handler_that_joins_tells_its_first_jump(rt: HostRuntime) -> Result<(), Fail> {
    let alloc = rt.alloc();
    let Some(capture) = recovery(alloc) else {
        return Err("no capture".into());
    };
    new_joins(&rt, alloc, &capture)?;
    Ok(())
}
