//! A process that follows a channel by a handler, as the manual shows it.

ghost use Rattle.mdp_templates.specs.Instrument.{AreFit};

use crate::receiver::recovery;
use mdp_arbiter::Start;
use mdp_capture::{Capture, Record};
use mdp_quotes::{TopOfBook, Total};
use mdp_receiver::{Handler, Jump, Loss, Moved, Taken};
use mdp_sbe::Refusal;
use mdp_templates::{Feed, Memory};
use std::alloc::Allocator;
use std::test::Fail;
use worked_runs::RECOVERY_TEXT;

/// What a process keeps of a channel: what was lost and refused, the best levels that it heard of, and the lines.
#[derive(Drop)]
struct Followed<A: Allocator> {
    moves: Vec<Moved, A>,
    refused: Vec<Refusal, A>,
    quotes: Vec<(usize, Option<TopOfBook>), A>,
    text: Vec<u8, A>,
}

/// Notes the best levels of the book at a slot, where it is the one right before the packet that comes next.
fn note<A: Allocator + Copy>(
    handler: &Handler<A>,
    slot: usize,
    followed: &mut Followed<A>,
) -> Result<(), Memory> {
    if handler.is_current(slot) {
        followed.quotes.push((slot, handler.best(slot)))?;
    }
    Ok(())
}

/// Notes the books that were printed since lines were cleared.
fn note_changed<A: Allocator + Copy>(
    handler: &Handler<A>,
    followed: &mut Followed<A>,
) -> Result<(), Memory> {
    let mut from = 0;
    while let Some(slot) = handler.changed().next_from(from) {
        note(handler, slot, followed)?;
        from = slot + 1;
    }
    Ok(())
}

/// Notes all books, since a jump replaced them.
fn note_all<A: Allocator + Copy>(
    handler: &Handler<A>,
    followed: &mut Followed<A>,
) -> Result<(), Memory> {
    for slot in 0..handler.changed().len() {
        note(handler, slot, followed)?;
    }
    Ok(())
}

/// Takes a datagram as it comes, or a close, notes what it moved and which books it changed, and hands on the lines.
fn take<A: Allocator + Copy>(
    alloc: A,
    handler: &mut Handler<A>,
    feed: Feed,
    datagram: Option<&[u8]>,
    followed: &mut Followed<A>,
) -> Result<(), Memory> {
    let Some(bytes) = datagram else {
        return handler.close();
    };
    let (taken, moved) = handler.datagram_with_moves(alloc, feed, bytes)?;
    if let Taken::Refused(refusal) = taken {
        followed.refused.push(refusal)?;
    }
    if moved.loss.is_some() || moved.jump.is_some() {
        followed.moves.push(moved)?;
    }
    if moved.jump.is_some() {
        note_all(handler, followed)?;
    } else {
        note_changed(handler, followed)?;
    }
    followed.text.extend_from_slice(handler.lines())?;
    handler.clear_lines();
    Ok(())
}

/// Takes what came on a feed.
fn take_all<A: Allocator + Copy>(
    alloc: A,
    handler: &mut Handler<A>,
    feed: Feed,
    records: &[Record<A>],
    followed: &mut Followed<A>,
) -> Result<(), Memory> {
    for record in records {
        take(alloc, handler, feed, record.bytes(), followed)?;
    }
    Ok(())
}

/// Takes what came on all feeds of a channel, one feed after another, and then its end.
fn take_channel<A: Allocator + Copy>(
    alloc: A,
    handler: &mut Handler<A>,
    capture: &Capture<A>,
    followed: &mut Followed<A>,
) -> Result<(), Memory> {
    take_all(alloc, handler, Feed::A, capture.a(), followed)?;
    take_all(alloc, handler, Feed::B, capture.b(), followed)?;
    take_all(alloc, handler, Feed::S, capture.s(), followed)?;
    handler.put_end(&mut followed.text)
}

/// Takes the channel of a capture by a new handler.
fn take_by_new<A: Allocator + Copy>(
    alloc: A,
    capture: &Capture<A>,
    followed: &mut Followed<A>,
) -> Result<(), Memory>
    requires { AreFit capture.now.instruments }
{
    let mut handler = Handler::new(alloc, capture.instruments(), 4, Start::FromOne)?;
    take_channel(alloc, &mut handler, capture, followed)
}

/// Follows the channel of a capture.
fn follow<A: Allocator + Copy>(alloc: A, capture: &Capture<A>) -> Result<Followed<A>, Memory>
    requires { AreFit capture.now.instruments }
{
    let mut followed = Followed {
        moves: Vec::new(alloc),
        refused: Vec::new(alloc),
        quotes: Vec::new(alloc),
        text: Vec::new(alloc),
    };
    take_by_new(alloc, capture, &mut followed)?;
    Ok(followed)
}

#[test]
fn a_process_that_follows_a_channel_is_told_all(rt: HostRuntime) -> Result<(), Fail> {
    let alloc = rt.alloc();
    let Some(capture) = recovery(alloc) else {
        return Err("no capture".into());
    };
    let followed = follow(alloc, &capture)?;
    assert_eq!(rt; followed.text.as_slice(), RECOVERY_TEXT);
    assert!(rt; followed.refused.is_empty());
    let lost = Moved {
        loss: Some(Loss {
            next: 1,
            highest: 5,
        }),
        jump: None,
    };
    let found = Moved {
        loss: None,
        jump: Some(Jump { old: 1, new: 3 }),
    };
    assert_eq!(rt; followed.moves.as_slice(), [lost, found].as_slice());
    let near = TopOfBook {
        bid: Some(Total {
            price: 101,
            size: 9,
        }),
        offer: Some(Total {
            price: 103,
            size: 4,
        }),
    };
    let far = TopOfBook {
        bid: None,
        offer: Some(Total { price: 90, size: 3 }),
    };
    let calendar = TopOfBook {
        bid: None,
        offer: None,
    };
    let quotes = [(0, Some(near)), (1, Some(far)), (2, Some(calendar))];
    assert_eq!(rt; followed.quotes.as_slice(), quotes.as_slice());
    Ok(())
}
