//! What three readers hand over in the tests, and the worked text of it.

ghost use Rattle.std.specs.Prelude.{◌≡◌, [], IfOk};
ghost use Rattle.mdp_templates.specs.Instrument.{AreFit};

use crate::batch::Batch;
use arrayvec::{ArrayString, ArrayVec};
use mdp_engine::Event;
use mdp_lanes::{Intake, IntakeReceiver, IntakeSender};
use mdp_templates::{
    Action, Entry, Instrument, InstrumentKind, Kind, Level, Memory, Name, Packet, Snapshot, are_fit,
};
use std::alloc::Allocator;
use std::sync::Wait;
use std::test::Fail;

const NEAR: i32 = 1;

const FAR: i32 = 2;

const SPREAD: i32 = 3;

/// A packet's number, and its entry, which is new at position 1: the security, the kind, the price and the size.
pub type Quote = (u32, i32, Kind, i64, i32);

/// What the reader of A hands over first.
const FIRST: [Quote; 2] = [(1, NEAR, Kind::Bid, 100, 5), (2, FAR, Kind::Offer, 90, 3)];

/// What the reader of B hands over: packet 3 never comes, and with a window of 4 packet 7 gives it up.
const SECOND: [Quote; 2] = [(4, NEAR, Kind::Bid, 101, 2), (7, FAR, Kind::Bid, 80, 1)];

/// What the reader of A hands over last, behind the snapshots, which include packet 3.
const LAST: [Quote; 1] = [(5, NEAR, Kind::Offer, 103, 4)];

/// What all moves of these events show: at packet 4 all three securities are printed, since it is the first event end past their
/// snapshots.
pub const TEXT: &[u8] =
    b"D 1.1 NEAR B 100x5 O\nI 1.1 NEAR B O\nC 1.1 NEAR B 100x5 O\nA 1.1 CAL bid none offer none\nD 2.1 FAR B O 90x3\nI 2.1 FAR B O\nC 2.1 FAR B O 90x3\nA 2.1 CAL bid missing offer none\nJ 3 4\nD 4.1 NEAR B 101x2 100x5 O\nI 4.1 NEAR B O\nC 4.1 NEAR B 101x2 100x5 O\nD 4.1 FAR B O 90x3\nI 4.1 FAR B O\nC 4.1 FAR B O 90x3\nD 4.1 CAL B O\nI 4.1 CAL B O\nC 4.1 CAL B O\nA 4.1 CAL bid missing offer none\nD 5.1 NEAR B 101x2 100x5 O 103x4\nI 5.1 NEAR B O\nC 5.1 NEAR B 101x2 100x5 O 103x4\nA 5.1 CAL bid missing offer none\n";

/// The number that would come next behind all events: packet 7 is there, and 6 is not.
pub const NEXT: u64 = 6;

fn instrument(id: i32, name: &str, kind: InstrumentKind) -> Result<Instrument, Fail> {
    let mut text = ArrayString::new();
    if text.try_push_str(name).is_err() {
        return Err("a long name".into());
    }
    Ok(Instrument {
        id,
        name: Name::new(text),
        kind,
        depth: 10,
    })
}

/// Two legs and their spread.
pub fn listed() -> Result<[Instrument; 3], Fail>
    ensures { IfOk result AreFit }
{
    let spread = InstrumentKind::Calendar {
        leg1: NEAR,
        leg2: FAR,
    };
    let listed = [
        instrument(NEAR, "NEAR", InstrumentKind::Outright)?,
        instrument(FAR, "FAR", InstrumentKind::Outright)?,
        instrument(SPREAD, "CAL", spread)?,
    ];
    if !are_fit(&listed) {
        return Err("unfit".into());
    }
    Ok(listed)
}

/// A packet with one message, which ends its event.
pub fn packet<A: Allocator + Copy>(alloc: A, quote: Quote) -> Result<Event<A>, Memory> {
    let (number, security, kind, price, size) = quote;
    let entry = Entry {
        security,
        kind,
        action: Action::New,
        level: 1,
        price,
        size,
    };
    let mut packet = Packet::new(alloc, number);
    packet.push(&[entry], true)?;
    Ok(Event::Packet(packet))
}

/// A batch of packets.
fn packets<A: Allocator + Copy>(
    alloc: A,
    quotes: &[Quote],
    is_last: bool,
) -> Result<Batch<A>, Memory> {
    let mut events = Vec::new(alloc);
    for quote in quotes {
        events.push(packet(alloc, *quote)?)?;
    }
    Ok(Batch { events, is_last })
}

/// A direct side of one level at most.
fn side(level: Option<Level>) -> ArrayVec<Level, 10> {
    let mut side = ArrayVec::new();
    match level {
        Some(level) => {
            let _ = side.try_push(level);
        }
        None => {}
    }
    side
}

/// A snapshot that includes packet 3.
fn snapshot<A: Allocator>(
    alloc: A,
    security: i32,
    bid: Option<Level>,
    offer: Option<Level>,
) -> Result<Event<A>, Memory> {
    let snapshot = Snapshot::new(
        security,
        3,
        side(bid),
        side(offer),
        ArrayVec::new(),
        ArrayVec::new(),
    );
    Event::snapshot(alloc, snapshot)
}

/// A reader's only batch: the snapshots of all three securities.
pub fn snapshots<A: Allocator + Copy>(alloc: A) -> Result<Batch<A>, Memory> {
    let bid = Level {
        price: 100,
        size: 5,
    };
    let offer = Level { price: 90, size: 3 };
    let mut events = Vec::new(alloc);
    events.push(snapshot(alloc, NEAR, Some(bid), None)?)?;
    events.push(snapshot(alloc, FAR, None, Some(offer))?)?;
    events.push(snapshot(alloc, SPREAD, None, None)?)?;
    Ok(Batch {
        events,
        is_last: true,
    })
}

/// Puts a batch, if the sender has not put its last.
fn put<R: Wait, A: Allocator + Copy>(
    rt: &R,
    sender: &mut IntakeSender<Batch<A>, A>,
    batch: Batch<A>,
) {
    if !sender.ended() {
        sender.put(rt, batch);
    }
}

/// The ends of an intake, the readers' and the arbiter's.
pub type Ends<A> = (
    IntakeSender<Batch<A>, A>,
    IntakeSender<Batch<A>, A>,
    IntakeSender<Batch<A>, A>,
    IntakeReceiver<Batch<A>, A>,
);

/// What the three readers hand over.
#[derive(Clone, Copy)]
pub enum Came {
    /// The events of the worked text.
    Channel,
    /// Packets 1 to 200, each in a batch of its own: more than a lane has room for.
    Many,
}

// Puts the events of the worked text.
fn put_channel<R: Wait, A: Allocator + Copy>(
    rt: &R,
    alloc: A,
    a: &mut IntakeSender<Batch<A>, A>,
    b: &mut IntakeSender<Batch<A>, A>,
    s: &mut IntakeSender<Batch<A>, A>,
) -> Result<(), Memory> {
    put(rt, a, packets(alloc, &FIRST, false)?);
    put(rt, b, packets(alloc, &SECOND, true)?);
    put(rt, s, snapshots(alloc)?);
    put(rt, a, packets(alloc, &LAST, true)?);
    Ok(())
}

// Puts a batch for each of 200 packets as the reader of A, and an empty one as each reader's last.
fn put_many<R: Wait, A: Allocator + Copy>(
    rt: &R,
    alloc: A,
    a: &mut IntakeSender<Batch<A>, A>,
    b: &mut IntakeSender<Batch<A>, A>,
    s: &mut IntakeSender<Batch<A>, A>,
) -> Result<(), Memory> {
    for number in 1..201u32 {
        let quote = (number, NEAR, Kind::Bid, 100, 5);
        put(rt, a, packets(alloc, &[quote], false)?);
    }
    put(rt, a, packets(alloc, &[], true)?);
    put(rt, b, packets(alloc, &[], true)?);
    put(rt, s, packets(alloc, &[], true)?);
    Ok(())
}

/// An intake into which the readers have put all that they hand over.
pub fn handed_over<R: Wait, A: Allocator + Copy>(
    rt: &R,
    alloc: A,
    came: Came,
) -> Result<Ends<A>, Memory>
    ensures { IfOk result (λ ends. ends.3.taken ≡ []) }
{
    let (mut a, mut b, mut s, receiver) = Intake::new(alloc, 256)?;
    let handed = match came {
        Came::Channel => put_channel(rt, alloc, &mut a, &mut b, &mut s),
        Came::Many => put_many(rt, alloc, &mut a, &mut b, &mut s),
    };
    handed?;
    Ok((a, b, s, receiver))
}
