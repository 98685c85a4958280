//! What comes on the channel of the tests, and the worked text of it.

ghost use Rattle.std.specs.Prelude.{IfOk};
ghost use Rattle.mdp_templates.specs.Instrument.{AreFit};

use arrayvec::{ArrayString, ArrayVec};
use mdp_engine::Event;
use mdp_templates::{
    Action, Entry, Instrument, InstrumentKind, Kind, Level, Memory, Name, Packet, Snapshot, are_fit,
};
use std::alloc::Allocator;
use std::test::Fail;

const NEAR: i32 = 1;

const FAR: i32 = 2;

/// An entry of a packet: the security, the kind, the action, the position, the price and the size.
pub type Row = (i32, Kind, Action, u8, i64, i32);

const NEAR_BIDS: [Level; 2] = [
    Level {
        price: 101,
        size: 2,
    },
    Level {
        price: 100,
        size: 5,
    },
];

const FAR_OFFERS: [Level; 1] = [Level { price: 90, size: 3 }];

/// What comes on the channel.
#[derive(Clone, Copy)]
pub enum Came {
    /// A packet of this number with one message, which ends its event and has the one entry or both.
    Packet(u32, Row, Option<Row>),
    /// A snapshot of NEAR that includes packet 2, with two bids.
    Near,
    /// A snapshot of FAR that includes packet 4, with one offer.
    Far,
    /// A snapshot of CAL that includes packet 3, with no level.
    Spread,
}

const FIRST: Came = Came::Packet(1, (NEAR, Kind::Bid, Action::New, 1, 100, 5), None);

const SECOND: Came = Came::Packet(2, (NEAR, Kind::Bid, Action::New, 1, 101, 2), None);

const THIRD: Came = Came::Packet(3, (NEAR, Kind::Offer, Action::New, 1, 103, 4), None);

const FOURTH: Came = Came::Packet(
    4,
    (NEAR, Kind::Bid, Action::Change, 1, 101, 9),
    Some((FAR, Kind::Offer, Action::New, 1, 90, 3)),
);

const FIFTH: Came = Came::Packet(5, (NEAR, Kind::Bid, Action::Delete, 2, 0, 0), None);

/// Two legs and their spread.
pub const PLAIN: [Came; 5] = [FIRST, SECOND, THIRD, FOURTH, FIFTH];

pub const PLAIN_TEXT: &[u8] =
    b"D 1.1 NEAR B 100x5 O\nI 1.1 NEAR B O\nC 1.1 NEAR B 100x5 O\nA 1.1 CAL bid none offer none\nD 2.1 NEAR B 101x2 100x5 O\nI 2.1 NEAR B O\nC 2.1 NEAR B 101x2 100x5 O\nA 2.1 CAL bid none offer none\nD 3.1 NEAR B 101x2 100x5 O 103x4\nI 3.1 NEAR B O\nC 3.1 NEAR B 101x2 100x5 O 103x4\nA 3.1 CAL bid none offer none\nD 4.1 NEAR B 101x9 100x5 O 103x4\nI 4.1 NEAR B O\nC 4.1 NEAR B 101x9 100x5 O 103x4\nD 4.1 FAR B O 90x3\nI 4.1 FAR B O\nC 4.1 FAR B O 90x3\nA 4.1 CAL bid missing offer none\nD 5.1 NEAR B 101x9 O 103x4\nI 5.1 NEAR B O\nC 5.1 NEAR B 101x9 O 103x4\nA 5.1 CAL bid missing offer none\n";

/// Packet 1 never comes, and three securities come back by snapshots of different numbers, each from its own on.
pub const RECOVERED: [Came; 7] = [
    SECOND,
    THIRD,
    FOURTH,
    FIFTH,
    Came::Near,
    Came::Far,
    Came::Spread,
];

pub const RECOVERED_TEXT: &[u8] =
    b"J 1 3\nD 3.1 NEAR B 101x2 100x5 O 103x4\nI 3.1 NEAR B O\nC 3.1 NEAR B 101x2 100x5 O 103x4\nD 4.1 NEAR B 101x9 100x5 O 103x4\nI 4.1 NEAR B O\nC 4.1 NEAR B 101x9 100x5 O 103x4\nD 4.1 CAL B O\nI 4.1 CAL B O\nC 4.1 CAL B O\nD 5.1 NEAR B 101x9 O 103x4\nI 5.1 NEAR B O\nC 5.1 NEAR B 101x9 O 103x4\nD 5.1 FAR B O 90x3\nI 5.1 FAR B O\nC 5.1 FAR B O 90x3\nA 5.1 CAL bid missing offer none\n";

/// An event end that shows nothing, since its entry is of a security that isn't listed; a book that is faulty at once, and stays so; and
/// beside it one that isn't.
pub const FAULTY: [Came; 3] = [
    Came::Packet(1, (9, Kind::Bid, Action::New, 1, 100, 5), None),
    Came::Packet(2, (NEAR, Kind::Bid, Action::Delete, 1, 0, 0), None),
    Came::Packet(
        3,
        (FAR, Kind::Offer, Action::New, 1, 90, 3),
        Some((NEAR, Kind::Bid, Action::New, 1, 100, 5)),
    ),
];

pub const FAULTY_TEXT: &[u8] =
    b"F 2.1 NEAR 2.1.1\nF 3.1 NEAR 2.1.1\nD 3.1 FAR B O 90x3\nI 3.1 FAR B O\nC 3.1 FAR B O 90x3\n";

fn instrument(id: i32, name: &str, kind: InstrumentKind) -> Result<Instrument, Fail> {
    let mut text = ArrayString::new();
    if text.try_push_str(name).is_err() {
        return Err("a long name".into());
    }
    Ok(Instrument {
        id,
        name: Name::new(text),
        kind,
        depth: 10,
    })
}

/// The three listed securities.
pub fn listed() -> Result<[Instrument; 3], Fail>
    ensures { IfOk result AreFit }
{
    let spread = InstrumentKind::Calendar {
        leg1: NEAR,
        leg2: FAR,
    };
    let listed = [
        instrument(NEAR, "NEAR", InstrumentKind::Outright)?,
        instrument(FAR, "FAR", InstrumentKind::Outright)?,
        instrument(3, "CAL", spread)?,
    ];
    if !are_fit(&listed) {
        return Err("unfit".into());
    }
    Ok(listed)
}

/// The levels of a direct side.
fn side(levels: &[Level]) -> ArrayVec<Level, 10> {
    let mut side = ArrayVec::new();
    for level in levels {
        if side.try_push(*level).is_err() {
            break;
        }
    }
    side
}

/// A snapshot of the direct sides alone.
fn snapshot(security: i32, last: u32, bids: &[Level], offers: &[Level]) -> Snapshot {
    Snapshot::new(
        security,
        last,
        side(bids),
        side(offers),
        ArrayVec::new(),
        ArrayVec::new(),
    )
}

fn entry(row: Row) -> Entry {
    let (security, kind, action, level, price, size) = row;
    Entry {
        security,
        kind,
        action,
        level,
        price,
        size,
    }
}

/// A packet with one message, which ends its event.
fn packet<A: Allocator + Copy>(
    alloc: A,
    number: u32,
    first: Row,
    second: Option<Row>,
) -> Result<Packet<A>, Memory> {
    let mut packet = Packet::new(alloc, number);
    match second {
        Some(second) => packet.push(&[entry(first), entry(second)], true)?,
        None => packet.push(&[entry(first)], true)?,
    }
    Ok(packet)
}

fn event<A: Allocator + Copy>(alloc: A, came: Came) -> Result<Event<A>, Memory> {
    match came {
        Came::Packet(number, first, second) => {
            Ok(Event::Packet(packet(alloc, number, first, second)?))
        }
        Came::Near => Event::snapshot(alloc, snapshot(NEAR, 2, &NEAR_BIDS, &[])),
        Came::Far => Event::snapshot(alloc, snapshot(FAR, 4, &[], &FAR_OFFERS)),
        Came::Spread => Event::snapshot(alloc, snapshot(3, 3, &[], &[])),
    }
}

pub fn events_of<A: Allocator + Copy>(alloc: A, came: &[Came]) -> Result<Vec<Event<A>, A>, Memory> {
    let mut events = Vec::new(alloc);
    for one in came {
        events.push(event(alloc, *one)?)?;
    }
    Ok(events)
}
