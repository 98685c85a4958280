//! An engine over a map window of four places, with one listed security: the lines that it owes. (Each allocation of an
//! engine is refused in turn in the program's own tests.)

ghost use Rattle.std.specs.Prelude.{◌≡◌, ◌∷◌, [], IfOk};
ghost use Rattle.mdp_templates.specs.Instrument.{AreFit};

use arrayvec::{ArrayString, ArrayVec};
use mdp_arbiter::Start;
use mdp_engine::{Engine, Event, replay};
use mdp_templates::{
    Action, Entry, Instrument, InstrumentKind, Kind, Level, Memory, Name, Packet, Snapshot, are_fit,
};
use mdp_window::MapWindow;
use std::alloc::Global;
use std::process::Abort;
use std::test::Fail;

type OverMap = Engine<Global, MapWindow<Packet<Global>, Global>>;

/// What comes on the channel, all of it for the security of id 1.
#[derive(Clone, Copy)]
enum Came {
    /// A packet of this number, with one message that ends its event and has one entry.
    Entry(u32, Kind, Action, u8, Level),
    /// A snapshot that includes this packet, with two bids and no offer.
    Snapshot(u32, [Level; 2]),
    Close,
}

const NO_LEVEL: Level = Level { price: 0, size: 0 };

const FIRST: Came = Came::Entry(
    1,
    Kind::Bid,
    Action::New,
    1,
    Level {
        price: 100,
        size: 5,
    },
);

const SECOND: Came = Came::Entry(
    2,
    Kind::Bid,
    Action::New,
    1,
    Level {
        price: 101,
        size: 2,
    },
);

const THIRD: Came = Came::Entry(
    3,
    Kind::Offer,
    Action::New,
    1,
    Level {
        price: 103,
        size: 4,
    },
);

const FOURTH: Came = Came::Entry(
    4,
    Kind::Bid,
    Action::Change,
    1,
    Level {
        price: 101,
        size: 9,
    },
);

const FIFTH: Came = Came::Entry(5, Kind::Bid, Action::Delete, 2, NO_LEVEL);

const BEHIND_SECOND: Came = Came::Snapshot(
    2,
    [
        Level {
            price: 101,
            size: 2,
        },
        Level {
            price: 100,
            size: 5,
        },
    ],
);

/// An event, and behind it the number of the packet that passes next, whether the receiver is lost, and the lines
/// that are owed since the event before.
type Row = (Came, u64, bool, &'static [u8]);

/// Packet 3 comes before packet 2.
const REORDERED: [Row; 3] = [
    (
        FIRST,
        2,
        false,
        b"D 1.1 NEAR B 100x5 O\nI 1.1 NEAR B O\nC 1.1 NEAR B 100x5 O\n",
    ),
    (THIRD, 2, false, b""),
    (
        SECOND,
        4,
        false,
        b"D 2.1 NEAR B 101x2 100x5 O\nI 2.1 NEAR B O\nC 2.1 NEAR B 101x2 100x5 O\nD 3.1 NEAR B 101x2 100x5 O 103x4\nI 3.1 NEAR B O\nC 3.1 NEAR B 101x2 100x5 O 103x4\n",
    ),
];

/// Packet 1 never comes, and a snapshot stands for it.
const RECOVERED: [Row; 5] = [
    (SECOND, 1, false, b""),
    (THIRD, 1, false, b""),
    (FOURTH, 1, false, b""),
    (FIFTH, 1, true, b""),
    (
        BEHIND_SECOND,
        6,
        false,
        b"J 1 3\nD 3.1 NEAR B 101x2 100x5 O 103x4\nI 3.1 NEAR B O\nC 3.1 NEAR B 101x2 100x5 O 103x4\nD 4.1 NEAR B 101x9 100x5 O 103x4\nI 4.1 NEAR B O\nC 4.1 NEAR B 101x9 100x5 O 103x4\nD 5.1 NEAR B 101x9 O 103x4\nI 5.1 NEAR B O\nC 5.1 NEAR B 101x9 O 103x4\n",
    ),
];

/// Behind a close no packet passes.
const CLOSED: [Row; 3] = [
    (
        FIRST,
        2,
        false,
        b"D 1.1 NEAR B 100x5 O\nI 1.1 NEAR B O\nC 1.1 NEAR B 100x5 O\n",
    ),
    (Came::Close, 2, false, b""),
    (SECOND, 2, false, b""),
];

/// The one listed security.
fn near() -> Result<[Instrument; 1], Fail>
    ensures { IfOk result AreFit }
{
    let mut text = ArrayString::new();
    if text.try_push_str("NEAR").is_err() {
        return Err("a long name".into());
    }
    let listed = [Instrument {
        id: 1,
        name: Name::new(text),
        kind: InstrumentKind::Outright,
        depth: 10,
    }];
    if !are_fit(&listed) {
        return Err("unfit".into());
    }
    Ok(listed)
}

/// A snapshot of the direct bids alone.
fn snapshot(last: u32, levels: [Level; 2]) -> Snapshot {
    let mut bids = ArrayVec::new();
    for level in levels {
        if bids.try_push(level).is_err() {
            break;
        }
    }
    Snapshot::new(
        1,
        last,
        bids,
        ArrayVec::new(),
        ArrayVec::new(),
        ArrayVec::new(),
    )
}

/// A packet with one message, which ends its event and has this entry.
fn packet(alloc: Global, number: u32, entry: Entry) -> Result<Packet<Global>, Memory> {
    let mut packet = Packet::new(alloc, number);
    packet.push(&[entry], true)?;
    Ok(packet)
}

fn event(alloc: Global, came: Came) -> Result<Event<Global>, Memory> {
    match came {
        Came::Entry(number, kind, action, level, Level { price, size }) => {
            let entry = Entry {
                security: 1,
                kind,
                action,
                level,
                price,
                size,
            };
            Ok(Event::Packet(packet(alloc, number, entry)?))
        }
        Came::Snapshot(last, levels) => Event::snapshot(alloc, snapshot(last, levels)),
        Came::Close => Ok(Event::Close),
    }
}

/// The events of a table.
fn events_of(alloc: Global, rows: &[Row]) -> Result<Vec<Event<Global>>, Memory> {
    let mut events = Vec::with_capacity(alloc, rows.len())?;
    for row in rows {
        events.push(event(alloc, row.0)?)?;
    }
    Ok(events)
}

/// The lines of a table.
fn text_of(alloc: Global, rows: &[Row]) -> Result<Vec<u8>, Memory> {
    let mut text = Vec::new(alloc);
    for row in rows {
        text.extend_from_slice(row.3)?;
    }
    Ok(text)
}

/// Replays a table.
fn replays(rt: &impl Abort, alloc: Global, rows: &[Row]) -> Result<(), Fail> {
    let events = events_of(alloc, rows)?;
    let text = replay(
        alloc,
        &events,
        &near()?,
        MapWindow::new(alloc, 4),
        Start::FromOne,
    )?;
    assert_eq!(rt; text.as_slice(), text_of(alloc, rows)?.as_slice());
    Ok(())
}

/// Hands an engine one event, and sees what number is next, whether it is lost, and which lines are owed then.
fn follow(rt: &impl Abort, alloc: Global, engine: &mut OverMap, row: &Row) -> Result<(), Fail> {
    let (came, next, lost, lines) = row;
    engine.on(event(alloc, *came)?)?;
    assert_eq!(rt; engine.next(), *next);
    assert_eq!(rt; engine.lost(), *lost);
    let mut out = Vec::from_slice(alloc, b"held: ")?;
    engine.drain_lines(&mut out)?;
    assert_eq!(rt; &out[..6], b"held: ".as_slice());
    assert_eq!(rt; &out[6..], *lines);
    Ok(())
}

/// Hands an engine the events of a table one by one.
fn follow_all(
    rt: &impl Abort,
    alloc: Global,
    engine: &mut OverMap,
    rows: &[Row],
) -> Result<(), Fail> {
    for row in rows {
        follow(rt, alloc, engine, row)?;
    }
    Ok(())
}

/// Follows a table from a new engine.
fn follows(rt: &impl Abort, alloc: Global, rows: &[Row]) -> Result<(), Fail> {
    let mut engine = Engine::new(alloc, &near()?, MapWindow::new(alloc, 4), Start::FromOne)?;
    follow_all(rt, alloc, &mut engine, rows)
}

#[test]
fn replays_each_table(rt: HostRuntime) -> Result<(), Fail> {
    let alloc = rt.alloc();
    replays(&rt, alloc, &[])?;
    replays(&rt, alloc, &REORDERED)?;
    replays(&rt, alloc, &RECOVERED)?;
    replays(&rt, alloc, &CLOSED)?;
    Ok(())
}

#[test]
fn owes_the_lines_of_each_event_behind_it(rt: HostRuntime) -> Result<(), Fail> {
    let alloc = rt.alloc();
    follows(&rt, alloc, &REORDERED)?;
    follows(&rt, alloc, &RECOVERED)?;
    follows(&rt, alloc, &CLOSED)?;
    Ok(())
}

/// Hands an engine the events of a table, and sees that it lends all their lines, and none once they are cleared.
fn lends(rt: &impl Abort, alloc: Global, engine: &mut OverMap, rows: &[Row]) -> Result<(), Fail> {
    for row in rows {
        engine.on(event(alloc, row.0)?)?;
    }
    assert_eq!(rt; engine.lines(), text_of(alloc, rows)?.as_slice());
    engine.clear_lines();
    assert!(rt; engine.lines().is_empty());
    Ok(())
}

/// Does so with both parts of a table.
fn lends_two_parts(rt: &impl Abort, alloc: Global, engine: &mut OverMap) -> Result<(), Fail> {
    lends(rt, alloc, engine, &REORDERED[..2])?;
    lends(rt, alloc, engine, &REORDERED[2..])
}

#[test]
fn lends_its_lines_until_they_are_cleared(rt: HostRuntime) -> Result<(), Fail> {
    let alloc = rt.alloc();
    let mut engine = Engine::new(alloc, &near()?, MapWindow::new(alloc, 4), Start::FromOne)?;
    lends_two_parts(&rt, alloc, &mut engine)
}
