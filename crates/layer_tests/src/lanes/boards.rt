//! A board: its rows step by step, two readers in threads beside the publisher, and each allocation refused in turn.

ghost use Rattle.std.specs.Prelude.{◌≡◌, IfSome};
ghost use Rattle.mdp_lanes.specs.Boards.{IsFreshReader};

use mdp_lanes::{Board, Publisher, Reader, Row};
use mdp_quotes::Total;
use refusing::Refusing;
use std::alloc::Allocator;
use std::process::Abort;
use std::sync::Wait;
use std::test::Fail;
use std::thread::{Threads, join};

/// The rows of both slots.
type Pair = [Row; 2];

const NEVER: Pair = [Row::Never; 2];

const STALE: Pair = [Row::Stale; 2];

const FAULTY: Row = Row::Fault {
    packet: 6,
    message: 1,
};

/// The row of a book whose best bid is 9 at 101, and which has no offer.
fn top(message: u64) -> Row {
    let bid = Total {
        price: 101,
        size: 9,
    };
    Row::Top {
        packet: 5,
        message,
        bid: Some(bid),
        offer: None,
    }
}

/// The ends of a board with two slots and two readers.
fn board<R: Wait, A: Allocator + Copy>(
    rt: &R,
    alloc: A,
) -> Option<(Publisher<A>, Reader<A>, Reader<A>)>
    ensures { IfSome result (λ ends. IsFreshReader ends.0.board 2 ends.1 × IsFreshReader ends.0.board 2 ends.2) }
{
    let Ok((publisher, mut readers)) = Board::new(alloc, rt, 2, 2) else {
        return None;
    };
    let second = readers.pop();
    let first = readers.pop();
    if let (Some(first), Some(second)) = (first, second) {
        return Some((publisher, first, second));
    }
    publisher.end(rt);
    None
}

/// What a reader that was told of all shows of both slots, with the length of the front.
fn show<A: Allocator + Copy>(
    publisher: &mut Publisher<A>,
    reader: &mut Reader<A>,
) -> Option<(u64, Pair)>
    requires board { reader.old.board ≡ publisher.old.board }
    requires slots { reader.old.slots ≡ 2 }
    ensures publisher { publisher.new ≡ publisher.old }
    ensures reader { (reader.new.board ≡ reader.old.board) × (reader.new.slots ≡ reader.old.slots) }
{
    reader.learn(publisher.tell());
    let mut rows = NEVER;
    let length = reader.read(&[0, 1], &mut rows)?;
    Some((length, rows))
}

/// Publishes an event of these rows, and sees what a reader shows then.
fn publish_event<R: Wait + Abort, A: Allocator + Copy>(
    rt: &R,
    publisher: &mut Publisher<A>,
    reader: &mut Reader<A>,
    rows: &[(u16, Row)],
    shown: (u64, Pair),
)
    requires board { reader.old.board ≡ publisher.old.board }
    requires slots { reader.old.slots ≡ 2 }
    ensures publisher { publisher.new.board ≡ publisher.old.board }
    ensures reader { (reader.new.board ≡ reader.old.board) × (reader.new.slots ≡ reader.old.slots) }
{
    let _ = publisher.event(rt, rows);
    assert_eq!(rt; show(publisher, reader), Some(shown));
}

/// Publishes a jump, and sees that a reader shows no row of before.
fn publish_jump<R: Wait + Abort, A: Allocator + Copy>(
    rt: &R,
    publisher: &mut Publisher<A>,
    reader: &mut Reader<A>,
    length: u64,
)
    requires board { reader.old.board ≡ publisher.old.board }
    requires slots { reader.old.slots ≡ 2 }
    ensures publisher { publisher.new.board ≡ publisher.old.board }
    ensures reader { (reader.new.board ≡ reader.old.board) × (reader.new.slots ≡ reader.old.slots) }
{
    let _ = publisher.jump(rt);
    assert_eq!(rt; show(publisher, reader), Some((length, STALE)));
}

/// Publishes step by step, and sees each time what a reader shows.
fn publish_steps<R: Wait + Abort, A: Allocator + Copy>(
    rt: &R,
    publisher: &mut Publisher<A>,
    reader: &mut Reader<A>,
)
    requires board { reader.old.board ≡ publisher.old.board }
    requires slots { reader.old.slots ≡ 2 }
    ensures { (publisher.new.board ≡ publisher.old.board) × (reader.new.board ≡ reader.old.board) }
{
    let first = top(4);
    let last = top(7);
    assert_eq!(rt; show(publisher, reader), Some((0, NEVER)));
    publish_event(
        rt,
        publisher,
        reader,
        &[(0, first)],
        (1, [first, Row::Never]),
    );
    publish_jump(rt, publisher, reader, 2);
    publish_event(rt, publisher, reader, &[], (3, STALE));
    let rows = [(1, FAULTY), (1, last), (2, FAULTY)];
    publish_event(rt, publisher, reader, &rows, (4, [Row::Stale, last]));
    publish_event(rt, publisher, reader, &[(0, FAULTY)], (5, [FAULTY, last]));
}

#[test]
fn a_reader_shows_each_step(rt: HostRuntime) -> Result<(), Fail> {
    let (mut publisher, mut reader, mut other) = board(&rt, rt.alloc()).ok_or("a board")?;
    let opening = publisher.tell();
    publish_steps(&rt, &mut publisher, &mut reader);
    assert!(rt; publisher.tell().covers(&reader));
    assert!(rt; !opening.covers(&reader));
    let mut one = [Row::Never];
    assert_eq!(rt; other.read(&[1], &mut one), Some(5));
    assert_eq!(rt; one, [top(7)]);
    assert_eq!(rt; other.read(&[], &mut []), Some(5));
    let rows = publisher.end(&rt);
    assert_eq!(rt; rows.as_slice(), [FAULTY, top(7)].as_slice());
    assert_eq!(rt; other.read(&[0], &mut one), None);
    assert_eq!(rt; one, [top(7)]);
    Ok(())
}

/// How many events are published.
const EVENTS: u64 = 1000;

/// How many of them are published before the threads run, and told to one reader.
const TOLD: u64 = 10;

/// Publishes the events of these numbers, each of which gives both slots one row.
fn publish<R: Wait, A: Allocator + Copy>(
    rt: &R,
    publisher: &mut Publisher<A>,
    from: u64,
    to: u64,
) -> bool
    ensures { publisher.new.board ≡ publisher.old.board }
{
    for message in from..to {
        let row = top(message);
        if publisher.event(rt, &[(0, row), (1, row)]).is_err() {
            return false;
        }
    }
    true
}

/// The row that so many events leave.
fn row_after(events: u64) -> Row {
    match events.checked_sub(1) {
        Some(message) => top(message),
        None => Row::Never,
    }
}

/// Reads both slots until all events are seen. Answers whether each read gave both slots the row of its last event, the first showed
/// `least` events at least, and none less than the one before.
fn watch<R: Wait, A: Allocator + Copy>(rt: &R, mut reader: Reader<A>, mut least: u64) -> bool
    requires { reader.slots ≡ 2 }
{
    for _ in rt.forever() {
        let mut rows = NEVER;
        let Some(length) = reader.read(&[0, 1], &mut rows) else {
            return false;
        };
        if length < least || rows != [row_after(length); 2] {
            return false;
        }
        if length == EVENTS {
            return true;
        }
        least = length;
    }
    unreachable!()
}

/// Publishes in one thread while two others read.
fn publish_beside_readers<R: Threads + Wait + Sync, A: Allocator + Copy + Send + Sync>(
    rt: &R,
    publisher: &mut Publisher<A>,
    first: Reader<A>,
    second: Reader<A>,
) -> (bool, (bool, bool))
    requires first { first.slots ≡ 2 }
    requires second { second.slots ≡ 2 }
{
    join(
        rt,
        || publish(rt, publisher, TOLD, EVENTS),
        || -> (bool, bool)
            requires first { first.slots ≡ 2 }
            requires second { second.slots ≡ 2 }
        {
            join(
                rt,
                || -> bool
                    requires { first.slots ≡ 2 }
                { watch(rt, first, TOLD) },
                || -> bool
                    requires { second.slots ≡ 2 }
                { watch(rt, second, 0) },
            )
        },
    )
}

#[test]
fn two_readers_see_whole_events_and_never_less(rt: HostRuntime) -> Result<(), Fail> {
    let (mut publisher, mut first, second) = board(&rt, rt.alloc()).ok_or("a board")?;
    let begun = publish(&rt, &mut publisher, 0, TOLD);
    first.learn(publisher.tell());
    let all = publish_beside_readers(&rt, &mut publisher, first, second);
    publisher.end(&rt);
    assert!(rt; begun);
    assert_eq!(rt; all, (true, (true, true)));
    Ok(())
}

/// What memory was refused for.
#[derive(Clone, Copy, Debug, PartialEq, Eq)]
enum Refused {
    Board,
    Event,
    Nothing,
}

/// Publishes an event, and again where memory was refused for it. Sees that a reader shows none of it before.
fn publish_twice<R: Wait + Abort, A: Allocator + Copy>(
    rt: &R,
    publisher: &mut Publisher<A>,
    reader: &mut Reader<A>,
) -> Refused
    requires board { reader.old.board ≡ publisher.old.board }
    requires slots { reader.old.slots ≡ 2 }
{
    let rows = [(0, top(1)), (1, top(1))];
    let refused = publisher.event(rt, &rows).is_err();
    if refused {
        assert_eq!(rt; show(publisher, reader), Some((0, NEVER)));
        assert!(rt; publisher.event(rt, &rows).is_ok());
    }
    assert_eq!(rt; show(publisher, reader), Some((1, [top(1); 2])));
    assert!(rt; publisher.jump(rt).is_ok());
    assert_eq!(rt; show(publisher, reader), Some((2, STALE)));
    if refused {
        Refused::Event
    } else {
        Refused::Nothing
    }
}

/// Makes a board with this allocator, and publishes on it.
fn make_and_publish<R: Wait + Abort, A: Allocator + Copy>(rt: &R, heap: A) -> Refused {
    let Some((mut publisher, mut reader, _)) = board(rt, heap) else {
        return Refused::Board;
    };
    let refused = publish_twice(rt, &mut publisher, &mut reader);
    publisher.end(rt);
    refused
}

#[test]
fn a_board_or_an_event_is_refused_memory(rt: HostRuntime) {
    let mut boards = 0u64;
    let mut events = 0u64;
    for number in 1..100u64 {
        let heap = Refusing::new(rt.alloc(), number);
        let refused = make_and_publish(&rt, &heap);
        assert!(rt; heap.has_refused() == (refused != Refused::Nothing));
        match refused {
            Refused::Board => boards = boards.saturating_add(1),
            Refused::Event => events = events.saturating_add(1),
            Refused::Nothing => break,
        }
    }
    assert!(rt; 0 < boards && boards < 90);
    assert_eq!(rt; events, 1);
}
