//! What a board of mdp_lanes with 512 slots costs: a read of three slots beside nothing, the same beside a publisher
//! that never pauses, and an event of two rows beside two readers that never pause.

ghost use Rattle.std.specs.Prelude.{◌≡◌, ◌≤◌, IfSome};

use crate::TURNS;
use mdp_lanes::{Board, Publisher, Reader, Row};
use mdp_quotes::Total;
use std::alloc::{AllocError, Global};
use std::io;
use std::sync::Wait;
use std::sync::atomic::{AtomicBool, Ordering};
use std::thread::{Threads, join};
use std::time::{Clock, Instant};

/// The slots that are read.
const SLOTS: [u16; 3] = [0, 1, 2];

/// What is timed.
#[derive(Clone, Copy)]
pub enum Measure {
    Read,
    ReadBesidePublisher,
    EventBesideReaders,
}

// Makes the rows of an event.
fn rows_of(message: u64) -> [(u16, Row); 2] {
    let level = Some(Total {
        price: 101,
        size: 9,
    });
    let row = Row::Top {
        packet: 1,
        message,
        bid: level,
        offer: level,
    };
    [(0, row), (1, row)]
}

// Makes the ends of a board.
fn board<R: Wait>(
    rt: &R,
    alloc: Global,
) -> Option<(Publisher<Global>, Reader<Global>, Reader<Global>)>
    ensures { IfSome result (λ ends. (ends.1.slots ≡ 512) × (ends.2.slots ≡ 512)) }
{
    let Ok((publisher, mut readers)) = Board::new(alloc, rt, 512, 2) else {
        return None;
    };
    let second = readers.pop();
    let first = readers.pop();
    if let (Some(first), Some(second)) = (first, second) {
        return Some((publisher, first, second));
    }
    publisher.end(rt);
    None
}

// Publishes so many events, and answers how long that took.
fn publish<R: Wait + Clock>(
    rt: &R,
    publisher: &mut Publisher<Global>,
    count: u64,
) -> io::Result<u128> {
    let start = Instant::now(rt)?;
    for message in 0..count {
        publisher
            .event(rt, &rows_of(message))
            .map_err(|_| AllocError)?;
    }
    Ok(start.elapsed(rt)?.as_nanos())
}

// Publishes events until the others are done.
fn publish_until<R: Wait>(rt: &R, publisher: &mut Publisher<Global>, done: &AtomicBool) {
    for _ in rt.forever() {
        if done.load(Ordering::SeqCst) || publisher.event(rt, &rows_of(1)).is_err() {
            return;
        }
    }
}

// Reads so often, and answers how long that took.
fn read<R: Clock>(rt: &R, mut reader: Reader<Global>, count: u64) -> io::Result<u128>
    requires { reader.slots ≡ 512 }
{
    let start = Instant::now(rt)?;
    let mut rows = [Row::Never; 3];
    for _ in 0..count {
        let _length = reader.read(&SLOTS, &mut rows);
    }
    Ok(start.elapsed(rt)?.as_nanos())
}

// Reads until the others are done.
fn read_until<R: Wait>(rt: &R, mut reader: Reader<Global>, done: &AtomicBool)
    requires { reader.slots ≡ 512 }
{
    let mut rows = [Row::Never; 3];
    for _ in rt.forever() {
        let _length = reader.read(&SLOTS, &mut rows);
        if done.load(Ordering::SeqCst) {
            return;
        }
    }
}

// Times reads beside a publisher that never pauses.
fn read_beside_publisher<R: Threads + Wait + Clock + Sync>(
    rt: &R,
    publisher: &mut Publisher<Global>,
    reader: Reader<Global>,
    count: u64,
) -> io::Result<u128>
    requires { reader.slots ≡ 512 }
{
    let done = AtomicBool::new(false);
    let (taken, ()) = join(
        rt,
        || -> io::Result<u128>
            requires { reader.slots ≡ 512 }
        {
            let taken = read(rt, reader, count);
            done.store(true, Ordering::SeqCst);
            taken
        },
        || publish_until(rt, publisher, &done),
    );
    taken
}

// Times events beside two readers that never pause.
fn publish_beside_readers<R: Threads + Wait + Clock + Sync>(
    rt: &R,
    publisher: &mut Publisher<Global>,
    first: Reader<Global>,
    second: Reader<Global>,
    count: u64,
) -> io::Result<u128>
    requires first { first.slots ≡ 512 }
    requires second { second.slots ≡ 512 }
{
    let done = AtomicBool::new(false);
    let (taken, _) = join(
        rt,
        || {
            let taken = publish(rt, publisher, count);
            done.store(true, Ordering::SeqCst);
            taken
        },
        || -> ((), ())
            requires first { first.slots ≡ 512 }
            requires second { second.slots ≡ 512 }
        {
            join(
                rt,
                || -> ()
                    requires { first.slots ≡ 512 }
                { read_until(rt, first, &done) },
                || -> ()
                    requires { second.slots ≡ 512 }
                { read_until(rt, second, &done) },
            )
        },
    );
    taken
}

// Makes a board and times so many reads or events on it.
fn time<R: Threads + Wait + Clock + Sync>(
    rt: &R,
    alloc: Global,
    measure: Measure,
    count: u64,
) -> io::Result<u128> {
    let Some((mut publisher, first, second)) = board(rt, alloc) else {
        return Err(AllocError.into());
    };
    let taken = match measure {
        Measure::Read => read(rt, first, count),
        Measure::ReadBesidePublisher => read_beside_publisher(rt, &mut publisher, first, count),
        Measure::EventBesideReaders => {
            publish_beside_readers(rt, &mut publisher, first, second, count)
        }
    };
    publisher.end(rt);
    taken
}

/// Gives the least of all turns, in nanoseconds for one read or event.
pub fn least<R: Threads + Wait + Clock + Sync>(
    rt: &R,
    alloc: Global,
    measure: Measure,
    count: u64,
) -> io::Result<u128>
    requires { 1 ≤ count }
{
    let mut least = u128::MAX;
    for _ in 0..TURNS {
        least = least.min(time(rt, alloc, measure, count)?);
    }
    Ok(least / u128::from(count))
}
