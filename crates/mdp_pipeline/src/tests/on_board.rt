//! Runs that publish on a board: what a reader sees that was told of all that was published.

ghost use Rattle.std.specs.Prelude.{◌≡◌, ◌≤◌, IfSome};
ghost use Rattle.mdp_lanes.specs.Boards.{IsFreshReader};

use crate::feeds::Feeds;
use crate::summary::Summary;
use crate::tests::Kept;
use crate::threads::run_published;
use mdp_arbiter::Start;
use mdp_capture::{CountingReader, read_capture};
use mdp_crew::{Open, RunFault, RunPlan};
use mdp_lanes::{Board, Publisher, Reader, Row};
use mdp_quotes::Total;
use refusing::Refusing;
use std::alloc::{Allocator, Global};
use std::process::Abort;
use std::sync::Wait;
use std::test::Fail;
use std::thread::Threads;
use worked_runs::{RECOVERY, RECOVERY_TEXT, SPREAD, SPREAD_TEXT};

/// The rows of all three securities.
type Rows = [Row; 3];

fn total(price: i64, size: i64) -> Option<Total> {
    Some(Total { price, size })
}

fn top(packet: u32, bid: Option<Total>, offer: Option<Total>) -> Row {
    Row::Top {
        packet,
        message: 1,
        bid,
        offer,
    }
}

/// The rows after so many steps of the run over `SPREAD`.
fn rows_after(length: u64) -> Rows {
    let far = top(4, None, total(90, 3));
    match length {
        0 => [Row::Never; 3],
        1 => [top(1, total(100, 5), None), Row::Never, Row::Never],
        2 => [top(2, total(101, 2), None), Row::Never, Row::Never],
        3 => [top(3, total(101, 2), total(103, 4)), Row::Never, Row::Never],
        4 => [top(4, total(101, 9), total(103, 4)), far, Row::Never],
        _ => [top(5, total(101, 9), total(103, 4)), far, Row::Never],
    }
}

/// What a run came to, the bytes that it wrote, and what a reader then sees: the length of the front and its rows.
#[derive(Drop)]
struct Shown {
    outcome: Result<Summary, RunFault>,
    bytes: Vec<u8>,
    length: Option<u64>,
    rows: Rows,
}

// The ends of a board with three slots and one reader.
fn board<R: Wait, A: Allocator + Copy>(rt: &R, alloc: A) -> Option<(Publisher<A>, Reader<A>)>
    ensures { IfSome result (λ ends. IsFreshReader ends.0.board 3 ends.1) }
{
    let Ok((publisher, mut readers)) = Board::new(alloc, rt, 3, 1) else {
        return None;
    };
    let Some(reader) = readers.pop() else {
        publisher.end(rt);
        return None;
    };
    Some((publisher, reader))
}

// What a reader shows of all three slots that was told of all, with the length of the front.
fn look<A: Allocator + Copy>(
    publisher: &mut Publisher<A>,
    reader: &mut Reader<A>,
) -> (Option<u64>, Rows)
    requires board { reader.old.board ≡ publisher.old.board }
    requires slots { reader.old.slots ≡ 3 }
{
    reader.learn(publisher.tell());
    let mut rows = [Row::Never; 3];
    let length = reader.read(&[0, 1, 2], &mut rows);
    (length, rows)
}

// What a run over this capture shows on a board of its own; nothing where there was no memory for the capture and the board.
fn publish_over<R, A>(
    rt: &R,
    alloc: Global,
    heap: A,
    bytes: &[u8],
    workers: u16,
    window: u32,
) -> Option<Shown>
where
    R: Threads + Wait + Sync,
    A: Allocator + Copy + Send + Sync,
    requires some { 1 ≤ workers }
    requires least { 1 ≤ window }
    requires most { window ≤ 65536 }
{
    let mut text = CountingReader::new(bytes);
    let Ok(capture) = read_capture(heap, &mut text) else {
        return None;
    };
    let (publisher, mut reader) = board(rt, heap)?;
    let mut kept = Kept::new(alloc);
    let (mut publisher, outcome) = run_published(
        rt,
        heap,
        RunPlan {
            instruments: capture.instruments(),
            window,
            start: Start::FromOne,
            workers,
        },
        Feeds::of(&capture),
        &Open,
        publisher,
        &mut kept,
    );
    let (length, rows) = look(&mut publisher, &mut reader);
    publisher.end(rt);
    Some(Shown {
        outcome,
        bytes: kept.bytes,
        length,
        rows,
    })
}

/// Sees what a whole run over this capture prints and publishes.
fn shows<R: Threads + Wait + Abort + Sync>(
    rt: &R,
    alloc: Global,
    capture: &[u8],
    workers: u16,
    window: u32,
    text: &[u8],
    steps: u64,
    rows: Rows,
)
    requires some { 1 ≤ workers }
    requires least { 1 ≤ window }
    requires most { window ≤ 65536 }
{
    let Some(shown) = publish_over(rt, alloc, alloc, capture, workers, window) else {
        panic!(rt; "no memory");
    };
    assert!(rt; shown.outcome.is_ok());
    assert_eq!(rt; shown.bytes.as_slice(), text);
    assert_eq!(rt; shown.length, Some(steps));
    assert_eq!(rt; shown.rows, rows);
}

#[test]
fn publishes_each_event_end(rt: HostRuntime) -> Result<(), Fail> {
    for workers in [1, 2, 3, 16] {
        shows(
            &rt,
            rt.alloc(),
            SPREAD,
            workers,
            1024,
            SPREAD_TEXT,
            5,
            rows_after(5),
        );
    }
    Ok(())
}

#[test]
fn publishes_a_jump(rt: HostRuntime) -> Result<(), Fail> {
    let near = top(5, total(101, 9), total(103, 4));
    let far = top(5, None, total(90, 3));
    let spread = top(4, None, None);
    for workers in [1, 2, 3, 16] {
        shows(
            &rt,
            rt.alloc(),
            RECOVERY,
            workers,
            4,
            RECOVERY_TEXT,
            4,
            [near, far, spread],
        );
    }
    Ok(())
}

/// Whether two workers print the text, by memory from this heap; whatever comes, a reader sees a front of the steps.
fn two_publish<R: Threads + Wait + Abort + Sync>(
    rt: &R,
    plain: Global,
    heap: &Refusing<Global>,
) -> bool {
    let Some(shown) = publish_over(rt, plain, heap, SPREAD, 2, 1024) else {
        return false;
    };
    let Some(length) = shown.length else {
        panic!(rt; "nothing was read");
    };
    assert!(rt; length <= 5);
    assert_eq!(rt; shown.rows, rows_after(length));
    assert!(rt; SPREAD_TEXT.starts_with(&shown.bytes));
    shown.outcome.is_ok()
}

#[test]
fn each_allocation_refused_beside_a_board(rt: HostRuntime) -> Result<(), Fail> {
    let mut refused = 0u64;
    for number in 1..10000u64 {
        let heap = Refusing::new(rt.alloc(), number);
        let printed = two_publish(&rt, rt.alloc(), &heap);
        assert_eq!(rt; printed, !heap.has_refused());
        if printed {
            break;
        }
        refused = number;
    }
    assert!(rt; refused > 40);
    Ok(())
}
