//! One table of calls, over every window of this crate, and each allocation refused in turn.

use mdp_templates::{Memory, Packet};
use mdp_window::{MapWindow, Put, RingWindow, Window};
use refusing::Refusing;
use std::alloc::{Allocator, Global};
use std::process::Abort;

#[derive(Clone, Copy)]
enum Call {
    Put(u32),
    TakeFirst,
    DropBelow(u32),
}

#[derive(Clone, Copy, Debug, PartialEq, Eq)]
enum Answer {
    Kept,
    Back(u32),
    Memory(u32),
    Taken(u32),
    Nothing,
}

/// Each call on a window of two places, its answer, and then the first number and the numbers held.
const TABLE: [(Call, Answer, u32, [Option<u32>; 2]); 8] = [
    (Call::Put(2), Answer::Kept, 1, [Some(2), None]),
    (Call::Put(3), Answer::Kept, 2, [Some(2), Some(3)]),
    (Call::Put(3), Answer::Back(3), 2, [Some(2), Some(3)]),
    (Call::TakeFirst, Answer::Taken(2), 3, [Some(3), None]),
    (Call::DropBelow(5), Answer::Nothing, 5, [None, None]),
    (Call::Put(4), Answer::Back(4), 5, [None, None]),
    (
        Call::Put(4294967295),
        Answer::Kept,
        4294967294,
        [Some(4294967295), None],
    ),
    (
        Call::TakeFirst,
        Answer::Nothing,
        4294967294,
        [Some(4294967295), None],
    ),
];

fn answer_to<W: Window<Packet<Global>>>(alloc: Global, window: &mut W, call: Call) -> Answer {
    match call {
        Call::Put(number) => match window.put(Packet::new(alloc, number)) {
            Put::Kept => Answer::Kept,
            Put::Back(packet) => Answer::Back(packet.number()),
            Put::Memory(packet) => Answer::Memory(packet.number()),
        },
        Call::TakeFirst => match window.take_first() {
            Some(packet) => Answer::Taken(packet.number()),
            None => Answer::Nothing,
        },
        Call::DropBelow(number) => {
            window.drop_below(u64::from(number));
            Answer::Nothing
        }
    }
}

/// Makes the first calls of the table, each with its answer, and returns where the window then begins, and what it
/// holds.
fn follow<W: Window<Packet<Global>>>(
    rt: &impl Abort,
    alloc: Global,
    window: &mut W,
    calls: usize,
) -> (u32, [Option<u32>; 2]) {
    let mut state = (1, [None, None]);
    for (call, answer, first, held) in TABLE.iter().take(calls) {
        assert_eq!(rt; answer_to(alloc, window, *call), *answer);
        state = (*first, *held);
    }
    state
}

/// Takes out a packet that is held, and comes back as a repeat before that.
fn take_held<W: Window<Packet<Global>>>(
    rt: &impl Abort,
    alloc: Global,
    window: &mut W,
    number: u32,
) {
    assert_eq!(rt;
        answer_to(alloc, window, Call::Put(number)),
        Answer::Back(number)
    );
    assert_eq!(rt;
        answer_to(alloc, window, Call::DropBelow(number)),
        Answer::Nothing
    );
    assert_eq!(rt;
        answer_to(alloc, window, Call::TakeFirst),
        Answer::Taken(number)
    );
}

/// Sees that the window begins at this number and holds these.
fn look<W: Window<Packet<Global>>>(
    rt: &impl Abort,
    alloc: Global,
    window: &mut W,
    first: u32,
    held: [Option<u32>; 2],
) {
    let before = first.saturating_sub(1);
    assert_eq!(rt;
        answer_to(alloc, window, Call::Put(before)),
        Answer::Back(before)
    );
    let [lower, upper] = held;
    if lower != Some(first) {
        assert_eq!(rt; answer_to(alloc, window, Call::TakeFirst), Answer::Nothing);
    }
    if let Some(number) = lower {
        take_held(rt, alloc, window, number);
    }
    if let Some(number) = upper {
        take_held(rt, alloc, window, number);
    }
    assert_eq!(rt; answer_to(alloc, window, Call::TakeFirst), Answer::Nothing);
}

/// Makes the first calls of the table on a new window, and sees how many items it then holds, and which.
fn follow_and_look<W: Window<Packet<Global>>>(
    rt: &impl Abort,
    alloc: Global,
    window: &mut W,
    calls: usize,
) {
    assert_eq!(rt; window.capacity(), 2);
    let (first, held) = follow(rt, alloc, window, calls);
    let [lower, upper] = held;
    let count = u64::from(lower.is_some()) + u64::from(upper.is_some());
    assert_eq!(rt; window.count(), Some(count));
    look(rt, alloc, window, first, held);
}

#[test]
fn a_map_window_follows_the_table(rt: HostRuntime) {
    for calls in 0..=TABLE.len() {
        let mut window = MapWindow::new(rt.alloc(), 2);
        follow_and_look(&rt, rt.alloc(), &mut window, calls);
    }
}

#[test]
fn a_ring_window_follows_the_table(rt: HostRuntime) -> Result<(), Memory> {
    for calls in 0..=TABLE.len() {
        let mut window = RingWindow::new(rt.alloc(), 2)?;
        follow_and_look(&rt, rt.alloc(), &mut window, calls);
    }
    Ok(())
}

const ROOM: u64 = 32;

/// Puts packets 2, 3 and so on up to 100, and answers the number that came back for want of memory.
fn fill_until_refused<W: Window<Packet<Global>>>(
    rt: &impl Abort,
    alloc: Global,
    window: &mut W,
) -> Option<u32> {
    for number in 2..=100u32 {
        let answer = answer_to(alloc, window, Call::Put(number));
        if answer != Answer::Kept {
            assert_eq!(rt; answer, Answer::Memory(number));
            return Some(number);
        }
    }
    None
}

/// Sees that a window holds as many of the packets 2, 3 and so on before this number as it has room for, and begins
/// just where the last of them put it.
fn holds_all_before<W: Window<Packet<Global>>>(
    rt: &impl Abort,
    alloc: Global,
    window: &mut W,
    number: u32,
) {
    assert_eq!(rt; window.capacity(), ROOM);
    let first = number.saturating_sub(32).max(1);
    let old = first.saturating_sub(1);
    assert_eq!(rt; answer_to(alloc, window, Call::Put(old)), Answer::Back(old));
    if first == 1 {
        assert_eq!(rt; answer_to(alloc, window, Call::TakeFirst), Answer::Nothing);
        assert_eq!(rt; answer_to(alloc, window, Call::Put(1)), Answer::Kept);
        assert_eq!(rt; answer_to(alloc, window, Call::TakeFirst), Answer::Taken(1));
    }
    for held in first.max(2)..number {
        assert_eq!(rt;
            answer_to(alloc, window, Call::Put(held)),
            Answer::Back(held)
        );
        assert_eq!(rt;
            answer_to(alloc, window, Call::TakeFirst),
            Answer::Taken(held)
        );
    }
    assert_eq!(rt; answer_to(alloc, window, Call::TakeFirst), Answer::Nothing);
}

#[test]
fn a_refused_allocation_hands_the_packet_back_and_changes_nothing(rt: HostRuntime) {
    let alloc = rt.alloc();
    let mut before_it_moves = 0u32;
    let mut as_it_moves = 0u32;
    for refused in 1..100u64 {
        let heap = Refusing::new(alloc, refused);
        let mut window = MapWindow::new(&heap, ROOM);
        let Some(number) = fill_until_refused(&rt, alloc, &mut window) else {
            assert!(rt; !heap.has_refused());
            break;
        };
        assert!(rt; heap.has_refused());
        if number <= 32 {
            before_it_moves = before_it_moves.saturating_add(1);
        } else {
            as_it_moves = as_it_moves.saturating_add(1);
        }
        holds_all_before(&rt, alloc, &mut window, number);
    }
    assert!(rt; before_it_moves > 0);
    assert!(rt; as_it_moves > 0);
}

#[test]
fn a_packet_that_came_back_for_want_of_memory_is_kept_once_there_is_some(rt: HostRuntime) {
    let alloc = rt.alloc();
    for refused in 1..100u64 {
        let heap = Refusing::new(alloc, refused);
        let mut window = MapWindow::new(&heap, ROOM);
        let Some(number) = fill_until_refused(&rt, alloc, &mut window) else {
            assert!(rt; refused > 1);
            break;
        };
        assert_eq!(rt;
            answer_to(alloc, &mut window, Call::Put(number)),
            Answer::Kept
        );
        holds_all_before(&rt, alloc, &mut window, number.saturating_add(1));
    }
}

/// Whether a ring can be made with this allocator.
fn is_made<A: Allocator + Copy>(alloc: A) -> bool {
    let made: Result<RingWindow<Packet<Global>, A>, Memory> = RingWindow::new(alloc, ROOM);
    made.is_ok()
}

#[test]
fn a_ring_window_is_not_made_without_memory(rt: HostRuntime) {
    let heap = Refusing::new(rt.alloc(), 1);
    assert!(rt; !is_made(&heap));
    assert!(rt; heap.has_refused());
    assert!(rt; is_made(&heap));
}

#[test]
fn a_ring_window_takes_no_memory_once_it_is_made(rt: HostRuntime) -> Result<(), Memory> {
    let alloc = rt.alloc();
    let heap = Refusing::new(alloc, 2);
    let mut window = RingWindow::new(&heap, ROOM)?;
    assert_eq!(rt; fill_until_refused(&rt, alloc, &mut window), None);
    holds_all_before(&rt, alloc, &mut window, 101);
    assert!(rt; !heap.has_refused());
    Ok(())
}
