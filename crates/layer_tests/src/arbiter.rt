//! Tables of calls over every window, and each allocation refused in turn. One security is listed.

ghost use Rattle.std.specs.Prelude.{◌≡◌, IfOk, length};
ghost use Rattle.std.specs.FinMap as map;
ghost use Rattle.mdp_templates.specs.Instrument.{AreFit};

use crate::uncounted::Uncounted;
use arrayvec::{ArrayString, ArrayVec};
use mdp_arbiter::{Arbiter, PacketFate, Start, Step};
use mdp_templates::{Instrument, InstrumentKind, Name, Packet, Snapshot, are_fit};
use mdp_window::{MapWindow, Put, RingWindow, Window};
use refusing::Refusing;
use std::alloc::Global;
use std::process::Abort;
use std::test::Fail;

/// The one listed security.
fn near() -> Result<[Instrument; 1], Fail>
    ensures { IfOk result AreFit }
{
    let mut text = ArrayString::new();
    if text.try_push_str("NEAR").is_err() {
        return Err("a long name".into());
    }
    let listed = [Instrument {
        id: 1,
        name: Name::new(text),
        kind: InstrumentKind::Outright,
        depth: 10,
    }];
    if !are_fit(&listed) {
        return Err("unfit".into());
    }
    Ok(listed)
}

/// A packet with as many messages, each without entries.
fn packet(alloc: Global, number: u32, messages: u8) -> Result<Packet<Global>, Fail> {
    let mut packet = Packet::new(alloc, number);
    for _ in 0..messages {
        if packet.push(&[], true).is_err() {
            return Err("out of memory".into());
        }
    }
    Ok(packet)
}

/// A snapshot of an empty book.
fn snapshot(security: i32, last: u32) -> Snapshot {
    Snapshot::new(
        security,
        last,
        ArrayVec::new(),
        ArrayVec::new(),
        ArrayVec::new(),
        ArrayVec::new(),
    )
}

fn is_kept(answer: Put<Packet<Global>>) -> bool {
    matches!(answer, Put::Kept)
}

#[derive(Clone, Copy)]
enum Call {
    /// A packet of this number, with as many messages.
    Packet(u32, u8),
    /// A snapshot of this security, with the number of the packet that it includes last.
    Snapshot(i32, u32),
    Close,
    Step,
}

#[derive(Clone, Copy, Debug, PartialEq, Eq)]
enum Answer {
    Kept,
    Back,
    /// A packet of this number passed, with as many messages.
    Pass(u32, usize),
    Jump(u64, u64),
    Nothing,
}

/// A call and its answer, and then the number of the packet that passes next, and whether the receiver is lost.
type Row = (Call, Answer, u64, bool);

fn answer_to<W: Window<Packet<Global>> + Drop>(
    alloc: Global,
    arbiter: &mut Arbiter<Global, W>,
    call: Call,
) -> Result<Answer, Fail> {
    Ok(match call {
        Call::Packet(number, messages) => match arbiter.packet(packet(alloc, number, messages)?) {
            Put::Kept => Answer::Kept,
            Put::Back(_) => Answer::Back,
            Put::Memory(_) => Answer::Nothing,
        },
        Call::Snapshot(security, last) => match arbiter.snapshot(snapshot(security, last)) {
            Some(_) => Answer::Back,
            None => Answer::Kept,
        },
        Call::Close => {
            arbiter.close();
            Answer::Nothing
        }
        Call::Step => match arbiter.step() {
            Some(Step::Pass(packet)) => Answer::Pass(packet.number(), packet.len()),
            Some(Step::Jump { old, new }) => Answer::Jump(old, new),
            None => Answer::Nothing,
        },
    })
}

/// Checks the answer to a call.
fn answers<W: Window<Packet<Global>> + Drop>(
    rt: &impl Abort,
    alloc: Global,
    arbiter: &mut Arbiter<Global, W>,
    call: Call,
    answer: Answer,
) -> Result<(), Fail> {
    assert_eq!(rt; answer_to(alloc, arbiter, call)?, answer);
    Ok(())
}

/// Makes the calls of a table on an arbiter, one by one.
fn make_calls<W: Window<Packet<Global>> + Drop>(
    rt: &impl Abort,
    alloc: Global,
    arbiter: &mut Arbiter<Global, W>,
    table: &[Row],
) -> Result<(), Fail> {
    for (call, answer, next, lost) in table.iter() {
        answers(rt, alloc, arbiter, *call, *answer)?;
        assert_eq!(rt; arbiter.next(), *next);
        assert_eq!(rt; arbiter.lost(), *lost);
    }
    Ok(())
}

/// Makes the calls of a table on a new arbiter over this window.
fn follow<W: Window<Packet<Global>> + Drop>(
    rt: &impl Abort,
    alloc: Global,
    window: W,
    start: Start,
    table: &[Row],
) -> Result<(), Fail>
    requires first { (W.view window).first ≡ 1 }
    requires empty { (W.view window).held ≡ map.empty }
{
    let mut arbiter = Arbiter::new(alloc, &near()?, window, start)?;
    make_calls(rt, alloc, &mut arbiter, table)
}

/// Follows a table over each window, of four places.
fn follow_over_both(
    rt: &impl Abort,
    alloc: Global,
    start: Start,
    table: &[Row],
) -> Result<(), Fail> {
    follow(rt, alloc, MapWindow::new(alloc, 4), start, table)?;
    follow(rt, alloc, RingWindow::new(alloc, 4)?, start, table)
}

#[test]
fn packets_out_of_order_pass_in_order_and_the_first_copy_counts(
    rt: HostRuntime,
) -> Result<(), Fail> {
    let table: [Row; 8] = [
        (Call::Packet(2, 1), Answer::Kept, 1, false),
        (Call::Step, Answer::Nothing, 1, false),
        (Call::Packet(2, 0), Answer::Back, 1, false),
        (Call::Packet(1, 3), Answer::Kept, 1, false),
        (Call::Step, Answer::Pass(1, 3), 2, false),
        (Call::Step, Answer::Pass(2, 1), 3, false),
        (Call::Step, Answer::Nothing, 3, false),
        (Call::Packet(1, 3), Answer::Back, 3, false),
    ];
    follow_over_both(&rt, rt.alloc(), Start::FromOne, &table)
}

#[test]
fn a_packet_at_the_last_place_gives_none_up(rt: HostRuntime) -> Result<(), Fail> {
    let table: [Row; 9] = [
        (Call::Packet(4, 1), Answer::Kept, 1, false),
        (Call::Step, Answer::Nothing, 1, false),
        (Call::Packet(3, 1), Answer::Kept, 1, false),
        (Call::Packet(1, 1), Answer::Kept, 1, false),
        (Call::Step, Answer::Pass(1, 1), 2, false),
        (Call::Packet(2, 1), Answer::Kept, 2, false),
        (Call::Step, Answer::Pass(2, 1), 3, false),
        (Call::Step, Answer::Pass(3, 1), 4, false),
        (Call::Step, Answer::Pass(4, 1), 5, false),
    ];
    follow_over_both(&rt, rt.alloc(), Start::FromOne, &table)
}

#[test]
fn a_packet_past_the_last_place_gives_the_next_up(rt: HostRuntime) -> Result<(), Fail> {
    let table: [Row; 8] = [
        (Call::Packet(5, 1), Answer::Kept, 1, true),
        (Call::Packet(1, 1), Answer::Back, 1, true),
        (Call::Packet(2, 1), Answer::Kept, 1, true),
        (Call::Step, Answer::Nothing, 1, true),
        (Call::Snapshot(1, 1), Answer::Kept, 1, true),
        (Call::Step, Answer::Jump(1, 2), 2, false),
        (Call::Step, Answer::Pass(2, 1), 3, false),
        (Call::Step, Answer::Nothing, 3, false),
    ];
    follow_over_both(&rt, rt.alloc(), Start::FromOne, &table)
}

#[test]
fn the_largest_numbers_pass(rt: HostRuntime) -> Result<(), Fail> {
    let table: [Row; 10] = [
        (Call::Packet(4294967295, 1), Answer::Kept, 1, true),
        (Call::Packet(4294967291, 1), Answer::Back, 1, true),
        (Call::Packet(4294967292, 1), Answer::Kept, 1, true),
        (Call::Snapshot(1, 4294967290), Answer::Kept, 1, true),
        (Call::Step, Answer::Nothing, 1, true),
        (Call::Snapshot(1, 4294967294), Answer::Kept, 1, true),
        (Call::Step, Answer::Jump(1, 4294967295), 4294967295, false),
        (Call::Step, Answer::Pass(4294967295, 1), 4294967296, false),
        (Call::Step, Answer::Nothing, 4294967296, false),
        (Call::Packet(4294967295, 1), Answer::Back, 4294967296, false),
    ];
    follow_over_both(&rt, rt.alloc(), Start::FromOne, &table)
}

#[test]
fn an_older_snapshot_leaves_the_receiver_lost(rt: HostRuntime) -> Result<(), Fail> {
    let table: [Row; 10] = [
        (Call::Packet(2, 0), Answer::Kept, 1, false),
        (Call::Packet(6, 0), Answer::Kept, 1, true),
        (Call::Snapshot(2, 9), Answer::Back, 1, true),
        (Call::Snapshot(1, 1), Answer::Kept, 1, true),
        (Call::Snapshot(1, 1), Answer::Back, 1, true),
        (Call::Step, Answer::Nothing, 1, true),
        (Call::Snapshot(1, 9), Answer::Kept, 1, true),
        (Call::Step, Answer::Jump(1, 10), 10, false),
        (Call::Step, Answer::Nothing, 10, false),
        (Call::Packet(9, 0), Answer::Back, 10, false),
    ];
    follow_over_both(&rt, rt.alloc(), Start::FromOne, &table)
}

#[test]
fn after_a_close_everything_comes_back(rt: HostRuntime) -> Result<(), Fail> {
    let table: [Row; 5] = [
        (Call::Packet(5, 1), Answer::Kept, 1, true),
        (Call::Close, Answer::Nothing, 1, true),
        (Call::Snapshot(1, 2), Answer::Back, 1, true),
        (Call::Packet(1, 1), Answer::Back, 1, true),
        (Call::Step, Answer::Nothing, 1, true),
    ];
    follow_over_both(&rt, rt.alloc(), Start::FromOne, &table)
}

#[test]
fn who_joins_takes_no_packet_before_a_jump(rt: HostRuntime) -> Result<(), Fail> {
    let table: [Row; 8] = [
        (Call::Packet(1, 1), Answer::Kept, 1, true),
        (Call::Step, Answer::Nothing, 1, true),
        (Call::Packet(1, 0), Answer::Back, 1, true),
        (Call::Snapshot(1, 0), Answer::Kept, 1, true),
        (Call::Step, Answer::Jump(1, 1), 1, false),
        (Call::Step, Answer::Pass(1, 1), 2, false),
        (Call::Packet(3, 1), Answer::Kept, 2, false),
        (Call::Step, Answer::Nothing, 2, false),
    ];
    follow_over_both(&rt, rt.alloc(), Start::Join, &table)
}

#[test]
fn who_joins_goes_on_with_the_packets_that_came_before_the_snapshot(
    rt: HostRuntime,
) -> Result<(), Fail> {
    let table: [Row; 8] = [
        (Call::Packet(4, 1), Answer::Kept, 1, true),
        (Call::Packet(3, 2), Answer::Kept, 1, true),
        (Call::Step, Answer::Nothing, 1, true),
        (Call::Snapshot(1, 2), Answer::Kept, 1, true),
        (Call::Step, Answer::Jump(1, 3), 3, false),
        (Call::Step, Answer::Pass(3, 2), 4, false),
        (Call::Step, Answer::Pass(4, 1), 5, false),
        (Call::Step, Answer::Nothing, 5, false),
    ];
    follow_over_both(&rt, rt.alloc(), Start::Join, &table)
}

#[test]
fn who_joins_waits_for_a_snapshot_of_what_is_given_up(rt: HostRuntime) -> Result<(), Fail> {
    let table: [Row; 9] = [
        (Call::Packet(9, 1), Answer::Kept, 1, true),
        (Call::Packet(5, 1), Answer::Back, 1, true),
        (Call::Snapshot(1, 4), Answer::Kept, 1, true),
        (Call::Step, Answer::Nothing, 1, true),
        (Call::Snapshot(1, 9), Answer::Kept, 1, true),
        (Call::Step, Answer::Jump(1, 10), 10, false),
        (Call::Packet(14, 1), Answer::Kept, 10, true),
        (Call::Close, Answer::Nothing, 10, true),
        (Call::Step, Answer::Nothing, 10, true),
    ];
    follow_over_both(&rt, rt.alloc(), Start::Join, &table)
}

/// An outright of this id and name.
fn outright(id: i32, text: &str) -> Result<Instrument, Fail> {
    let mut name = ArrayString::new();
    if name.try_push_str(text).is_err() {
        return Err("a long name".into());
    }
    Ok(Instrument {
        id,
        name: Name::new(name),
        kind: InstrumentKind::Outright,
        depth: 10,
    })
}

/// Three listed securities, 1 to 3.
fn three() -> Result<[Instrument; 3], Fail>
    ensures { IfOk result AreFit }
{
    let listed = [
        outright(1, "ONE")?,
        outright(2, "TWO")?,
        outright(3, "THREE")?,
    ];
    if !are_fit(&listed) {
        return Err("unfit".into());
    }
    Ok(listed)
}

/// Returns the first place without a fresh snapshot, by a walk over all.
fn first_by_walk(newest: &[Option<Snapshot>], top: u64, room: u64) -> Option<usize> {
    for slot in 0..newest.len() {
        let fresh = match &newest[slot] {
            None => false,
            Some(snapshot) => top <= u64::from(snapshot.last()).saturating_add(room),
        };
        if !fresh {
            return Some(slot);
        }
    }
    None
}

/// Counts the packets up to number 60 that are held, by a walk over all.
fn count_by_walk<W: Window<Packet<Global>> + Drop>(arbiter: &Arbiter<Global, W>) -> u64 {
    let mut count = 0u64;
    for number in 1..=60u32 {
        if arbiter.fate_of(number) == PacketFate::Repeat {
            count = count.saturating_add(1);
        }
    }
    count
}

/// Compares what an arbiter of room 4 keeps with what walks over all tell.
fn compare_with_walks<W: Window<Packet<Global>> + Drop>(
    rt: &impl Abort,
    arbiter: &Arbiter<Global, W>,
) {
    let first = first_by_walk(arbiter.newest(), arbiter.highest(), 4);
    assert_eq!(rt; arbiter.first_stale(), first);
    assert_eq!(rt; arbiter.waiting(), count_by_walk(arbiter));
}

/// A call, and then, once all steps are made, the first place without a fresh snapshot, the number that passes next,
/// and how many packets wait.
type KeptRow = (Call, Option<usize>, u64, u64);

/// Makes all steps.
fn make_steps<W: Window<Packet<Global>> + Drop>(
    alloc: Global,
    arbiter: &mut Arbiter<Global, W>,
) -> Result<(), Fail> {
    for _ in 0..6 {
        answer_to(alloc, arbiter, Call::Step)?;
    }
    Ok(())
}

/// Makes a call and then all steps, and checks what the arbiter keeps after the call and after the steps.
fn follow_row<W: Window<Packet<Global>> + Drop>(
    rt: &impl Abort,
    alloc: Global,
    arbiter: &mut Arbiter<Global, W>,
    row: &KeptRow,
) -> Result<(), Fail> {
    let (call, stale, next, waiting) = *row;
    answer_to(alloc, arbiter, call)?;
    compare_with_walks(rt, arbiter);
    make_steps(alloc, arbiter)?;
    compare_with_walks(rt, arbiter);
    assert_eq!(rt; arbiter.first_stale(), stale);
    assert_eq!(rt; arbiter.next(), next);
    assert_eq!(rt; arbiter.waiting(), waiting);
    Ok(())
}

/// Makes the calls of a table on an arbiter of three securities, one by one.
fn follow_rows<W: Window<Packet<Global>> + Drop>(
    rt: &impl Abort,
    alloc: Global,
    arbiter: &mut Arbiter<Global, W>,
    table: &[KeptRow],
) -> Result<(), Fail> {
    for row in table {
        follow_row(rt, alloc, arbiter, row)?;
    }
    Ok(())
}

/// Makes the calls of a table on a new arbiter of three securities over this window, of four places.
fn follow_three<W: Window<Packet<Global>> + Drop>(
    rt: &impl Abort,
    alloc: Global,
    window: W,
    table: &[KeptRow],
) -> Result<(), Fail>
    requires first { (W.view window).first ≡ 1 }
    requires empty { (W.view window).held ≡ map.empty }
{
    let mut arbiter = Arbiter::new(alloc, &three()?, window, Start::FromOne)?;
    follow_rows(rt, alloc, &mut arbiter, table)
}

/// The same over each window, and over one that keeps no count of what it holds.
fn follow_three_over_all(rt: &impl Abort, alloc: Global, table: &[KeptRow]) -> Result<(), Fail> {
    follow_three(rt, alloc, MapWindow::new(alloc, 4), table)?;
    follow_three(rt, alloc, RingWindow::new(alloc, 4)?, table)?;
    follow_three(rt, alloc, Uncounted::new(alloc, 4), table)
}

#[test]
fn a_snapshot_is_fresh_up_to_the_packet_as_far_ahead_as_the_room(
    rt: HostRuntime,
) -> Result<(), Fail> {
    let table: [KeptRow; 15] = [
        (Call::Packet(5, 1), Some(0), 1, 1),
        (Call::Snapshot(1, 3), Some(1), 1, 1),
        (Call::Snapshot(2, 4), Some(2), 1, 1),
        // as far ahead of the least of the first two snapshots as the room, and one farther
        (Call::Packet(7, 1), Some(2), 1, 2),
        (Call::Packet(8, 1), Some(0), 1, 3),
        (Call::Snapshot(1, 6), Some(2), 1, 3),
        (Call::Packet(9, 1), Some(1), 1, 3),
        (Call::Snapshot(2, 9), Some(2), 1, 3),
        (Call::Snapshot(3, 5), None, 6, 3),
        // lost again, and the third is stale that was fresh at the jump
        (Call::Packet(10, 1), Some(2), 6, 4),
        (Call::Snapshot(3, 6), None, 11, 0),
        (Call::Packet(30, 1), Some(0), 11, 1),
        (Call::Snapshot(2, 30), Some(0), 11, 1),
        (Call::Snapshot(1, 29), Some(2), 11, 1),
        (Call::Snapshot(3, 28), None, 29, 1),
    ];
    follow_three_over_all(&rt, rt.alloc(), &table)
}

#[test]
fn packets_that_wait_are_counted(rt: HostRuntime) -> Result<(), Fail> {
    let table: [KeptRow; 16] = [
        (Call::Packet(2, 1), Some(0), 1, 1),
        (Call::Packet(4, 1), Some(0), 1, 2),
        (Call::Packet(2, 2), Some(0), 1, 2),
        // the window moves up by two, by one, and past all that it holds
        (Call::Packet(6, 1), Some(0), 1, 2),
        (Call::Packet(8, 1), Some(0), 1, 2),
        (Call::Packet(7, 1), Some(0), 1, 3),
        (Call::Packet(9, 1), Some(0), 1, 4),
        (Call::Packet(10, 1), Some(0), 1, 4),
        (Call::Packet(5, 1), Some(0), 1, 4),
        (Call::Packet(45, 1), Some(0), 1, 1),
        (Call::Packet(47, 1), Some(0), 1, 2),
        // a jump drops one of two, and the other passes behind the one before it
        (Call::Snapshot(1, 46), Some(1), 1, 2),
        (Call::Snapshot(2, 45), Some(2), 1, 2),
        (Call::Snapshot(3, 45), None, 46, 1),
        (Call::Packet(46, 1), None, 48, 0),
        (Call::Packet(48, 1), None, 49, 0),
    ];
    follow_three_over_all(&rt, rt.alloc(), &table)
}

#[test]
fn a_jump_makes_the_newest_snapshots_the_bases(rt: HostRuntime) -> Result<(), Fail> {
    let alloc = rt.alloc();
    let mut arbiter = Arbiter::new(alloc, &near()?, MapWindow::new(alloc, 4), Start::FromOne)?;
    assert!(rt; is_kept(arbiter.packet(packet(alloc, 5, 1)?)));
    assert!(rt; arbiter.snapshot(snapshot(1, 2)).is_none());
    assert!(rt; arbiter.base(0).is_none());
    assert!(rt; arbiter.step().is_some());
    assert_eq!(rt; arbiter.base(0).map(Snapshot::last), Some(2));
    Ok(())
}

type OverRefusing<'a> = Arbiter<Global, MapWindow<Packet<Global>, &'a Refusing<Global>>>;

/// Hands in once more what came back for want of memory: the packet of this number, whole, with nothing changed.
fn hand_in_again(rt: &impl Abort, arbiter: &mut OverRefusing, number: u32, back: Packet<Global>) {
    assert_eq!(rt; back.number(), number);
    assert_eq!(rt; back.len(), 1);
    assert_eq!(rt; arbiter.next(), 1);
    // so far packet 33 came, which is as far ahead of packet 1 as the window has room
    assert_eq!(rt; arbiter.lost(), number > 33);
    assert!(rt; arbiter.step().is_none());
    assert!(rt; is_kept(arbiter.packet(back)));
}

/// Takes in packets 2 to 40, each once more where it came back for want of memory, and answers how often that was.
fn take_in_all(rt: &impl Abort, alloc: Global, arbiter: &mut OverRefusing) -> Result<u32, Fail> {
    let mut came_back = 0u32;
    for number in 2..=40u32 {
        let Put::Memory(back) = arbiter.packet(packet(alloc, number, 1)?) else {
            continue;
        };
        came_back = came_back.saturating_add(1);
        hand_in_again(rt, arbiter, number, back);
    }
    Ok(came_back)
}

/// Jumps behind a snapshot that includes packet 8, and passes all packets from there.
fn recovers(rt: &impl Abort, alloc: Global, arbiter: &mut OverRefusing) -> Result<(), Fail> {
    assert!(rt; arbiter.lost());
    answers(rt, alloc, arbiter, Call::Snapshot(1, 8), Answer::Kept)?;
    answers(rt, alloc, arbiter, Call::Step, Answer::Jump(1, 9))?;
    for number in 9..=40u32 {
        answers(rt, alloc, arbiter, Call::Step, Answer::Pass(number, 1))?;
    }
    answers(rt, alloc, arbiter, Call::Step, Answer::Nothing)?;
    assert_eq!(rt; arbiter.next(), 41);
    Ok(())
}

/// Takes in and passes all packets, and answers how often one came back.
fn pass_all(rt: &impl Abort, alloc: Global, arbiter: &mut OverRefusing) -> Result<u32, Fail> {
    let came_back = take_in_all(rt, alloc, arbiter)?;
    recovers(rt, alloc, arbiter)?;
    Ok(came_back)
}

/// The same on a new arbiter, whose window has its memory from this heap.
fn pass_all_over(
    rt: &impl Abort,
    alloc: Global,
    heap: &Refusing<Global>,
    listed: &[Instrument],
) -> Result<u32, Fail>
    requires { AreFit listed.now }
{
    let mut arbiter = Arbiter::new(alloc, listed, MapWindow::new(heap, 32), Start::FromOne)?;
    pass_all(rt, alloc, &mut arbiter)
}

#[test]
fn a_packet_that_came_back_for_want_of_memory_can_be_handed_in_again(
    rt: HostRuntime,
) -> Result<(), Fail> {
    let listed = near()?;
    let mut refused = 0u64;
    for number in 1..100u64 {
        let heap = Refusing::new(rt.alloc(), number);
        let came_back = pass_all_over(&rt, rt.alloc(), &heap, &listed)?;
        if !heap.has_refused() {
            assert_eq!(rt; came_back, 0);
            break;
        }
        assert_eq!(rt; came_back, 1);
        refused = number;
    }
    assert!(rt; refused > 1);
    Ok(())
}

/// Checks that packet 40, which comes back, gives no packet up, and gives them up once it is handed in again.
fn gives_up_once_kept(
    rt: &impl Abort,
    alloc: Global,
    arbiter: &mut OverRefusing,
) -> Result<(), Fail> {
    let Put::Memory(far) = arbiter.packet(packet(alloc, 40, 1)?) else {
        return Err("there was memory".into());
    };
    assert!(rt; !arbiter.lost());
    assert!(rt; is_kept(arbiter.packet(packet(alloc, 1, 1)?)));
    assert!(rt; matches!(arbiter.step(), Some(Step::Pass(_))));
    assert_eq!(rt; arbiter.next(), 2);
    assert!(rt; is_kept(arbiter.packet(far)));
    assert!(rt; arbiter.lost());
    Ok(())
}

#[test]
fn a_packet_that_came_back_for_want_of_memory_gives_no_packet_up(
    rt: HostRuntime,
) -> Result<(), Fail> {
    let alloc = rt.alloc();
    let listed = near()?;
    let heap = Refusing::new(alloc, 1);
    let mut arbiter = Arbiter::new(alloc, &listed, MapWindow::new(&heap, 32), Start::FromOne)?;
    gives_up_once_kept(&rt, alloc, &mut arbiter)
}

#[test]
fn no_arbiter_is_made_without_its_room(rt: HostRuntime) -> Result<(), Fail> {
    let alloc = rt.alloc();
    let listed = near()?;
    let mut refused = 0u64;
    for number in 1..100u64 {
        let heap = Refusing::new(alloc, number);
        let window: MapWindow<Packet<&Refusing<Global>>, &Refusing<Global>> = MapWindow::new(
            &heap, 4,
        );
        let made = Arbiter::new(&heap, &listed, window, Start::FromOne).is_ok();
        assert_eq!(rt; made, !heap.has_refused());
        if made {
            break;
        }
        refused = number;
    }
    // the places, and two snapshots of each security
    assert!(rt; refused >= 3);
    Ok(())
}
