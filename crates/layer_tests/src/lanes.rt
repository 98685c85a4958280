//! Three threads over an intake, one over a lane, and each allocation refused in turn. (Of boards in a module of its own.)

ghost use Rattle.std.specs.Prelude.{◌≡◌, ◌≤◌, IfOk};
ghost use Rattle.mdp_lanes.specs.Items.{ends_taken};
ghost use Rattle.mdp_lanes.specs.Queues.{IsSenderOf, IsFreshSenderOf};

use arrayvec::ArrayVec;
use mdp_lanes::{Ends, Intake, IntakeReceiver, IntakeSender, Lane, LaneReceiver, LaneSender};
use mdp_templates::{Feed, Memory, Packet, Snapshot};
use refusing::Refusing;
use std::alloc::{AllocError, Allocator, Global};
use std::process::Abort;
use std::snapshot::Snapshot as Copied;
use std::sync::Wait;
use std::thread;
use std::thread::{Promise, PromisedHandle, Scope, Threads};

mod boards;

/// What a reader of a feed puts.
#[derive(Drop)]
enum Item<A: Allocator> {
    Packet(Packet<A>),
    Snapshot(Snapshot),
    Close,
    End,
}

impl<A: Allocator> Ends for Item<A> {
    ghost use Rattle.std.specs.Prelude.{true, false};
    ghost use Rattle.layer_tests.specs.declared.lanes.Item.TheVariants.{Packet, Snapshot, Close, End};

    ghost is_end = { elim [ Packet _ ↦ false | Snapshot _ ↦ false | Close ↦ false | End ↦ true ] };

    fn is_end(&self) -> bool {
        matches!(self, Item::End)
    }
}

type Sender<A> = IntakeSender<Item<A>, A>;

type Receiver<A> = IntakeReceiver<Item<A>, A>;

type PacketSender = LaneSender<Packet<Global>, Global>;

type PacketReceiver = LaneReceiver<Packet<Global>, Global>;

/// What is compared of an item: of a packet its number and how many messages it has.
#[derive(Clone, Copy, Debug, PartialEq, Eq)]
enum Mark {
    Packet(u32, usize),
    Snapshot(u32),
    Close,
    End,
}

fn mark_of<A: Allocator>(item: &Item<A>) -> Mark {
    match item {
        Item::Packet(packet) => Mark::Packet(packet.number(), packet.len()),
        Item::Snapshot(snapshot) => Mark::Snapshot(snapshot.last()),
        Item::Close => Mark::Close,
        Item::End => Mark::End,
    }
}

/// A packet of one empty message, which lies in memory.
fn packet<A: Allocator + Copy>(alloc: A, number: u32) -> Packet<A> {
    let mut packet = Packet::new(alloc, number);
    let _ = packet.push(&[], true);
    packet
}

/// A snapshot of an empty book.
fn snapshot(last: u32) -> Snapshot {
    Snapshot::new(
        7,
        last,
        ArrayVec::new(),
        ArrayVec::new(),
        ArrayVec::new(),
        ArrayVec::new(),
    )
}

/// How many packets or snapshots each thread puts.
const MANY: u32 = 1000;

/// Puts an item, if the sender has not ended.
fn put_one<R: Wait, A: Allocator + Copy>(rt: &R, sender: &mut Sender<A>, item: Item<A>)
    ensures intake { sender.new.intake ≡ sender.old.intake }
    ensures tag { sender.new.tag ≡ sender.old.tag }
{
    if !sender.ended() {
        sender.put(rt, item);
    }
}

/// Puts the packets of feed A or B, or the snapshots of feed S and a close, and then the end.
fn put_all<R: Wait, A: Allocator + Copy>(
    rt: &R,
    alloc: A,
    mut sender: Sender<A>,
    tag: Feed,
) -> Sender<A>
    ensures intake { result.intake ≡ sender.intake }
    ensures tag { result.tag ≡ sender.tag }
{
    for number in 0..MANY {
        let item = match tag {
            Feed::A => Item::Packet(packet(alloc, number)),
            Feed::B => Item::Packet(packet(alloc, 5000 + number)),
            Feed::S => Item::Snapshot(snapshot(number)),
        };
        put_one(rt, &mut sender, item);
    }
    if tag == Feed::S {
        put_one(rt, &mut sender, Item::Close);
    }
    put_one(rt, &mut sender, Item::End);
    sender
}

/// A thread's promise: the sender that it gives back is the one that it was given.
#[derive(Drop)]
struct GivesBack<A: Allocator + Copy> {
    before: Copied<Sender<A>>,
}

impl<A: Allocator + Copy> Promise<Sender<A>> for GivesBack<A> {
    ghost kept_by = { λ p r. (r.intake ≡ p.before.value.intake) × (r.tag ≡ p.before.value.tag) };
}

/// A thread that puts all that its sender's feed has.
fn start<'s, E, R: Threads + Wait + Sync, A: Allocator + Copy + Send + Sync>(
    rt: &'s R,
    scope: &Scope<'s, E>,
    alloc: A,
    sender: Sender<A>,
    tag: Feed,
) -> Result<PromisedHandle<Sender<A>, GivesBack<A>>, AllocError>
where
    A: 's,
    ensures { IfOk result (λ handle. handle.promise.before.value ≡ sender) }
{
    let promise = GivesBack {
        before: Copied::of(&sender),
    };
    let handle = scope.spawn_with(promise, move || put_all(rt, alloc, sender, tag))?;
    Ok(handle)
}

/// Takes until each sender has ended.
fn take_all<I: Ends, R: Wait, A: Allocator + Copy>(
    rt: &R,
    alloc: A,
    mut receiver: IntakeReceiver<I, A>,
) -> (IntakeReceiver<I, A>, Vec<(Feed, I), A>)
    ensures intake { result.0.intake ≡ receiver.intake }
    ensures ends { ends_taken I.is_end result.0.taken ≡ 3 }
{
    let mut taken = Vec::new(alloc);
    for _ in rt.forever() {
        if receiver.ends() == 3 {
            return (receiver, taken);
        }
        let _ = taken.push(receiver.take(rt));
    }
    unreachable!()
}

/// Takes all that three threads put, joins them, settles, and answers what was taken.
fn finish<R: Threads + Wait, A: Allocator + Copy>(
    rt: &R,
    alloc: A,
    receiver: Receiver<A>,
    a: PromisedHandle<Sender<A>, GivesBack<A>>,
    b: PromisedHandle<Sender<A>, GivesBack<A>>,
    s: PromisedHandle<Sender<A>, GivesBack<A>>,
) -> Vec<(Feed, Item<A>), A>
    requires a { IsFreshSenderOf receiver Feed.A a.promise.before.value }
    requires b { IsFreshSenderOf receiver Feed.B b.promise.before.value }
    requires s { IsFreshSenderOf receiver Feed.S s.promise.before.value }
{
    let (receiver, taken) = take_all(rt, alloc, receiver);
    let a = a.join(rt);
    let b = b.join(rt);
    let s = s.join(rt);
    Intake::settle(receiver, a, b, s);
    taken
}

/// How many places an intake has: as few as it may have, or as many.
#[derive(Clone, Copy)]
enum Room {
    One,
    Most,
}

fn places(room: Room) -> usize
    ensures least { 1 ≤ result }
    ensures most { result ≤ 65536 }
{
    match room {
        Room::One => 1,
        Room::Most => 65536,
    }
}

/// What three threads of a scope put into an intake, as it was taken. Where one cannot be started, those before it
/// wait for room that nobody makes, and the test does not end.
fn exchange_in<'s, E, R: Threads + Wait + Sync, A: Allocator + Copy + Send + Sync>(
    rt: &'s R,
    scope: &Scope<'s, E>,
    alloc: A,
    room: Room,
) -> Result<Vec<(Feed, Item<A>), A>, Memory>
where
    A: 's,
{
    let (a, b, s, receiver) = Intake::new(alloc, places(room))?;
    let a = start(rt, scope, alloc, a, Feed::A)?;
    let b = start(rt, scope, alloc, b, Feed::B)?;
    let s = start(rt, scope, alloc, s, Feed::S)?;
    Ok(finish(rt, alloc, receiver, a, b, s))
}

/// What three threads put into an intake, as it was taken.
fn exchange<R: Threads + Wait + Sync, A: Allocator + Copy + Send + Sync>(
    rt: &R,
    alloc: A,
    room: Room,
) -> Result<Vec<(Feed, Item<A>), A>, Memory> {
    thread::scope(
        thread::scope_env(),
        rt,
        move |scope| exchange_in(rt, scope, alloc, room),
    )
}

/// What a thread puts at this place, counted from 0.
fn put_at(tag: Feed, place: u32) -> Mark {
    match tag {
        Feed::A if place < MANY => Mark::Packet(place, 1),
        Feed::B if place < MANY => Mark::Packet(place.saturating_add(5000), 1),
        Feed::S if place < MANY => Mark::Snapshot(place),
        Feed::S if place == MANY => Mark::Close,
        _ => Mark::End,
    }
}

/// Sees that what was taken with this tag is what its thread put, so many items, in order.
fn compare<A: Allocator>(rt: &impl Abort, taken: &[(Feed, Item<A>)], tag: Feed, many: u32) {
    let mut place = 0u32;
    for (sender, item) in taken {
        if *sender == tag {
            assert_eq!(rt; mark_of(item), put_at(tag, place));
            place = place.saturating_add(1);
        }
    }
    assert_eq!(rt; place, many);
}

/// Three threads put into an intake, and what was taken of each is what it put.
fn exchange_and_compare<R: Threads + Wait + Abort + Sync, A: Allocator + Copy + Send + Sync>(
    rt: &R,
    alloc: A,
    room: Room,
) -> Result<(), Memory> {
    let taken = exchange(rt, alloc, room)?;
    assert_eq!(rt; taken.len(), 3004);
    compare(rt, &taken, Feed::A, 1001);
    compare(rt, &taken, Feed::B, 1001);
    compare(rt, &taken, Feed::S, 1002);
    Ok(())
}

#[test]
fn three_threads_put_into_an_intake_of_one_place(rt: HostRuntime) -> Result<(), Memory> {
    exchange_and_compare(&rt, rt.alloc(), Room::One)
}

#[test]
fn three_threads_put_into_an_intake_of_65536_places(rt: HostRuntime) -> Result<(), Memory> {
    exchange_and_compare(&rt, rt.alloc(), Room::Most)
}

#[test]
fn three_threads_share_an_allocator_that_is_lent(rt: HostRuntime) -> Result<(), Memory> {
    let heap = Refusing::new(rt.alloc(), 0);
    exchange_and_compare(&rt, &heap, Room::One)
}

/// Puts the packets of a feed into a lane.
fn put_packets<R: Wait>(rt: &R, alloc: Global, mut sender: PacketSender) -> PacketSender
    ensures { result.lane ≡ sender.lane }
{
    for number in 0..MANY {
        sender.put(rt, packet(alloc, number));
    }
    sender
}

/// A thread's promise: the sender that it gives back is the one that it was given.
#[derive(Drop)]
struct GivesLaneBack {
    before: Copied<PacketSender>,
}

impl Promise<PacketSender> for GivesLaneBack {
    ghost kept_by = { λ p r. r.lane ≡ p.before.value.lane };
}

/// A thread that puts the packets of a feed into a lane.
fn start_lane<R: Threads + Wait + Copy + Send + 'static>(
    rt: R,
    alloc: Global,
    sender: PacketSender,
) -> Result<PromisedHandle<PacketSender, GivesLaneBack>, AllocError>
    ensures { IfOk result (λ handle. handle.promise.before.value ≡ sender) }
{
    let promise = GivesLaneBack {
        before: Copied::of(&sender),
    };
    let handle = thread::spawn_with(&rt, promise, move || put_packets(&rt, alloc, sender))?;
    Ok(handle)
}

/// Takes so many packets.
fn take_packets<R: Wait>(
    rt: &R,
    alloc: Global,
    mut receiver: PacketReceiver,
    many: u32,
) -> (PacketReceiver, Vec<Packet<Global>>)
    ensures { result.0.lane ≡ receiver.lane }
{
    let mut taken = Vec::new(alloc);
    for _ in 0..many {
        let _ = taken.push(receiver.take(rt));
    }
    (receiver, taken)
}

/// The first packets, so many, of those that a thread puts into a lane.
fn pass_on<R: Threads + Wait + Copy + Send + 'static>(
    rt: R,
    alloc: Global,
    capacity: usize,
    many: u32,
) -> Result<Vec<Packet<Global>>, Memory>
    requires least { 1 ≤ capacity }
    requires most { capacity ≤ 65536 }
{
    let (sender, receiver) = Lane::new(alloc, capacity)?;
    let handle = start_lane(rt, alloc, sender)?;
    let (receiver, taken) = take_packets(&rt, alloc, receiver, many);
    let sender = handle.join(&rt);
    Lane::settle(sender, receiver);
    Ok(taken)
}

/// Sees that these are the first packets, so many, in order.
fn compare_packets(rt: &impl Abort, taken: &[Packet<Global>], many: u32) {
    let mut place = 0u32;
    for packet in taken {
        assert_eq!(rt; packet.number(), place);
        assert_eq!(rt; packet.len(), 1);
        place = place.saturating_add(1);
    }
    assert_eq!(rt; place, many);
}

#[test]
fn a_lane_of_one_place_gives_all(rt: HostRuntime) -> Result<(), Memory> {
    let taken = pass_on(rt, rt.alloc(), 1, MANY)?;
    compare_packets(&rt, &taken, MANY);
    Ok(())
}

#[test]
fn a_lane_of_65536_places_gives_a_beginning(rt: HostRuntime) -> Result<(), Memory> {
    let taken = pass_on(rt, rt.alloc(), 65536, 600)?;
    compare_packets(&rt, &taken, 600);
    Ok(())
}

/// Makes an intake of four places with this allocator, lets snapshots through, and counts those that came as they should.
fn carry<R: Wait, A: Allocator + Copy>(rt: &R, heap: A) -> Result<u32, Memory> {
    let (mut a, _b, _s, mut receiver) = Intake::new(heap, 4)?;
    let mut count = 0u32;
    for number in 0..100u32 {
        put_one(rt, &mut a, Item::Snapshot(snapshot(number)));
        let (tag, item) = receiver.take(rt);
        if tag == Feed::A && mark_of(&item) == Mark::Snapshot(number) {
            count = count.saturating_add(1);
        }
    }
    Ok(count)
}

/// The same over a lane.
fn carry_over_lane<R: Wait, A: Allocator + Copy>(
    rt: &R,
    alloc: Global,
    heap: A,
) -> Result<u32, Memory> {
    let (mut sender, mut receiver) = Lane::new(heap, 4)?;
    let mut count = 0u32;
    for number in 0..100u32 {
        sender.put(rt, packet(alloc, number));
        if receiver.take(rt).number() == number {
            count = count.saturating_add(1);
        }
    }
    Ok(count)
}

#[test]
fn an_intake_takes_its_memory_when_it_is_made(rt: HostRuntime) {
    let mut refused = 0u64;
    for number in 1..100u64 {
        let heap = Refusing::new(rt.alloc(), number);
        if let Ok(count) = carry(&rt, &heap) {
            assert_eq!(rt; count, 100);
            assert!(rt; !heap.has_refused());
            break;
        }
        assert!(rt; heap.has_refused());
        refused = number;
    }
    assert!(rt; 0 < refused && refused < 99);
}

#[test]
fn a_lane_takes_its_memory_when_it_is_made(rt: HostRuntime) {
    let mut refused = 0u64;
    for number in 1..100u64 {
        let heap = Refusing::new(rt.alloc(), number);
        if let Ok(count) = carry_over_lane(&rt, rt.alloc(), &heap) {
            assert_eq!(rt; count, 100);
            assert!(rt; !heap.has_refused());
            break;
        }
        assert!(rt; heap.has_refused());
        refused = number;
    }
    assert!(rt; 0 < refused && refused < 99);
}
