//! Readers and copies with each allocation refused in turn, and with none.

use mdp_templates::{
    Action, Entry, Fault, Kind, Memory, Packet, Snapshot, read_packet, read_packet_into,
    read_snapshots,
};
use refusing::Refusing;
use std::alloc::Global;
use std::process::Abort;
use std::test::Fail;

// Packet 1: one book message that ends its event, with the bid 100x5 of security 1 as a new first level.
const PACKET: &[u8] = &[
    1, 0, 0, 0, 0, 0, 0, 0, 0, 0, 0, 0, 56, 0, 11, 0, 46, 0, 1, 0, 9, 0, 0, 0, 0, 0, 0, 0, 0, 0,
    128, 0, 0, 32, 0, 1, 100, 0, 0, 0, 0, 0, 0, 0, 5, 0, 0, 0, 1, 0, 0, 0, 0, 0, 0, 0, 1, 0, 0, 0,
    1, 0, 48, 0, 0, 0, 0, 0,
];

// One snapshot, of security 1 behind packet 2, with the bid 100x5.
const SNAPSHOT: &[u8] = &[
    1, 0, 0, 0, 0, 0, 0, 0, 0, 0, 0, 0, 51, 0, 16, 0, 52, 0, 1, 0, 9, 0, 2, 0, 0, 0, 0, 0, 0, 0, 1,
    0, 0, 0, 0, 0, 0, 0, 22, 0, 1, 100, 0, 0, 0, 0, 0, 0, 0, 5, 0, 0, 0, 1, 0, 0, 0, 1, 0, 0, 0, 0,
    48,
];

// The packet of the datagram and a copy of it, over an allocator that may refuse.
fn read_and_copy(
    heap: &Refusing<Global>,
) -> Result<(Packet<&Refusing<Global>>, Packet<&Refusing<Global>>), Fault> {
    let packet = read_packet(heap, PACKET)?;
    match packet.copy(heap) {
        Ok(copy) => Ok((packet, copy)),
        Err(_) => Err(Fault::Memory),
    }
}

#[test]
fn a_packet_is_read_and_copied_unless_memory_is_refused(rt: HostRuntime) -> Result<(), Fail> {
    let mut refused = 0u64;
    for number in 1..100u64 {
        let heap = Refusing::new(rt.alloc(), number);
        match read_and_copy(&heap) {
            Ok((packet, copy)) => {
                assert!(rt; !heap.has_refused());
                assert_eq!(rt; copy.number(), 1);
                assert_eq!(rt; packet.len(), 1);
                assert_eq!(rt; copy.len(), 1);
                let message = copy.message(0);
                assert!(rt; message.is_end());
                assert!(rt; message.entries() == packet.message(0).entries());
                break;
            }
            Err(fault) => {
                assert!(rt; fault == Fault::Memory);
                assert!(rt; heap.has_refused());
                refused = number;
            }
        }
    }
    assert!(rt; refused >= 2);
    Ok(())
}

// A copy of a packet of four messages without entries, the last of which ends the event; it takes memory to say where four lie.
fn four_messages(heap: &Refusing<Global>) -> Result<Packet<&Refusing<Global>>, Memory> {
    let mut packet = Packet::new(heap, 1);
    packet.push(&[], false)?;
    packet.push(&[], false)?;
    packet.push(&[], false)?;
    packet.push(&[], true)?;
    packet.copy(heap)
}

#[test]
fn four_messages_are_held_and_copied_unless_memory_is_refused(rt: HostRuntime) -> Result<(), Fail> {
    let mut refused = 0u64;
    for number in 1..100u64 {
        let heap = Refusing::new(rt.alloc(), number);
        match four_messages(&heap) {
            Ok(copy) => {
                assert!(rt; !heap.has_refused());
                assert_eq!(rt; copy.len(), 4);
                assert!(rt; !copy.message(2).is_end());
                assert!(rt; copy.message(3).is_end());
                break;
            }
            Err(Memory) => {
                assert!(rt; heap.has_refused());
                refused = number;
            }
        }
    }
    assert!(rt; refused >= 2);
    Ok(())
}

// Reads the datagram into the room of a packet that held four messages.
fn read_into_four(heap: &Refusing<Global>) -> Result<Packet<&Refusing<Global>>, Fault> {
    let Ok(mut room) = four_messages(heap) else {
        return Err(Fault::Memory);
    };
    read_packet_into(heap, PACKET, &mut room)?;
    Ok(room)
}

// Reads the datagram into the room of a packet that held none.
fn read_into_none(heap: &Refusing<Global>) -> Result<Packet<&Refusing<Global>>, Fault> {
    let mut room = Packet::new(heap, 7);
    read_packet_into(heap, PACKET, &mut room)?;
    Ok(room)
}

// Returns whether a packet is that of the datagram.
fn is_the_packet(packet: &Packet<&Refusing<Global>>) -> bool {
    if packet.len() != 1 {
        return false;
    }
    let wanted = Entry {
        security: 1,
        kind: Kind::Bid,
        action: Action::New,
        level: 1,
        price: 100,
        size: 5,
    };
    let message = packet.message(0);
    let entries = message.entries();
    packet.number() == 1
        && message.is_end()
        && entries.len() == 1
        && entries.iter().all(|entry| *entry == wanted)
}

#[test]
fn a_packet_is_read_into_the_room_of_four_messages_unless_memory_is_refused(
    rt: HostRuntime,
) -> Result<(), Fail> {
    let mut refused = 0u64;
    for number in 1..100u64 {
        let heap = Refusing::new(rt.alloc(), number);
        match read_into_four(&heap) {
            Ok(packet) => {
                assert!(rt; !heap.has_refused());
                assert!(rt; is_the_packet(&packet));
                break;
            }
            Err(fault) => {
                assert!(rt; fault == Fault::Memory);
                assert!(rt; heap.has_refused());
                refused = number;
            }
        }
    }
    assert!(rt; refused >= 4);
    Ok(())
}

#[test]
fn a_packet_is_read_into_the_room_of_none_unless_memory_is_refused(
    rt: HostRuntime,
) -> Result<(), Fail> {
    let mut refused = 0u64;
    for number in 1..100u64 {
        let heap = Refusing::new(rt.alloc(), number);
        match read_into_none(&heap) {
            Ok(packet) => {
                assert!(rt; !heap.has_refused());
                assert!(rt; is_the_packet(&packet));
                break;
            }
            Err(fault) => {
                assert!(rt; fault == Fault::Memory);
                assert!(rt; heap.has_refused());
                refused = number;
            }
        }
    }
    assert!(rt; refused >= 1);
    Ok(())
}

fn is_wanted(snapshot: &Snapshot) -> bool {
    let bids = snapshot.bids();
    snapshot.security() == 1
        && snapshot.last() == 2
        && bids.len() == 1
        && bids
            .iter()
            .all(|level| level.price == 100 && level.size == 5)
        && snapshot.offers().is_empty()
        && snapshot.implied_bids().is_empty()
        && snapshot.implied_offers().is_empty()
}

#[test]
fn snapshots_are_read_unless_memory_is_refused(rt: HostRuntime) -> Result<(), Fail> {
    let mut refused = 0u64;
    for number in 1..100u64 {
        let heap = Refusing::new(rt.alloc(), number);
        match read_snapshots(&heap, SNAPSHOT) {
            Ok(snapshots) => {
                assert!(rt; !heap.has_refused());
                assert_eq!(rt; snapshots.len(), 1);
                assert!(rt; snapshots.iter().all(|snapshot| is_wanted(snapshot)));
                assert!(rt; snapshots.iter().all(|snapshot| is_wanted(&snapshot.copy())));
                break;
            }
            Err(fault) => {
                assert!(rt; fault == Fault::Memory);
                assert!(rt; heap.has_refused());
                refused = number;
            }
        }
    }
    assert!(rt; refused >= 1);
    Ok(())
}
