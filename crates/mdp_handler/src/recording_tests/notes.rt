//! What is told of frames that bring no datagram, though they are a feed's.

use super::frames::{A, Address, B, ETHERNET, Frame, PACKET_3, S, first_of, header};
use super::{CHANNEL, Wanted, each_size};
use std::alloc::Global;
use std::process::Abort;
use std::sync::Wait;
use std::test::Fail;
use std::thread::Threads;
use worked_runs::{PLAIN, PLAIN_TEXT};

/// A channel whose feeds A and S have one group.
const ONE_GROUP: &[u8] = b"I 1 NEAR O\nF S 224.0.31.1 14311\nF A 224.0.31.1 14310\n";

/// A group that is no feed's.
const OTHER: Address = ([224, 0, 99, 1], 14310);

/// A payload of one byte more than a datagram may have.
const LONG: [u8; 2049] = [0; 2049];

// Runs over packet 1 as frame 1, these frames, and a copy of packet 1: the frames between are told
// so, and change no line.
fn are_told<R: Threads + Wait + Sync + Abort>(
    rt: &R,
    alloc: Global,
    channel: &[u8],
    frames: &[Frame<'_>],
    told: &[u8],
) -> Result<(), Fail> {
    let first = first_of(alloc, PLAIN)?;
    let mut recording = header(alloc, ETHERNET)?;
    Frame::to(A, &first).append(&mut recording)?;
    for frame in frames {
        frame.append(&mut recording)?;
    }
    Frame::to(A, &first).append(&mut recording)?;
    let wanted = Wanted {
        status: 0,
        text: PLAIN_TEXT,
        told,
    };
    each_size(rt, alloc, channel, &recording, wanted);
    Ok(())
}

#[test]
fn long_payloads_are_told(rt: HostRuntime) -> Result<(), Fail> {
    let frames = [
        Frame::to(B, &LONG),
        Frame::to(OTHER, &LONG),
        Frame::to(S, &LONG),
    ];
    let told = b"frame 2: 23 TooLong\nframe 4: 23 TooLong\n";
    are_told(&rt, rt.alloc(), CHANNEL, &frames, told)
}

// A frame of Ethernet has its group at byte 30 and its port at byte 36.
#[test]
fn frames_that_were_cut_are_told(rt: HostRuntime) -> Result<(), Fail> {
    let alloc = rt.alloc();
    let frames = [
        Frame::to(A, PACKET_3).cut_to(63),
        Frame::to(B, PACKET_3).cut_to(50),
        Frame::to(OTHER, PACKET_3).cut_to(50),
        Frame::to(S, PACKET_3).cut_to(38),
    ];
    let told = b"frame 2: 55 FrameCut A\nframe 3: 55 FrameCut B\nframe 5: 55 FrameCut S\n";
    are_told(&rt, alloc, CHANNEL, &frames, told)?;
    for captured in [0, 13, 30, 33, 37] {
        let frames = [Frame::to(A, PACKET_3).cut_to(captured)];
        are_told(&rt, alloc, CHANNEL, &frames, b"frame 2: 55 FrameCut -\n")?;
    }
    let frames = [Frame::to(OTHER, PACKET_3).cut_to(37)];
    are_told(&rt, alloc, CHANNEL, &frames, b"")
}

#[test]
fn an_address_that_was_cut_away_is_told_once(rt: HostRuntime) -> Result<(), Fail> {
    let frames = [
        Frame::to(A, PACKET_3).cut_to(50),
        Frame::to(A, PACKET_3).cut_to(37),
        Frame::to(A, PACKET_3).cut_to(13),
        Frame::to(A, PACKET_3).cut_to(60),
        Frame::to(A, PACKET_3).cut_to(30),
    ];
    let told = b"frame 2: 55 FrameCut A\nframe 3: 55 FrameCut -\nframe 5: 55 FrameCut A\n";
    are_told(&rt, rt.alloc(), CHANNEL, &frames, told)
}

#[test]
fn fragments_are_told(rt: HostRuntime) -> Result<(), Fail> {
    let alloc = rt.alloc();
    let frames = [
        Frame::to(B, PACKET_3).with_fragment(0x2000),
        Frame::to(OTHER, PACKET_3).with_fragment(0x2000),
        Frame::to(S, PACKET_3).with_fragment(3),
    ];
    let told = b"frame 2: 56 Fragment B\nframe 4: 56 Fragment S\n";
    are_told(&rt, alloc, CHANNEL, &frames, told)?;
    let frames = [
        Frame::to(A, PACKET_3).with_fragment(0x2000),
        Frame::to(A, PACKET_3).with_fragment(9),
    ];
    let told = b"frame 2: 56 Fragment -\nframe 3: 56 Fragment -\n";
    are_told(&rt, alloc, ONE_GROUP, &frames, told)
}

#[test]
fn a_packet_that_must_not_be_divided_is_read(rt: HostRuntime) -> Result<(), Fail> {
    let frames = [Frame::to(A, PACKET_3).with_fragment(0x4000)];
    are_told(&rt, rt.alloc(), CHANNEL, &frames, b"53 Waits 2 1\n")
}

#[test]
fn datagrams_longer_than_their_packets_are_told(rt: HostRuntime) -> Result<(), Fail> {
    let frames = [
        Frame::to(A, PACKET_3).longer_by(1),
        Frame::to(B, PACKET_3).longer_by(1),
        Frame::to(OTHER, PACKET_3).longer_by(1),
        Frame::to(S, PACKET_3).longer_by(1),
    ];
    let told = b"frame 2: 57 FrameBroken A\nframe 3: 57 FrameBroken B\nframe 5: 57 FrameBroken S\n";
    are_told(&rt, rt.alloc(), CHANNEL, &frames, told)
}
