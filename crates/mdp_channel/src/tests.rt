//! Texts whose answers were written by hand.

use crate::{ChannelFault, ChannelFile, read_channel};
use mdp_templates::Feed;
use refusing::Refusing;
use std::alloc::{Allocator, Global};
use std::test::Fail;

const CHANNEL: &str = concat!(
    "# channel 310\r\n\r\nI 1 NEAR O\r\nF A 224.0.31.1 14310\r\n#\nI 2 FAR O 5\n",
    "F B 224.0.32.1 15310\nF S 0.255.10.9 1\nF A 224.0.31.1 65535",
);

// The feed of each address of `CHANNEL`, and of two that it doesn't have.
fn feeds_in<A: Allocator>(file: &ChannelFile<A>) -> [Option<Feed>; 6] {
    [
        file.addresses.feed_at(0xE000_1F01, 14310),
        file.addresses.feed_at(0xE000_2001, 15310),
        file.addresses.feed_at(0x00FF_0A09, 1),
        file.addresses.feed_at(0xE000_1F01, 65535),
        file.addresses.feed_at(0xE000_1F01, 15310),
        file.addresses.feed_at(0x011F_00E0, 14310),
    ]
}

#[test]
fn reads_instruments_and_addresses(rt: HostRuntime) -> Result<(), Fail> {
    let Ok(file) = read_channel(rt.alloc(), CHANNEL.as_bytes()) else {
        return Err("the channel is refused".into());
    };
    let (a, b, s) = (Some(Feed::A), Some(Feed::B), Some(Feed::S));
    assert_eq!(rt; feeds_in(&file), [a, b, s, a, None, None]);
    let instruments = file.instruments.as_slice();
    assert_eq!(rt; instruments.len(), 2);
    assert_eq!(rt; instruments[0].name.as_str(), "NEAR");
    assert_eq!(rt; instruments[1].depth, 5);
    Ok(())
}

// The line and the number of the fault that a text comes to: line 0 where it is no line's, and (0, 0) for a channel.
fn fault_of(alloc: Global, text: &str) -> (u64, u8) {
    match read_channel(alloc, text.as_bytes()) {
        Ok(_) => (0, 0),
        Err(ChannelFault::Line { line, refusal }) => (line, refusal.number()),
        Err(fault) => (0, fault.number()),
    }
}

#[test]
fn refuses_lines(rt: HostRuntime) -> Result<(), Fail> {
    for (line, number) in [
        ("F A 224.0.31.1 0", 61),
        ("F A 224.0.31.1 65536", 61),
        ("F A 224.0.31.1 065", 61),
        ("F A 224.0.31.1 +65", 61),
        ("F A 224.0.31 65", 61),
        ("F A 224.0.31.1.1 65", 61),
        ("F A 256.0.31.1 65", 61),
        ("F A 224.00.31.1 65", 61),
        ("F A 224..31.1 65", 61),
        ("F C 224.0.31.1 65", 61),
        ("F A\t224.0.31.1 65", 61),
        ("F A  224.0.31.1 65", 61),
        ("F A 224.0.31.1 65 ", 61),
        (" F A 224.0.31.1 65", 61),
        ("F A 224.0.31.1", 61),
        (" # no comment", 61),
        ("A 00", 61),
        ("I 2 FAR", 61),
        ("F B 224.0.31.1 14310", 62),
        ("F A 224.0.31.1 14310", 62),
        ("I 2 NEAR O", 31),
        ("I 3 SPREAD C 1 2", 32),
    ] {
        let text = format!(in rt.alloc(); "F A 224.0.31.1 14310\nI 1 NEAR O\n{line}\nQ")?;
        assert_eq!(rt; fault_of(rt.alloc(), text.as_str()), (3, number));
    }
    Ok(())
}

#[test]
fn refuses_the_513th_instrument(rt: HostRuntime) -> Result<(), Fail> {
    let mut text = String::new(rt.alloc());
    for id in 1..=513u32 {
        write!(text, "I {id} N{id} O\n")?;
    }
    assert_eq!(rt; fault_of(rt.alloc(), text.as_str()), (513, 33));
    Ok(())
}

#[test]
fn counts_every_line(rt: HostRuntime) {
    for (text, fault) in [
        ("", (0, 34)),
        ("F A 224.0.31.1 14310\n", (0, 34)),
        ("# F A 224.0.31.1 14310\nI 1 NEAR O", (0, 63)),
        ("\n# one\r\n\r\nI 1 NEAR O\nQ", (5, 61)),
        ("\r\r\n", (1, 61)),
        ("F A 224.0.31.1 14310\r", (1, 61)),
        ("F A 224.0.31.1 14310\r\nI 1 NEAR O\r\n", (0, 0)),
    ] {
        assert_eq!(rt; fault_of(rt.alloc(), text), fault);
    }
}

// Reads `CHANNEL` with an allocation refused, and returns whether one was.
fn wants_memory(heap: &Refusing<Global>) -> Result<bool, Fail> {
    match read_channel(heap, CHANNEL.as_bytes()) {
        Ok(_) if heap.has_refused() => Err(
            "an allocation was refused, and the channel is whole".into(),
        ),
        Ok(_) => Ok(false),
        Err(ChannelFault::Memory) => Ok(true),
        Err(_) => Err("the channel is refused".into()),
    }
}

#[test]
fn tells_want_of_memory(rt: HostRuntime) -> Result<(), Fail> {
    for number in 1..100u64 {
        let heap = Refusing::new(rt.alloc(), number);
        if !wants_memory(&heap)? {
            assert!(rt; number > 2);
            return Ok(());
        }
    }
    Err("an allocation is always refused".into())
}
