//! How many requests for memory a run on one thread makes, which no clause says.

use crate::feeds::Feeds;
use crate::in_order::run_in_order;
use mdp_arbiter::Start;
use mdp_capture::{CountingReader, read_capture};
use mdp_crew::RunPlan;
use refusing::Refusing;
use std::alloc::Global;
use std::ops::RangeInclusive;
use std::test::Fail;
use worked_runs::Kept;

// Appends a message that ends an event: the best bid, which packet 1 puts and later ones change.
fn put_message(text: &mut String, number: u32) -> Result<(), Fail> {
    let action = if number == 1 { "00" } else { "01" };
    text.push_str("38000b002e000100090000000000000000008000002000016400000000000000")?;
    write!(
        text,
        "0500000001000000000000000100000001{action}300000000000"
    )?;
    Ok(())
}

// Appends the line of a packet of so many messages on feed A.
fn put_packet(text: &mut String, number: u32, messages: u32) -> Result<(), Fail> {
    let [a, b, c, d] = number.to_le_bytes();
    write!(text, "A {a:02x}{b:02x}{c:02x}{d:02x}0000000000000000")?;
    for _ in 0..messages {
        put_message(text, number)?;
    }
    text.push('\n')?;
    Ok(())
}

// Appends the lines of packets of two messages, in order: of each some 130 bytes are printed.
fn put_packets(text: &mut String, numbers: RangeInclusive<u32>) -> Result<(), Fail> {
    for number in numbers {
        put_packet(text, number, 2)?;
    }
    Ok(())
}

// Returns how many requests for memory a run over a capture makes. It runs with the first one refused, then with the second, and so on
// until none is.
fn requests(alloc: Global, text: &str) -> Result<u64, Fail> {
    let plenty = Refusing::new(alloc, 0);
    for number in 1..1000u64 {
        let heap = Refusing::new(alloc, number);
        let Ok(capture) = read_capture(&plenty, &mut CountingReader::new(text.as_bytes())) else {
            return Err("the capture is not read".into());
        };
        let plan = RunPlan {
            instruments: capture.instruments(),
            window: 64,
            start: Start::FromOne,
            workers: 1,
        };
        let mut kept = Kept::new(alloc);
        let outcome = run_in_order(&heap, plan, Feeds::of(&capture), &mut kept);
        if !heap.has_refused() {
            return match outcome {
                Ok(summary) if summary.next == capture.a().len() as u64 + 1 => Ok(number - 1),
                _ => Err("not all packets have passed".into()),
            };
        }
    }
    Err("no run without a refused request".into())
}

// Starts a capture of packets after which the room for text, which doubles up to twice a piece, grows no more.
fn grown(alloc: Global) -> Result<String, Fail> {
    let mut text = String::from_str(alloc, "I 1 NEAR O\n")?;
    put_packets(&mut text, 1..=600)?;
    Ok(text)
}

#[test]
fn packets_that_pass_at_once_ask_for_text_alone(rt: HostRuntime) -> Result<(), Fail> {
    let mut text = String::from_str(rt.alloc(), "I 1 NEAR O\n")?;
    put_packets(&mut text, 1..=1)?;
    let first = requests(rt.alloc(), &text)?;
    let mut text = grown(rt.alloc())?;
    let all = requests(rt.alloc(), &text)?;
    assert!(rt; first < all && all <= first.saturating_add(11));
    put_packets(&mut text, 601..=1200)?;
    assert_eq!(rt; requests(rt.alloc(), &text)?, all);
    Ok(())
}

// A list of entries that doubles once, one of places that doubles twice at most, and the bytes three times.
#[test]
fn a_larger_packet_asks_the_first_time_alone(rt: HostRuntime) -> Result<(), Fail> {
    let mut text = grown(rt.alloc())?;
    let before = requests(rt.alloc(), &text)?;
    put_packet(&mut text, 601, 9)?;
    put_packets(&mut text, 602..=610)?;
    let larger = requests(rt.alloc(), &text)?;
    assert!(rt; before < larger && larger <= before.saturating_add(6));
    put_packet(&mut text, 611, 9)?;
    put_packets(&mut text, 612..=620)?;
    put_packet(&mut text, 621, 9)?;
    assert_eq!(rt; requests(rt.alloc(), &text)?, larger);
    Ok(())
}

// The packet that waits has entries of its own; the one that fills the gap takes the room along, and the next one makes
// it anew.
#[test]
fn a_gap_asks_for_the_packet_that_waits_and_for_the_next(rt: HostRuntime) -> Result<(), Fail> {
    let mut text = grown(rt.alloc())?;
    let before = requests(rt.alloc(), &text)?;
    put_packet(&mut text, 602, 2)?;
    put_packet(&mut text, 601, 2)?;
    put_packets(&mut text, 603..=610)?;
    let one = requests(rt.alloc(), &text)?;
    assert_eq!(rt; one, before.saturating_add(2));
    put_packet(&mut text, 612, 2)?;
    put_packet(&mut text, 611, 2)?;
    put_packets(&mut text, 613..=620)?;
    assert_eq!(rt; requests(rt.alloc(), &text)?, before.saturating_add(4));
    Ok(())
}
