//! Lines of refused datagrams that are more than a piece, on one thread: in how many writes they go out no clause says.

use crate::feeds::Feeds;
use crate::in_order::run_in_order;
use mdp_arbiter::Start;
use mdp_capture::{CountingReader, read_capture};
use mdp_crew::RunPlan;
use std::alloc::Global;
use std::test::Fail;
use worked_runs::Kept;

/// The line of the last refused datagram. The first is on line 2, and their `X` lines have 78,896 bytes.
const LAST_LINE: u32 = 4001;

// Appends the line of a datagram of one byte to a capture, and what is printed of it to a text.
fn put_refusal(capture: &mut String, text: &mut String, line: u32) -> Result<(), Fail> {
    capture.push_str("A 00\n")?;
    writeln!(text, "X A {line} 1 TooShort")?;
    Ok(())
}

// Gives a capture of refused datagrams, and its text.
fn many_refusals(alloc: Global) -> Result<(String, String), Fail> {
    let mut capture = String::from_str(alloc, "I 1 NEAR O\n")?;
    let mut text = String::new(alloc);
    for line in 2..=LAST_LINE {
        put_refusal(&mut capture, &mut text, line)?;
    }
    text.push_str("Z 1 live\n")?;
    Ok((capture, text))
}

// The first piece goes out as soon as it is one, and the rest with the last line.
#[test]
fn many_refusals_go_out_in_two_writes(rt: HostRuntime) -> Result<(), Fail> {
    let (lines, text) = many_refusals(rt.alloc())?;
    let Ok(capture) = read_capture(rt.alloc(), &mut CountingReader::new(lines.as_bytes())) else {
        return Err("the capture is not read".into());
    };
    let plan = RunPlan {
        instruments: capture.instruments(),
        window: 4,
        start: Start::FromOne,
        workers: 1,
    };
    let mut kept = Kept::new(rt.alloc());
    let outcome = run_in_order(rt.alloc(), plan, Feeds::of(&capture), &mut kept);
    assert!(rt; outcome.is_ok());
    assert_eq!(rt; kept.bytes.as_slice(), text.as_bytes());
    assert_eq!(rt; kept.calls, 2);
    Ok(())
}
