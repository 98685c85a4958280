//! Recordings and channel files that are refused, and recordings that end with a fault.

use super::frames::{
    A, ETHERNET, Frame, PACKET_3, UNREAD, append_interface, append_section, append_sizes, first_of,
    header, recording_of,
};
use super::{CHANNEL, SPREAD_CHANNEL, Wanted, day, each_size, run_over};
use crate::doubles::{OneFile, Pieces};
use std::alloc::Global;
use std::process::Abort;
use std::sync::Wait;
use std::test::Fail;
use std::thread::Threads;
use worked_runs::{Kept, PLAIN, PLAIN_TEXT, RECOVERY};

/// Channel files that are refused, with what is told.
const REFUSED_CHANNELS: [(&[u8], &[u8]); 9] = [
    (
        b"F A 224.0.31.1 14310\nI 1 NEAR O\nI 1 FAR O\n",
        b"channel line 3: 31 DuplicateId\n",
    ),
    (
        b"I 1 NEAR O\nI 3 CAL C 1 2\nI 2 FAR O\nF A 224.0.31.1 14310\n",
        b"channel line 2: 32 UnknownLeg\n",
    ),
    (b"", b"channel: 34 None\n"),
    (b"F A 224.0.31.1 14310\n", b"channel: 34 None\n"),
    (
        b"# NEAR\nI 1 NEAR O\nF A 224.0.31.01 14310\n",
        b"channel line 3: 61 ChannelForm\n",
    ),
    (
        b"I 1 NEAR O\nA 00\nF A 224.0.31.1 14310\n",
        b"channel line 2: 61 ChannelForm\n",
    ),
    (
        b"F A 224.0.31.1 14310\n\nF S 224.0.31.1 14310\nI 1 NEAR O\n",
        b"channel line 3: 62 AddressTwice\n",
    ),
    (
        b"F A 224.0.31.1 14310\nF A 224.0.31.1 14310\nI 1 NEAR O\n",
        b"channel line 2: 62 AddressTwice\n",
    ),
    (
        b"I 1 NEAR O\n#F A 224.0.31.1 14310",
        b"channel: 63 NoAddress\n",
    ),
];

// Runs where a channel file is to be refused before any of the input is read.
fn is_refused_unread<R: Threads + Wait + Sync + Abort>(
    rt: &R,
    alloc: Global,
    file: OneFile<'_>,
    told: &[u8],
) {
    let pieces = Pieces::of(b"I 1 NEAR O\n", 4, 1);
    let ended = run_over(rt, alloc, alloc, file, pieces, Kept::new(alloc));
    assert_eq!(rt; ended.told.as_slice(), told);
    assert_eq!(rt; ended.status, 2);
    assert_eq!(rt; ended.output.calls, 0);
    assert_eq!(rt; ended.reads, 0);
}

#[test]
fn a_channel_file_is_judged_before_the_input_is_read(rt: HostRuntime) {
    for (channel, told) in REFUSED_CHANNELS {
        is_refused_unread(&rt, rt.alloc(), day(channel), told);
    }
}

#[test]
fn a_channel_file_lists_512_instruments(rt: HostRuntime) -> Result<(), Fail> {
    let mut channel = String::new(rt.alloc());
    for id in 1..=513u32 {
        write!(channel, "I {id} N{id} O\n")?;
    }
    let file = day(channel.as_bytes());
    is_refused_unread(&rt, rt.alloc(), file, b"channel line 513: 33 TooMany\n");
    Ok(())
}

#[test]
fn a_channel_file_that_is_not_there_is_told(rt: HostRuntime) {
    let file = OneFile {
        name: "another.channel",
        text: CHANNEL,
    };
    is_refused_unread(&rt, rt.alloc(), file, b"channel: 64 ChannelRead\n");
}

#[test]
fn what_is_no_recording_prints_nothing(rt: HostRuntime) {
    let inputs: [&[u8]; 5] = [
        b"",
        b"\xd4\xc3\xb2",
        b"I 1 NEAR O\nA 00\n",
        b"\x1f\x8b\x08\x00\x00\x00\x00\x00\x00\x03",
        b"\xd4\xc3\xb2\xa1\x02\x00\x03\x00\0\0\0\0\0\0\0\0\x00\x00\x04\x00\x01\x00\x00\x00",
    ];
    let wanted = Wanted {
        status: 2,
        text: b"",
        told: b"71 NotPcap\n",
    };
    for input in inputs {
        each_size(&rt, rt.alloc(), CHANNEL, input, wanted);
    }
}

#[test]
fn a_first_frame_of_an_unread_link_type_prints_nothing(rt: HostRuntime) -> Result<(), Fail> {
    let alloc = rt.alloc();
    let mut recording = header(alloc, UNREAD)?;
    let wanted = Wanted {
        status: 0,
        text: b"Z 1 live\n",
        told: b"",
    };
    each_size(&rt, alloc, CHANNEL, &recording, wanted);
    Frame::to(A, PACKET_3).append(&mut recording)?;
    let wanted = Wanted {
        status: 2,
        text: b"",
        told: b"frame 1: 72 LinkType\n",
    };
    each_size(&rt, alloc, CHANNEL, &recording, wanted);
    Ok(())
}

#[test]
fn a_later_frame_of_an_unread_link_type_ends_the_run(rt: HostRuntime) -> Result<(), Fail> {
    let alloc = rt.alloc();
    let mut recording = Vec::new(alloc);
    append_section(&mut recording)?;
    append_interface(&mut recording, ETHERNET)?;
    append_interface(&mut recording, UNREAD)?;
    Frame::to(A, &first_of(alloc, PLAIN)?).append_enhanced(&mut recording, 0)?;
    Frame::to(A, PACKET_3).append_enhanced(&mut recording, 1)?;
    Frame::to(A, PACKET_3).append_enhanced(&mut recording, 0)?;
    let wanted = Wanted {
        status: 1,
        text: PLAIN_TEXT,
        told: b"frame 2: 72 LinkType\n",
    };
    each_size(&rt, alloc, CHANNEL, &recording, wanted);
    Ok(())
}

// Runs over a recording, a record of too many bytes and one more: what the recording shows is
// printed.
fn ends_at_a_long_record<R: Threads + Wait + Sync + Abort>(
    rt: &R,
    alloc: Global,
    mut recording: Vec<u8>,
    text: &[u8],
    told: &[u8],
) -> Result<(), Fail> {
    append_sizes(&mut recording, 262_145, 262_145)?;
    Frame::to(A, PACKET_3).append(&mut recording)?;
    let status = 1;
    let wanted = Wanted { status, text, told };
    each_size(rt, alloc, CHANNEL, &recording, wanted);
    Ok(())
}

#[test]
fn a_record_of_too_many_bytes_ends_the_run(rt: HostRuntime) -> Result<(), Fail> {
    let alloc = rt.alloc();
    let first = header(alloc, ETHERNET)?;
    let told = b"frame 1: 73 RecordSize\n";
    ends_at_a_long_record(&rt, alloc, first, b"Z 1 live\n", told)?;
    let second = recording_of(alloc, PLAIN)?;
    let told = b"frame 2: 73 RecordSize\n";
    ends_at_a_long_record(&rt, alloc, second, PLAIN_TEXT, told)
}

#[test]
fn a_recording_that_is_cut_short_prints_its_whole_frames(rt: HostRuntime) -> Result<(), Fail> {
    let alloc = rt.alloc();
    let mut in_header = header(alloc, ETHERNET)?;
    in_header.truncate(23);
    let mut in_record = recording_of(alloc, PLAIN)?;
    let mut waits = recording_of(alloc, PLAIN)?;
    Frame::to(A, PACKET_3).append(&mut waits)?;
    in_record.extend_from_slice(&[0; 5])?;
    waits.extend_from_slice(&[0; 5])?;
    let mut lost = recording_of(alloc, RECOVERY)?;
    lost.truncate(lost.len().saturating_sub(1));
    let rows: [(&[u8], &[u8], &[u8], &[u8]); 4] = [
        (
            CHANNEL,
            &in_header,
            b"Z 1 live\n",
            b"frame 1: 74 CutShort\n",
        ),
        (CHANNEL, &in_record, PLAIN_TEXT, b"frame 2: 74 CutShort\n"),
        (
            CHANNEL,
            &waits,
            PLAIN_TEXT,
            b"53 Waits 2 1\nframe 3: 74 CutShort\n",
        ),
        (
            SPREAD_CHANNEL,
            &lost,
            b"Z 1 lost\n",
            b"frame 4: 51 Lost 1 5\n54 NoSnapshot 1 NEAR\nframe 5: 74 CutShort\n",
        ),
    ];
    for (channel, recording, text, told) in rows {
        let status = 1;
        let wanted = Wanted { status, text, told };
        each_size(&rt, alloc, channel, recording, wanted);
    }
    Ok(())
}

// Runs byte by byte over a recording and more, and tells the status and how often it read.
fn status_and_reads<R: Threads + Wait + Sync>(
    rt: &R,
    alloc: Global,
    recording: &[u8],
    more: &[u8],
) -> Result<(u8, u64), Fail> {
    let mut input = Vec::from_slice(alloc, recording)?;
    input.extend_from_slice(more)?;
    let pieces = Pieces::of(&input, 1, 0);
    let ended = run_over(rt, alloc, alloc, day(CHANNEL), pieces, Kept::new(alloc));
    Ok((ended.status, ended.reads))
}

#[test]
fn nothing_is_read_after_a_fault(rt: HostRuntime) -> Result<(), Fail> {
    let alloc = rt.alloc();
    let more = recording_of(alloc, PLAIN)?;
    let mut unread = header(alloc, UNREAD)?;
    Frame::to(A, PACKET_3).append(&mut unread)?;
    let mut too_long = recording_of(alloc, PLAIN)?;
    append_sizes(&mut too_long, 262_145, 262_145)?;
    for (recording, status) in [(b"I 1 ".as_slice(), 2), (&unread, 2), (&too_long, 1)] {
        let wanted = (status, recording.len() as u64);
        assert_eq!(rt; status_and_reads(&rt, alloc, recording, &more)?, wanted);
    }
    // A read finds the end of one that is cut short.
    too_long.truncate(30);
    assert_eq!(rt; status_and_reads(&rt, alloc, &too_long, b"")?, (1, 31));
    Ok(())
}
