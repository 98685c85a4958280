//! Lines that are decoded one by one, with each allocation refused.

ghost use Rattle.std.specs.Prelude.{◌<◌, length, OnOk};
ghost use Rattle.mdp_capture.specs.Decoded.{KnowsDatagramOf};

use crate::tests::with_digits;
use crate::{DecodedLine, LineDecoder};
use mdp_templates::Feed;
use refusing::Refusing;
use std::alloc::{AllocError, Allocator, Global};
use std::process::Abort;
use std::test::Fail;

// What a line says, in one word.
fn word_of(line: &DecodedLine) -> &'static str {
    match line {
        DecodedLine::Blank => "Blank",
        DecodedLine::Instrument(_) => "Instrument",
        DecodedLine::Datagram(Feed::A) => "A",
        DecodedLine::Datagram(Feed::B) => "B",
        DecodedLine::Datagram(Feed::S) => "S",
        DecodedLine::Close => "Close",
        DecodedLine::Skipped(skip) => skip.name(),
    }
}

// Whether a line says this, and brings these bytes, if any are wanted.
fn is_as(line: &DecodedLine, bytes: &[u8], word: &str, wanted: &str) -> bool {
    word_of(line) == word && (wanted.is_empty() || bytes == wanted.as_bytes())
}

// Decodes a line, and once more where memory ran out, and returns whether it did.
fn decode_again<A: Allocator + Copy>(
    decoder: &mut LineDecoder<A>,
    alloc: A,
    text: &[u8],
    last: &[u8],
) -> Result<(DecodedLine, bool), AllocError>
    requires { 0 < length last.now → KnowsDatagramOf last.now decoder.old }
    ensures { OnOk result (KnowsDatagramOf text.now decoder.new) }
{
    match decoder.decode(alloc, text, last) {
        Ok(line) => Ok((line, false)),
        Err(_) => {
            let line = decoder.decode(alloc, text, last)?;
            Ok((line, true))
        }
    }
}

/// A line, what it says in one word, and the bytes that it brings, if any are wanted.
type Told<'a> = (&'a str, &'a str, &'a str);

// Decodes lines, each with the one before at hand, and returns whether memory ran out.
fn decode_all<A: Allocator + Copy>(alloc: A, lines: &[Told<'_>]) -> Result<bool, Fail> {
    let mut decoder = LineDecoder::new(alloc);
    let mut last = "".as_bytes();
    let mut ran_out = false;
    for (text, word, wanted) in lines {
        let (line, failed) = decode_again(&mut decoder, alloc, text.as_bytes(), last)?;
        if !is_as(&line, decoder.bytes(), word, wanted) {
            return Err("a line is decoded as another".into());
        }
        ran_out |= failed;
        last = text.as_bytes();
    }
    Ok(ran_out)
}

// Decodes lines with each allocation refused in turn, until none is, and returns how many were.
fn count_refused(rt: &impl Abort, alloc: Global, lines: &[Told<'_>]) -> Result<u64, Fail> {
    for number in 1..100u64 {
        let heap = Refusing::new(alloc, number);
        let ran_out = decode_all(&heap, lines)?;
        assert_eq!(rt; ran_out, heap.has_refused());
        if !ran_out {
            return Ok(number - 1);
        }
    }
    Err("an allocation is always refused".into())
}

#[test]
fn a_decoder_goes_on_after_want_of_memory(rt: HostRuntime) -> Result<(), Fail> {
    let too_long = with_digits(rt.alloc(), "B ", 4098)?;
    let lines = [
        ("I 1 N O", "Instrument", ""),
        ("", "Blank", ""),
        ("A 4a4B", "A", "JK"),
        ("B 4a4B", "B", "JK"),
        ("S 4a4b", "S", "JK"),
        ("X", "Close", ""),
        ("S 4a4b", "S", "JK"),
        ("B 4a4g", "Hex", ""),
        ("A 4a4g", "Hex", ""),
        ("A 4a4b", "A", "JK"),
        ("B 4a b", "LineForm", ""),
        ("B 4a4", "Hex", ""),
        (too_long.as_str(), "TooLong", ""),
        ("A 4a4b", "A", "JK"),
        ("B 4a4c", "B", "JL"),
        ("Q", "LineForm", ""),
    ];
    assert!(rt; count_refused(&rt, rt.alloc(), &lines)? > 2);
    Ok(())
}

// Decodes a datagram by itself, and returns how many bytes it has.
fn count_bytes<A: Allocator + Copy>(
    decoder: &mut LineDecoder<A>,
    alloc: A,
    text: &[u8],
) -> Result<usize, AllocError> {
    match decoder.decode(alloc, text, &text[..0])? {
        DecodedLine::Datagram(_) => Ok(decoder.bytes().len()),
        _ => Ok(0),
    }
}

// Decodes datagrams of 1 to 2,048 bytes, and returns whether each has half as many bytes as digits.
fn decodes_zeros(heap: &Refusing<Global>, alloc: Global) -> Result<bool, Fail> {
    let mut decoder = LineDecoder::new(heap);
    for digits in [2usize, 4096, 30, 32, 4094, 4096] {
        let text = with_digits(alloc, "A ", digits)?;
        if count_bytes(&mut decoder, heap, text.as_str().as_bytes())? != digits / 2 {
            return Ok(false);
        }
    }
    Ok(true)
}

// The second allocation is refused, and none asks for it.
#[test]
fn datagrams_share_the_room_of_the_first(rt: HostRuntime) -> Result<(), Fail> {
    let heap = Refusing::new(rt.alloc(), 2);
    assert!(rt; decodes_zeros(&heap, rt.alloc())?);
    assert!(rt; !heap.has_refused());
    Ok(())
}
