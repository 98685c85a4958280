//! Instruments that stand in a text, a line each.

ghost use Rattle.std.specs.Prelude.{◌≡◌, ◌<◌, ◌≤◌, ◌∷◌, IfErr, IfOk, OnOk, drop, length, take};
ghost use Rattle.std.specs.Str.Lines.{lines, strip_carriage_return};
ghost use Rattle.mdp_capture.specs.Line.{line_of};
ghost use Rattle.mdp_capture.specs.Listed.{answer_after, instrument_said, listed_after_line};
ghost use Rattle.mdp_session.specs.Listing.{AreListed, IsListFault, entries_of_text, unlisted_after, why_in};

use crate::list_fault::{ListFault, Unlisted};
use mdp_capture::{InstrumentList, ListedLine};
use memchr::memchr;
use std::alloc::{AllocError, Global};

/// Lists the instruments of a text, of which each line is an `I` line of a capture, in their order.
///
/// # Errors
///
/// `Unlisted` at the first line that isn't listed, by its number from 1: it is no `I` line, as an empty one, or its
/// instrument is refused behind those before it. `Memory` where memory ran out.
pub fn list_text(alloc: Global, text: &[u8]) -> Result<InstrumentList<Global>, ListFault>
    ensures listed { IfOk result (AreListed (entries_of_text text.now)) }
    ensures fault { IfErr result (IsListFault 1 (entries_of_text text.now)) }
{
    let mut list = InstrumentList::new(alloc);
    let mut at = 0usize;
    let mut before = 0u64;
    while at < text.len() {
        let rest = &text[at..];
        let (length, end) = first_line(rest);
        let number = before + 1;
        match list_line(&mut list, &rest[..length])? {
            Some(why) => return Err(ListFault::Unlisted { number, why }),
            None => {}
        }
        at += end;
        before = number;
    }
    Ok(list)
}

// Lists the instrument that a line says behind the others, or tells why not.
fn list_line(list: &mut InstrumentList<Global>, line: &[u8]) -> Result<Option<Unlisted>, AllocError>
    ensures answer { IfOk result (λ why.
        why ≡ unlisted_after list.old (instrument_said (line_of line.now))) }
    ensures list { OnOk result (list.new
        ≡ listed_after_line list.old (instrument_said (line_of line.now))) }
{
    let answer = list.take_line(line)?;
    Ok(why_in(answer))
}

// Returns why a line isn't listed, by what was answered to it.
fn why_in(answer: ListedLine) -> Option<Unlisted>
    ensures { result ≡ why_in answer }
{
    match answer {
        ListedLine::Listed => None,
        ListedLine::Refused(refusal) => Some(Unlisted::Refused(refusal)),
        ListedLine::NoSuchLine => Some(Unlisted::NoInstrument),
    }
}

// Returns how many bytes the first line of a text has, and how many with its end.
fn first_line(text: &[u8]) -> (usize, usize)
    requires { 0 < length text.now }
    ensures line { lines text.now ≡ take result.0 text.now ∷ lines (drop result.1 text.now) }
    ensures order { result.0 ≤ result.1 }
    ensures some { 1 ≤ result.1 }
    ensures inside { result.1 ≤ length text.now }
{
    match memchr(b'\n', text) {
        Some(end) => (bytes_before(text, end), end + 1),
        None => (text.len(), text.len()),
    }
}

// Returns how many bytes a line has without the carriage return at its end, where its line feed stands here.
fn bytes_before(text: &[u8], end: usize) -> usize
    requires { end ≤ length text.now }
    ensures line { take result text.now ≡ strip_carriage_return (take end text.now) }
    ensures few { result ≤ end }
{
    if end > 0 && text[end - 1] == b'\r' {
        return end - 1;
    }
    end
}
