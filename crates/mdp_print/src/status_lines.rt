//! The lines of faulty books, jumps and refused datagrams, and the last line.

ghost use Rattle.std.specs.Prelude.{◌≡◌, ◌≤◌, ◌++◌, length, codes};
ghost use Rattle.mdp_print.specs.Texts.{place_text, fault_line, jump_line, refusal_line, last_line};
ghost use Rattle.mdp_print.specs.Pieces.{Appends};

use crate::pieces::{put, put_event};
use mdp_books::{EventEnd, Place, ShortText, TextFromEnd};
use mdp_sbe::Refusal;
use mdp_templates::{Feed, Memory, Name};
use std::alloc::Allocator;

// The text of an `F` line.
type FaultText = TextFromEnd<128>;

// Gives the end of an `F` line: the place of an entry.
fn end_at(place: &Place) -> FaultText
    ensures text { result ≡ codes " " ++ place_text place.now ++ codes "\n" }
    ensures size { length result ≤ 64 }
{
    let mut text = FaultText::new();
    text.put_byte(b'\n');
    text.put_number(u64::from(place.entry));
    text.put_byte(b'.');
    text.put_number(place.message);
    text.put_byte(b'.');
    text.put_number(u64::from(place.packet));
    text.put_byte(b' ');
    text
}

/// Appends the `F` line of a faulty book where an event ends, with the place of its first impossible
/// entry. Where memory runs out the vector is as before.
#[tactic(auto, unfolding(crate::specs::Texts::fault_line))]
pub fn put_fault<A: Allocator>(
    out: &mut Vec<u8, A>,
    end: EventEnd,
    name: &Name,
    place: &Place,
) -> Result<(), Memory>
    ensures { Appends (fault_line end name.now place.now) out.old out.new result }
{
    let mut text = end_at(place);
    put_event(&mut text, end, name);
    text.put_bytes(b"F ");
    put(out, text.as_slice())
}

/// Appends the `J` line of a jump, with the number of the next packet before and after it. Where
/// memory runs out the vector is as before.
#[tactic(auto, unfolding(crate::specs::Texts::jump_line))]
pub fn put_jump<A: Allocator>(out: &mut Vec<u8, A>, old: u64, new: u64) -> Result<(), Memory>
    ensures { Appends (jump_line old new) out.old out.new result }
{
    let mut text = ShortText::new();
    text.put_byte(b'\n');
    text.put_number(new);
    text.put_byte(b' ');
    text.put_number(old);
    text.put_byte(b' ');
    text.put_byte(b'J');
    put(out, text.as_slice())
}

/// Appends the `X` line of a refused datagram: its feed, its line of the capture, counted from 1, and
/// the number and the name of the refusal. Where memory runs out the vector is as before.
#[tactic(auto, using(crate::proofs::Names::refusal_name_short), unfolding(crate::specs::Texts::refusal_line))]
pub fn put_refusal<A: Allocator>(
    out: &mut Vec<u8, A>,
    feed: Feed,
    line: u32,
    refusal: Refusal,
) -> Result<(), Memory>
    ensures { Appends (refusal_line feed line refusal) out.old out.new result }
{
    let mut text = ShortText::new();
    text.put_byte(b'\n');
    text.put_bytes(refusal.name().as_bytes());
    text.put_byte(b' ');
    text.put_number(u64::from(refusal.number()));
    text.put_byte(b' ');
    text.put_number(u64::from(line));
    text.put_byte(b' ');
    text.put_byte(feed.letter());
    text.put_byte(b' ');
    text.put_byte(b'X');
    put(out, text.as_slice())
}

/// Appends the `Z` line of the end: the number of the next packet, and whether that packet is given up. Where
/// memory runs out the vector is as before.
#[tactic(auto, unfolding(crate::specs::Texts::last_line))]
pub fn put_last<A: Allocator>(out: &mut Vec<u8, A>, next: u64, lost: bool) -> Result<(), Memory>
    ensures { Appends (last_line next lost) out.old out.new result }
{
    let mut text = ShortText::new();
    text.put_byte(b'\n');
    text.put_bytes(if lost { b"lost" } else { b"live" });
    text.put_byte(b' ');
    text.put_number(next);
    text.put_byte(b' ');
    text.put_byte(b'Z');
    put(out, text.as_slice())
}
