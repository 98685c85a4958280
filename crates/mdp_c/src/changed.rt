//! The call that tells which securities changed.

ghost use Rattle.std.specs.Prelude.{◌≡◌, ◌<◌, ◌≤◌, ◌++◌, IfNone, IfSome, drop, length, min};
ghost use Rattle.mdp_desks.specs.Beside.{AreClear, IsFirstSet};
ghost use Rattle.mdp_c.specs.Changed.{changed_slots, slots_copied, slots_count, slots_of, slots_status};
ghost use Rattle.mdp_c.specs.Copies.{copied, room_status};

use crate::handle::Handle;
use crate::status::{CLOSED, DONE, TOO_SHORT};
use mdp_desks::Marked;
use std::alloc::Global;

/// Reports the slots of the securities whose books an event end printed since lines were cleared last, each once and
/// ascending, and how many there are.
///
/// Answers 0; 81; or 84 where `slots` has no room for all. At 84 nothing but `count` is written, and at 81 not even
/// that.
#[unsafe(no_mangle)]
pub extern "C" fn mdp_changed(handle: &mut Handle, slots: &mut [u32], count: &mut u64) -> u32
    ensures status { result ≡ slots_status (changed_slots handle.old.held) (length slots.old) }
    ensures stays { handle.new.held ≡ handle.old.held }
    ensures slots { slots.new ≡ slots_copied (changed_slots handle.old.held) slots.old }
    ensures count { count.new ≡ slots_count (changed_slots handle.old.held) count.old }
{
    if !handle.is_open() {
        return CLOSED;
    }
    let marked = handle.session().changed();
    if marked.is_clear() {
        *count = 0;
        return DONE;
    }
    report_slots(marked, slots, count)
}

// Reports the places of the marks that are set, and how many they are. Not part of the call above, since most datagrams
// change no book, and that one then saves no registers.
#[inline(never)]
fn report_slots(marked: &Marked<Global>, slots: &mut [u32], count: &mut u64) -> u32
    ensures status { result ≡ room_status (slots_of marked.now) (length slots.old) }
    ensures slots { slots.new ≡ copied (slots_of marked.now) slots.old }
    ensures count { count.new ≡ length (slots_of marked.now) }
{
    if let Some(many) = past_room(marked, slots.len()) {
        *count = many;
        return TOO_SHORT;
    }
    *count = put_slots(marked, slots) as u64;
    DONE
}

// Returns how many marks are set where there is no room for all. Room for each mark that there is saves counting them.
#[tactic(auto, using(crate::proofs::Slots::few_of_marks))]
fn past_room(marked: &Marked<Global>, room: usize) -> Option<u64>
    ensures some { IfSome result
        (λ many. (many ≡ length (slots_of marked.now)) × (room < many)) }
    ensures none { IfNone result (length (slots_of marked.now) ≤ room) }
{
    if marked.len() <= room {
        return None;
    }
    let many = count_slots(marked);
    if many <= room as u64 {
        return None;
    }
    Some(many)
}

// Returns how many marks are set.
#[cold]
fn count_slots(marked: &Marked<Global>) -> u64
    ensures { result ≡ length (slots_of marked.now) }
{
    let mut count = 0u64;
    let mut from = 0usize;
    while let Some(slot) = next_slot(marked, from) {
        count += 1;
        from = slot as usize + 1;
    }
    count
}

// Puts the places of the marks that are set at the front of an array that has room for them, and returns how many they
// are.
fn put_slots(marked: &Marked<Global>, slots: &mut [u32]) -> usize
    requires { length (slots_of marked.now) ≤ length slots.old }
    ensures count { result ≡ length (slots_of marked.now) }
    ensures slots { slots.new
        ≡ slots_of marked.now ++ drop (length (slots_of marked.now)) slots.old }
{
    let mut count = 0usize;
    let mut from = 0usize;
    while let Some(slot) = next_slot(marked, from) {
        slots[count] = slot;
        count += 1;
        from = slot as usize + 1;
    }
    count
}

// Finds the first mark that is set, from a place on, and tells its place, which has 32 bits.
fn next_slot(marked: &Marked<Global>, from: usize) -> Option<u32>
    ensures some { IfSome result
        (λ slot. IsFirstSet from (min (length marked.now) 4294967296) slot marked.now) }
    ensures none { IfNone result
        (AreClear from (min (length marked.now) 4294967296) marked.now) }
{
    let slot = marked.next_from(from)?;
    u32::try_from(slot).ok()
}
