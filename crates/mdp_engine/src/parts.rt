//! Which calendar spreads each listed security is part of, so that an event end finds those that it may audit.

ghost use Rattle.std.specs.Prelude.{◌≡◌, ◌<◌, ℕ, [], true, false, All, IfOk, OnOk, get_or, length, replicate};
ghost use Rattle.mdp_engine.specs.Parts.{AreDue, AreParts, IsPart, lists_in, with_part, with_parts};
ghost use Rattle.mdp_engine.specs.Spreads.{IsUnder};

use crate::spreads::Spread;
use mdp_desks::Marked;
use mdp_templates::Memory;
use std::alloc::Allocator;

// Notes that the security at a place is part of spread `n`.
fn note_at<A: Allocator>(parts: &mut [Vec<usize, A>], slot: usize, n: usize) -> Result<(), Memory>
    requires { slot < length parts.old }
    ensures { OnOk result (lists_in parts.new ≡ with_part slot n (lists_in parts.old)) }
{
    parts[slot].push(n)?;
    Ok(())
}

// Notes the security of spread `n` and its legs.
fn note_spread<A: Allocator>(
    parts: &mut [Vec<usize, A>],
    spread: &Spread,
    n: usize,
) -> Result<(), Memory>
    requires { IsUnder (length parts.old) spread.now }
    ensures { OnOk result (lists_in parts.new ≡ with_parts n spread.now (lists_in parts.old)) }
{
    note_at(parts, spread.slot, n)?;
    note_at(parts, spread.leg1, n)?;
    note_at(parts, spread.leg2, n)
}

// Makes so many lists, with nothing in them.
fn no_parts<A: Allocator + Copy>(alloc: A, count: usize) -> Result<Vec<Vec<usize, A>, A>, Memory>
    ensures { IfOk result (λ parts. lists_in parts.items ≡ replicate count []) }
{
    let mut parts = Vec::with_capacity(alloc, count)?;
    while parts.len() < count {
        parts.push(Vec::new(alloc))?;
    }
    Ok(parts)
}

/// Lists, for each of `count` securities, the spreads that it is part of, by their places among these.
///
/// # Errors
///
/// Memory ran out.
pub fn parts_of<A: Allocator + Copy>(
    alloc: A,
    count: usize,
    spreads: &[Spread],
) -> Result<Vec<Vec<usize, A>, A>, Memory>
    requires { All (IsUnder count) spreads.now }
    ensures { IfOk result (λ parts. AreParts count (length spreads.now) spreads.now
        (lists_in parts.items)) }
{
    let mut parts = no_parts(alloc, count)?;
    for n in 0..spreads.len() {
        note_spread(&mut parts, &spreads[n], n)?;
    }
    Ok(parts)
}

// Sets the marks at these places.
fn mark_each<A: Allocator>(due: &mut Marked<A>, places: &[usize])
    requires { All (λ n. n < length due.old) places.now }
    ensures long { length due.new ≡ length due.old }
    ensures kept { (n : ℕ) → get_or due.old n false ≡ true → get_or due.new n false ≡ true }
    ensures marked { All (λ n. get_or due.new n false ≡ true) places.now }
{
    for n in places {
        due.put(*n, true);
    }
}

/// Marks each spread of which a part is marked, by what `parts_of` lists. Marks that are set stay.
pub fn mark_spreads<A: Allocator>(due: &mut Marked<A>, marked: &Marked<A>, parts: &[Vec<usize, A>])
    requires many { length parts.now ≡ length marked.now }
    requires within { (slot n : ℕ) → IsPart (lists_in parts.now) slot n → n < length due.old }
    ensures long { length due.new ≡ length due.old }
    ensures due { AreDue marked.now (lists_in parts.now) due.new }
{
    let mut from = 0;
    while let Some(slot) = marked.next_from(from) {
        mark_each(due, &parts[slot]);
        from = slot + 1;
    }
}
