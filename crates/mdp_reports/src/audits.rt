//! The lines of calendar spreads where an event ends, by the best levels that are kept.

ghost use Rattle.std.specs.Prelude.{◌≡◌, ◌++◌, length, slice_get, OnOk};
ghost use Rattle.std.specs.List.{flat_map, AllByRecursion};
ghost use Rattle.mdp_reports.specs.Rounds.{best_kept, name_of};
ghost use Rattle.mdp_engine.specs.Parts.{AreQuiet};
ghost use Rattle.mdp_engine.specs.Spreads.{IsUnder};
ghost use Rattle.mdp_reports.specs.Taking.{marked_line};

use arrayvec::ArrayString;
use mdp_books::EventEnd;
use mdp_desks::Marked;
use mdp_engine::{Spread, is_one_marked, put_verdicts};
use mdp_quotes::Best;
use mdp_templates::{Instrument, Memory, Name};
use std::alloc::Allocator;

// Gives the best levels that are kept of a slot, if any.
fn kept_at(kept: &[Option<Best>], slot: usize) -> Option<Best>
    ensures { result ≡ best_kept (slice_get kept.now slot) }
{
    match kept.get(slot) {
        Some(best) => *best,
        None => None,
    }
}

// Gives the name of the security at a slot, an empty one where none is listed there.
fn name_at(listed: &[Instrument], slot: usize) -> Name
    ensures { result ≡ name_of (slice_get listed.now slot) }
{
    match listed.get(slot) {
        Some(instrument) => instrument.name.copy(),
        None => Name::new(ArrayString::new()),
    }
}

// Appends the line of a spread of which one of the three is marked.
fn put_marked<A: Allocator>(
    out: &mut Vec<u8, A>,
    end: EventEnd,
    listed: &[Instrument],
    spread: &Spread,
    kept: &[Option<Best>],
    marks: &Marked<A>,
) -> Result<(), Memory>
    requires { IsUnder (length marks.now) spread.now }
    ensures { OnOk result (out.new.items ≡ out.old.items
        ++ marked_line end listed.now marks.now kept.now spread.now) }
{
    if !is_one_marked(marks, spread) {
        return Ok(());
    }
    put_verdicts(
        out,
        end,
        &name_at(listed, spread.slot),
        kept_at(kept, spread.slot),
        kept_at(kept, spread.leg1),
        kept_at(kept, spread.leg2),
    )
}

/// Appends the lines of the spreads of which one of the three is marked. Only spreads that are marked in `due` are
/// looked at, and their marks go.
pub(crate) fn put_audits<A: Allocator>(
    out: &mut Vec<u8, A>,
    end: EventEnd,
    listed: &[Instrument],
    spreads: &[Spread],
    kept: &[Option<Best>],
    marks: &Marked<A>,
    due: &mut Marked<A>,
) -> Result<(), Memory>
    requires under { AllByRecursion (IsUnder (length marks.now)) spreads.now }
    requires many { length due.old ≡ length spreads.now }
    requires quiet { AreQuiet marks.now spreads.now due.old }
    ensures long { length due.new ≡ length due.old }
    ensures text { OnOk result (out.new.items ≡ out.old.items
        ++ flat_map (marked_line end listed.now marks.now kept.now) spreads.now) }
{
    let mut from = 0;
    while let Some(n) = due.next_from(from) {
        due.put(n, false);
        put_marked(out, end, listed, &spreads[n], kept, marks)?;
        from = n + 1;
    }
    Ok(())
}
