//! The lines of calendar spreads where an event ends.

ghost use Rattle.std.specs.Prelude.{◌≡◌, ◌++◌, ◌&&◌, ◌||◌, false, get_or, nat_lt, map, length, OnErr, OnOk};
ghost use Rattle.std.specs.List.{flat_map};
ghost use Rattle.mdp_print.specs.Pieces.{BreaksOff};
ghost use Rattle.mdp_desks.specs.Desks.{desk_standing};
ghost use Rattle.mdp_engine.specs.Spreads.{spread_line};
ghost use Rattle.mdp_desks.specs.Lines.{verdicts_text, spread_text, audit_text};
ghost use Rattle.mdp_desks.specs.Beside.{listed_in, marks_of};
ghost use Rattle.mdp_engine.specs.Parts.{AreSilent};
ghost use Rattle.mdp_engine.specs.Spreads.{AreSpreadsOf, IsUnder};

use crate::spreads::Spread;
use mdp_books::EventEnd;
use mdp_desks::{Desk, Marked};
use mdp_print::{EventText, put_audit, put_audit_under};
use mdp_quotes::{Best, audit};
use mdp_templates::{Memory, Name};
use std::alloc::Allocator;

/// Appends the verdicts of a spread against its legs, unless one of the three has no best levels.
pub fn put_verdicts<A: Allocator>(
    out: &mut Vec<u8, A>,
    end: EventEnd,
    name: &Name,
    spread: Option<Best>,
    leg1: Option<Best>,
    leg2: Option<Best>,
) -> Result<(), Memory>
    ensures ok { OnOk result (out.new.items ≡ out.old.items
        ++ verdicts_text end name.now spread leg1 leg2) }
    ensures err { OnErr result (out.new.items ≡ out.old.items) }
{
    match (spread, leg1, leg2) {
        (Some(spread), Some(leg1), Some(leg2)) => {
            let [bid, offer] = audit(&spread, &leg1, &leg2);
            put_audit(out, end, name, bid, offer)
        }
        _ => Ok(()),
    }
}

// Appends the verdicts of a spread against its legs as `put_verdicts` does, of what all lines of the event end have in
// common.
fn put_verdicts_under<A: Allocator>(
    out: &mut Vec<u8, A>,
    event: &EventText,
    name: &Name,
    spread: Option<Best>,
    leg1: Option<Best>,
    leg2: Option<Best>,
) -> Result<(), Memory>
    ensures ok { OnOk result (out.new.items ≡ out.old.items
        ++ verdicts_text event.now name.now spread leg1 leg2) }
    ensures err { OnErr result (out.new.items ≡ out.old.items) }
{
    let (Some(spread), Some(leg1), Some(leg2)) = (spread, leg1, leg2) else {
        return Ok(());
    };
    let [bid, offer] = audit(&spread, &leg1, &leg2);
    put_audit_under(out, event, name, bid, offer)
}

/// Returns whether one of the marks of a spread and its legs is set.
pub fn is_one_marked<A: Allocator>(marked: &Marked<A>, spread: &Spread) -> bool
    requires { IsUnder (length marked.now) spread.now }
    ensures { result ≡ (get_or marked.now spread.now.slot false
        || get_or marked.now spread.now.leg1 false || get_or marked.now spread.now.leg2 false) }
{
    is_one_set(
        marked.is_set(spread.slot),
        marked.is_set(spread.leg1),
        marked.is_set(spread.leg2),
    )
}

// Returns whether one of three marks is set.
fn is_one_set(spread: bool, leg1: bool, leg2: bool) -> bool
    ensures { result ≡ (spread || leg1 || leg2) }
{
    spread || leg1 || leg2
}

// Returns whether the packet stands behind the bases of all three.
fn are_current(packet: u32, spread: &Desk, leg1: &Desk, leg2: &Desk) -> bool
    ensures { result ≡ (nat_lt spread.now.base packet && nat_lt leg1.now.base packet
        && nat_lt leg2.now.base packet) }
{
    packet > spread.base && packet > leg1.base && packet > leg2.base
}

// Appends the line of a spread where an event end prints it or one of its legs, and stands behind the
// bases of all three. `is_one_marked` tells whether it prints one; the desks are looked at only then.
fn put_spread<A: Allocator>(
    out: &mut Vec<u8, A>,
    event: &EventText,
    spread: &Desk,
    leg1: &Desk,
    leg2: &Desk,
    is_one_marked: bool,
) -> Result<(), Memory>
    requires { is_one_marked ≡ (spread.now.marked || leg1.now.marked || leg2.now.marked) }
    ensures ok { OnOk result (out.new.items ≡ out.old.items
        ++ spread_text event.now (desk_standing event.now.packet spread.now)
        (desk_standing event.now.packet leg1.now) (desk_standing event.now.packet leg2.now)) }
    ensures err { OnErr result (out.new.items ≡ out.old.items) }
{
    if !is_one_marked {
        return Ok(());
    }
    if !are_current(event.end().packet, spread, leg1, leg2) {
        return Ok(());
    }
    put_verdicts_under(
        out,
        event,
        &spread.instrument.name,
        Best::of(spread.book.book()),
        Best::of(leg1.book.book()),
        Best::of(leg2.book.book()),
    )
}

// Appends the line of the spread at these places.
fn put_audit_at<A: Allocator>(
    out: &mut Vec<u8, A>,
    event: &EventText,
    desks: &[Desk],
    marked: &Marked<A>,
    spread: &Spread,
) -> Result<(), Memory>
    requires marks { marked.now ≡ marks_of desks.now }
    requires under { IsUnder (length desks.now) spread.now }
    ensures ok { OnOk result (out.new.items ≡ out.old.items
        ++ spread_line event.now desks.now spread.now) }
    ensures err { OnErr result (out.new.items ≡ out.old.items) }
{
    put_spread(
        out,
        event,
        &desks[spread.slot],
        &desks[spread.leg1],
        &desks[spread.leg2],
        is_one_marked(marked, spread),
    )
}

/// Appends the lines that an event end owes of the calendar spreads among these securities. Only spreads that are
/// marked in `due` are looked at, and their marks go. Where none is, the event end isn't put together as text.
pub(crate) fn put_due_audits<A: Allocator>(
    out: &mut Vec<u8, A>,
    end: EventEnd,
    desks: &[Desk],
    marked: &Marked<A>,
    spreads: &[Spread],
    due: &mut Marked<A>,
) -> Result<(), Memory>
    requires marks { marked.now ≡ marks_of desks.now }
    requires spreads { AreSpreadsOf (listed_in desks.now) spreads.now }
    requires many { length due.old ≡ length spreads.now }
    requires silent { AreSilent (spread_line end desks.now) spreads.now due.old }
    ensures long { length due.new ≡ length due.old }
    ensures text { OnOk result (out.new.items ≡ out.old.items
        ++ flat_map (audit_text end (map (desk_standing end.packet) desks.now))
        (map (desk_standing end.packet) desks.now)) }
    ensures err { OnErr result (BreaksOff
        (flat_map (audit_text end (map (desk_standing end.packet) desks.now))
        (map (desk_standing end.packet) desks.now)) out.old.items out.new.items) }
{
    match due.next_from(0) {
        Some(_) => put_audits(out, &EventText::new(end), desks, marked, spreads, due),
        None => Ok(()),
    }
}

// Appends these lines, of what all of them have in common.
fn put_audits<A: Allocator>(
    out: &mut Vec<u8, A>,
    event: &EventText,
    desks: &[Desk],
    marked: &Marked<A>,
    spreads: &[Spread],
    due: &mut Marked<A>,
) -> Result<(), Memory>
    requires marks { marked.now ≡ marks_of desks.now }
    requires spreads { AreSpreadsOf (listed_in desks.now) spreads.now }
    requires many { length due.old ≡ length spreads.now }
    requires silent { AreSilent (spread_line event.now desks.now) spreads.now due.old }
    ensures long { length due.new ≡ length due.old }
    ensures text { OnOk result (out.new.items ≡ out.old.items
        ++ flat_map (audit_text event.now (map (desk_standing event.now.packet) desks.now))
        (map (desk_standing event.now.packet) desks.now)) }
    ensures err { OnErr result (BreaksOff
        (flat_map (audit_text event.now (map (desk_standing event.now.packet) desks.now))
        (map (desk_standing event.now.packet) desks.now)) out.old.items out.new.items) }
{
    let mut from = 0;
    while let Some(n) = due.next_from(from) {
        due.put(n, false);
        put_audit_at(out, event, desks, marked, &spreads[n])?;
        from = n + 1;
    }
    Ok(())
}
