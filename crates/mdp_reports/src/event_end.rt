//! What a worker reports of an event end: the securities of its own that are printed there.

ghost use Rattle.std.specs.Prelude.{◌≡◌, ◌++◌, ◌∷◌, [], map, length, true, OnOk};
ghost use Rattle.mdp_desks.specs.Beside.{AreDueAt};
ghost use Rattle.mdp_desks.specs.Desks.{desk_standing};
ghost use Rattle.mdp_desks.specs.Reports.{of_event_end, told_by, told_there};
ghost use Rattle.mdp_reports.specs.Reporting.{reports_with_all};

use crate::reports::Reports;
use mdp_books::EventEnd;
use mdp_desks::{Desk, Desks, Marked};
use mdp_templates::Memory;
use std::alloc::Allocator;

// Tells of a security whose desk is marked, unless the packet stands not behind its base.
fn tell_due<A: Allocator + Copy>(
    out: &mut Reports<A>,
    end: EventEnd,
    slot: u16,
    desk: &Desk,
) -> Result<(), Memory>
    requires { desk.now.marked ≡ true }
    ensures { OnOk result (out.new ≡ reports_with_all
        (told_there end slot (desk_standing end.packet desk.now)) out.old) }
{
    if end.packet > desk.base {
        let name = &desk.instrument.name;
        out.put_row(end, slot, name, &desk.book)?;
    }
    Ok(())
}

// Tells of the securities whose desks are due.
fn tell_marked<A: Allocator + Copy>(
    out: &mut Reports<A>,
    end: EventEnd,
    slots: &[u16],
    desks: &[Desk],
    marked: &Marked<A>,
) -> Result<(), Memory>
    requires marks { AreDueAt end.packet marked.now desks.now }
    requires many { length slots.now ≡ length desks.now }
    ensures { OnOk result (out.new ≡ reports_with_all
        (told_by end slots.now (map (desk_standing end.packet) desks.now)) out.old) }
{
    let mut from = 0;
    while let Some(n) = marked.next_from(from) {
        tell_due(out, end, slots[n], &desks[n])?;
        from = n + 1;
    }
    Ok(())
}

/// Reports an event end: of the securities of these desks, which stand at these slots, those that are
/// printed there. A desk that is not marked is not looked at, nor one that waits for a later packet.
pub(crate) fn report_event_end<A: Allocator + Copy>(
    desks: &Desks<A>,
    slots: &[u16],
    end: EventEnd,
    out: &mut Reports<A>,
) -> Result<(), Memory>
    requires { length slots.now ≡ length desks.now }
    ensures { OnOk result (out.new ≡ out.old
        ++ of_event_end end (told_by end slots.now (map (desk_standing end.packet) desks.now)) ∷ []) }
{
    out.begin(end)?;
    tell_marked(out, end, slots, desks.as_slice(), desks.due_at(end.packet))?;
    Ok(())
}
