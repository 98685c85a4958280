//! What is made of all that a moment tells: lines, rows of a board, the best levels that are kept, and a mark for each
//! security.

ghost use Rattle.std.specs.Prelude.{◌≡◌, ◌++◌, OnOk, None, set, map, length, true};
ghost use Rattle.mdp_reports.specs.Rounds.{all_by_slot, kept_after};
ghost use Rattle.mdp_reports.specs.BoardSteps.{row_with};
ghost use Rattle.mdp_reports.specs.Steps.{steps_with_told};
ghost use Rattle.mdp_reports.specs.Taking.{lines_told, marks_after};

use crate::board_steps::BoardSteps;
use crate::merge::take_next;
use crate::rest::Rest;
use mdp_books::EventEnd;
use mdp_desks::Marked;
use mdp_lanes::Row;
use mdp_quotes::{Best, TopOfBook};
use mdp_templates::Memory;
use std::alloc::Allocator;

// Keeps the best levels of a slot, and marks it. A slot past the end changes nothing.
fn keep<A: Allocator>(
    kept: &mut [Option<Best>],
    marks: &mut Marked<A>,
    slot: u16,
    best: Option<Best>,
)
    requires { length kept.old ≡ length marks.old }
    ensures kept { kept.new ≡ set kept.old slot best }
    ensures marks { marks.new ≡ set marks.old slot true }
{
    let slot = usize::from(slot);
    if slot < kept.len() {
        kept[slot] = best;
        marks.put(slot, true);
    }
}

// Gives the row of a security whose book has this top; none is a fault.
fn row_with(end: EventEnd, top: Option<TopOfBook>) -> Row
    ensures { result ≡ row_with end top }
{
    match top {
        Some(top) => Row::Top {
            packet: end.packet,
            message: end.message,
            bid: top.bid,
            offer: top.offer,
        },
        None => Row::Fault {
            packet: end.packet,
            message: end.message,
        },
    }
}

/// Appends the lines of all that is told, in slot order, and its rows to the last step, keeps its best levels, and
/// marks its slots.
pub(crate) fn put_all_told<A: Allocator + Copy>(
    end: EventEnd,
    left: &mut [Rest],
    out: &mut Vec<u8, A>,
    steps: &mut BoardSteps<A>,
    kept: &mut [Option<Best>],
    marks: &mut Marked<A>,
) -> Result<(), Memory>
    requires { length kept.old ≡ length marks.old }
    ensures text { OnOk result (out.new.items ≡ out.old.items
        ++ lines_told (all_by_slot left.old)) }
    ensures steps { OnOk result (steps.new
        ≡ steps_with_told end (all_by_slot left.old) steps.old) }
    ensures kept { OnOk result (kept.new ≡ kept_after (all_by_slot left.old) kept.old) }
    ensures marks { OnOk result (marks.new ≡ marks_after (all_by_slot left.old) marks.old) }
    ensures kept_long { length kept.new ≡ length kept.old }
    ensures marks_long { length marks.new ≡ length marks.old }
{
    while let Some(line) = take_next(left) {
        out.extend_from_slice(line.lines)?;
        steps.put(line.slot, row_with(end, line.top))?;
        keep(kept, marks, line.slot, line.best);
    }
    Ok(())
}

/// Forgets all best levels.
pub(crate) fn forget(kept: &mut [Option<Best>])
    ensures { kept.new ≡ map (λ _. None) kept.old }
{
    for n in 0..kept.len() {
        kept[n] = None;
    }
}
