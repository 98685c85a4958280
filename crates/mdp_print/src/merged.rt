//! The totals of a side whose prices are in order, appended from the text of its levels.

ghost use Rattle.std.specs.Prelude.{◌≡◌, ◌+◌, ◌-◌, ◌≤◌, take, drop, length, IfOk};
ghost use Rattle.mdp_books.specs.Levels.{quote_text, levels_text};
ghost use Rattle.mdp_quotes.specs.Entering.{total_of};
ghost use Rattle.mdp_quotes.specs.Merged.{merged, passed_by, totals_to};
ghost use Rattle.mdp_print.specs.Texts.{totals_text};
ghost use Rattle.mdp_print.specs.Pieces.{Appends, Extends};

use crate::pieces::put;
use crate::totals::put_total;
use mdp_books::PrintedLevels;
use mdp_quotes::{MergePlace, Way, merge_place_of};
use mdp_templates::{DIRECT_DEPTH, IMPLIED_DEPTH, Level, Memory};
use std::alloc::Allocator;

// Appends the text of the levels from `from` on and below `to`, counted from 0.
fn put_levels<A: Allocator>(
    out: &mut Vec<u8, A>,
    printed: &PrintedLevels<DIRECT_DEPTH>,
    from: usize,
    to: usize,
) -> Result<(), Memory>
    requires order { from ≤ to }
    requires inside { to ≤ length printed.now }
    ensures { Extends (levels_text (take (to - from)
        (drop from printed.now))) out.old out.new result }
{
    if from < to {
        return put(out, printed.text_of(from, to));
    }
    Ok(())
}

// Appends the text of an implied level that stands so among direct ones: its own, unless one of them stands at its
// price.
fn put_at_place<A: Allocator>(
    out: &mut Vec<u8, A>,
    place: &MergePlace,
    text: &[u8],
) -> Result<(), Memory>
    requires alone { place.now.passed ≡ place.now.ahead
        → text.now ≡ quote_text place.now.total.price place.now.total.size }
    ensures { Extends (quote_text place.now.total.price place.now.total.size) out.old out.new
        result }
{
    if place.passed == place.ahead {
        return put(out, text);
    }
    put_total(out, &place.total)
}

// Appends the texts of the totals up to an implied level, of which this is the text, behind the direct levels that were
// passed, and returns how many of these are passed then.
fn put_up_to<A: Allocator>(
    out: &mut Vec<u8, A>,
    way: Way,
    direct: &PrintedLevels<DIRECT_DEPTH>,
    passed: usize,
    level: &Level,
    text: &[u8],
) -> Result<usize, Memory>
    requires passed { passed ≤ length direct.now }
    requires text { text.now ≡ quote_text level.now.price level.now.size }
    ensures passed { IfOk result (λ n. n
        ≡ passed + passed_by way level.now (drop passed direct.now)) }
    ensures inside { IfOk result (λ n. n ≤ length direct.now) }
    ensures extends { Extends (totals_text
        (totals_to way level.now (drop passed direct.now))) out.old out.new result }
{
    let place = merge_place_of(way, &direct.levels()[passed..], level);
    put_levels(out, direct, passed, passed + place.ahead)?;
    put_at_place(out, &place, text)?;
    Ok(passed + place.passed)
}

/// Appends the texts of the totals of a side that is in order: each implied level at its price among the direct ones.
pub(crate) fn put_merged_levels<A: Allocator>(
    out: &mut Vec<u8, A>,
    way: Way,
    direct: &PrintedLevels<DIRECT_DEPTH>,
    implied: &PrintedLevels<IMPLIED_DEPTH>,
) -> Result<(), Memory>
    ensures { Extends (totals_text (merged way direct.now implied.now)) out.old out.new result }
{
    let levels = implied.levels();
    let mut passed = 0;
    for n in 0..levels.len() {
        let text = implied.text_of(n, n + 1);
        passed = put_up_to(out, way, direct, passed, &levels[n], text)?;
    }
    put_levels(out, direct, passed, direct.len())?;
    Ok(())
}
