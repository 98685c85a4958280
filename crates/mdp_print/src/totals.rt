//! The totals of a consolidated side, appended one by one.

ghost use Rattle.mdp_books.specs.Levels.{quote_text};
ghost use Rattle.mdp_print.specs.Texts.{totals_text};
ghost use Rattle.mdp_print.specs.Pieces.{Appends, Extends};

use crate::pieces::put;
use mdp_books::TextFromEnd;
use mdp_quotes::Total;
use mdp_templates::Memory;
use std::alloc::Allocator;

// The text of one total.
type TotalText = TextFromEnd<44>;

/// Appends the text of one total.
#[inline]
pub(crate) fn put_total<A: Allocator>(out: &mut Vec<u8, A>, total: &Total) -> Result<(), Memory>
    ensures { Extends (quote_text total.now.price total.now.size) out.old out.new result }
{
    let mut text = TotalText::new();
    text.put_quote(total.price, total.size);
    put(out, text.as_slice())
}

/// Appends the texts of totals.
pub(crate) fn put_totals<A: Allocator>(out: &mut Vec<u8, A>, totals: &[Total]) -> Result<(), Memory>
    ensures { Extends (totals_text totals.now) out.old out.new result }
{
    for total in totals {
        put_total(out, total)?;
    }
    Ok(())
}
