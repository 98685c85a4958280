//! The lines of a book where an event ends.

ghost use Rattle.std.specs.Prelude.{◌≡◌, ◌++◌, IfOk, OnErr, OnOk};
ghost use Rattle.mdp_quotes.specs.Consolidation.{quotes_of};
ghost use Rattle.mdp_quotes.specs.Top.{top_of_book, top_of_quotes};
ghost use Rattle.mdp_print.specs.Pieces.{BreaksOff};
ghost use Rattle.mdp_print.specs.Texts.{consolidated_line};
ghost use Rattle.mdp_desks.specs.Lines.{book_lines};

use mdp_books::{Book, EventEnd, Sides};
use mdp_print::{Head, put_consolidated, put_direct, put_fault, put_implied, put_merged};
use mdp_quotes::{Consolidated, Live, TopOfBook, are_in_order, merged_top};
use mdp_templates::{Memory, Name};
use std::alloc::Allocator;

// Appends the `C` line of a good book's sides, and hands back the top of what it shows.
fn put_totals<A: Allocator>(
    out: &mut Vec<u8, A>,
    head: &Head,
    sides: &Sides,
) -> Result<TopOfBook, Memory>
    ensures line { OnOk result (out.new.items ≡ out.old.items
        ++ consolidated_line head.now (quotes_of sides.now).bids (quotes_of sides.now).offers) }
    ensures err { OnErr result (out.new.items ≡ out.old.items) }
    ensures top { IfOk result (λ top. top ≡ top_of_quotes (quotes_of sides.now)) }
{
    if are_in_order(sides) {
        put_merged(out, head, sides)?;
        return Ok(merged_top(sides));
    }
    let quotes = Consolidated::of_sides(sides);
    put_consolidated(out, head, quotes.bids(), quotes.offers())?;
    Ok(quotes.top())
}

/// Appends the lines of a book where an event ends: its direct, implied and consolidated sides, or the
/// place of its first impossible entry. Hands back the top of the consolidated sides; none of a faulty
/// book. Where memory runs out, the lines break off.
pub fn put_book<A: Allocator>(
    out: &mut Vec<u8, A>,
    end: EventEnd,
    name: &Name,
    live: &Live,
) -> Result<Option<TopOfBook>, Memory>
    ensures ok { OnOk result (out.new.items ≡ out.old.items
        ++ book_lines end name.now live.now) }
    ensures err { OnErr result (BreaksOff (book_lines end name.now live.now) out.old.items
        out.new.items) }
    ensures top { IfOk result (λ top. top ≡ top_of_book live.now) }
{
    match live.book() {
        Book::Good(sides) => {
            let head = Head::new(end, name);
            put_direct(out, &head, sides)?;
            put_implied(out, &head, sides)?;
            let top = put_totals(out, &head, sides)?;
            Ok(Some(top))
        }
        Book::Fault(place) => {
            put_fault(out, end, name, place)?;
            Ok(None)
        }
    }
}
