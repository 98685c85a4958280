//! The lines of good books.

ghost use Rattle.std.specs.Prelude.{◌≡◌, ◌∷◌, []};
ghost use Rattle.mdp_quotes.specs.Consolidation.{quotes_of};
ghost use Rattle.mdp_quotes.specs.Merged.{merged, merged_quotes};
ghost use Rattle.mdp_print.specs.Texts.{direct_line, implied_line, consolidated_line};
ghost use Rattle.mdp_print.specs.Texts.{quotes_line, sides_line};
ghost use Rattle.mdp_print.specs.Pieces.{Appends, Extends};

use crate::head::Head;
use crate::merged::put_merged_levels;
use crate::pieces::{put, put_byte, put_offers_letter, settle};
use crate::totals::put_totals;
use mdp_books::Sides;
use mdp_quotes::{Total, Way};
use mdp_templates::Memory;
use std::alloc::Allocator;

// Appends the letter of a line and the head of a book's lines.
fn put_head<A: Allocator>(out: &mut Vec<u8, A>, letter: u8, head: &Head) -> Result<(), Memory>
    ensures { Extends (letter ∷ head.now) out.old out.new result }
{
    let start = out.len();
    put(out, head.as_slice())?;
    out[start] = letter;
    Ok(())
}

// Appends the line of the texts of two sides under a letter.
fn put_sides<A: Allocator>(
    out: &mut Vec<u8, A>,
    letter: u8,
    head: &Head,
    bids: &[u8],
    offers: &[u8],
) -> Result<(), Memory>
    ensures { Extends (sides_line (letter ∷ []) head.now bids.now offers.now) out.old out.new
        result }
{
    put_head(out, letter, head)?;
    put(out, bids)?;
    put_offers_letter(out)?;
    put(out, offers)?;
    put_byte(out, b'\n')
}

// Appends the line of the totals of two sides.
#[tactic(auto, unfolding(crate::specs::Texts::consolidated_line))]
fn put_total_sides<A: Allocator>(
    out: &mut Vec<u8, A>,
    head: &Head,
    bids: &[Total],
    offers: &[Total],
) -> Result<(), Memory>
    ensures { Extends (consolidated_line head.now bids.now offers.now) out.old out.new result }
{
    put_head(out, b'C', head)?;
    put_totals(out, bids)?;
    put_offers_letter(out)?;
    put_totals(out, offers)?;
    put_byte(out, b'\n')
}

// Appends the line of the totals of two sides that are in order.
#[tactic(auto, unfolding(crate::specs::Texts::consolidated_line))]
fn put_merged_sides<A: Allocator>(
    out: &mut Vec<u8, A>,
    head: &Head,
    sides: &Sides,
) -> Result<(), Memory>
    ensures { Extends (quotes_line head.now (merged_quotes sides.now)) out.old out.new result }
{
    put_head(out, b'C', head)?;
    let implied = sides.implied_bids.printed();
    put_merged_levels(out, Way::Falling, sides.bids.printed(), implied)?;
    put_offers_letter(out)?;
    let implied = sides.implied_offers.printed();
    put_merged_levels(out, Way::Rising, sides.offers.printed(), implied)?;
    put_byte(out, b'\n')
}

/// Appends the `D` line of a book's direct sides by position, behind the head of the book's lines. [`Memory`] comes
/// only where the vector has no room for the line and cannot grow, and then the vector is as before; so in each
/// function of this crate that appends a line.
#[tactic(auto, unfolding(crate::specs::Texts::direct_line))]
pub fn put_direct<A: Allocator>(
    out: &mut Vec<u8, A>,
    head: &Head,
    sides: &Sides,
) -> Result<(), Memory>
    ensures { Appends (direct_line head.now sides.now.bids.levels sides.now.offers.levels) out.old
        out.new result }
{
    let start = out.len();
    let bids = sides.bids.printed().text();
    let offers = sides.offers.printed().text();
    let outcome = put_sides(out, b'D', head, bids, offers);
    settle(out, start, outcome)
}

/// Appends the `I` line of a book's implied sides by position, as [`put_direct`] does of its direct ones.
#[tactic(auto, unfolding(crate::specs::Texts::implied_line))]
pub fn put_implied<A: Allocator>(
    out: &mut Vec<u8, A>,
    head: &Head,
    sides: &Sides,
) -> Result<(), Memory>
    ensures { Appends (implied_line head.now sides.now.implied_bids.levels
        sides.now.implied_offers.levels) out.old out.new result }
{
    let start = out.len();
    let bids = sides.implied_bids.printed().text();
    let offers = sides.implied_offers.printed().text();
    let outcome = put_sides(out, b'I', head, bids, offers);
    settle(out, start, outcome)
}

/// Appends the `C` line of a book's consolidated sides, from the best price on, as [`put_direct`] does
/// of its direct ones.
pub fn put_consolidated<A: Allocator>(
    out: &mut Vec<u8, A>,
    head: &Head,
    bids: &[Total],
    offers: &[Total],
) -> Result<(), Memory>
    ensures { Appends (consolidated_line head.now bids.now offers.now) out.old out.new result }
{
    let start = out.len();
    let outcome = put_total_sides(out, head, bids, offers);
    settle(out, start, outcome)
}

/// Appends the `C` line of a book whose sides are in order, as [`mdp_quotes::are_in_order`] tells; it is the one that
/// [`put_consolidated`] appends of totals that were added up. The text of levels that stand alone at their price is
/// copied from their sides.
pub fn put_merged<A: Allocator>(
    out: &mut Vec<u8, A>,
    head: &Head,
    sides: &Sides,
) -> Result<(), Memory>
    requires order { quotes_of sides.now ≡ merged_quotes sides.now }
    ensures { Appends (quotes_line head.now (quotes_of sides.now)) out.old out.new result }
{
    let start = out.len();
    let outcome = put_merged_sides(out, head, sides);
    settle(out, start, outcome)
}
