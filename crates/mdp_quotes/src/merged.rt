//! Sides whose prices are in order: their totals are the direct levels, with each implied level put in at its price.

ghost use Rattle.std.specs.Prelude.{◌≡◌, ◌≤◌, ◌∷◌, List, true, Some, length, slice_get};
ghost use Rattle.mdp_quotes.specs.Consolidation.{quotes_of};
ghost use Rattle.mdp_quotes.specs.Merged.{ahead_of, are_in_order, are_ordered, merged};
ghost use Rattle.mdp_quotes.specs.Merged.{merged_quotes, passed_by, total_with};
ghost use Rattle.mdp_quotes.specs.Order.{is_ahead};
ghost use Rattle.mdp_quotes.specs.Top.{top_of_quotes};

use crate::top::TopOfBook;
use crate::total::{Total, Way, total_of};
use mdp_books::Sides;
use mdp_templates::Level;

// Returns whether a level has a better price than another.
#[inline]
fn is_better(way: Way, level: &Level, other: &Level) -> bool
    ensures { result ≡ is_ahead way level.now.price other.now.price }
{
    way.is_ahead(level.price, other.price)
}

// Returns whether each level has a better price than the next.
fn is_ordered(levels: &[Level], way: Way) -> bool
    ensures { result ≡ are_ordered way levels.now }
{
    for at in 1..levels.len() {
        if !is_better(way, &levels[at - 1], &levels[at]) {
            return false;
        }
    }
    true
}

/// Returns whether on each of the four sides every level has a better price than the next, as on nearly every book.
/// Then the totals are the direct levels, with each implied level put in at its price.
pub fn are_in_order(sides: &Sides) -> bool
    ensures tells { result ≡ are_in_order sides.now }
    ensures merges { result ≡ true → quotes_of sides.now ≡ merged_quotes sides.now }
{
    if !is_ordered(sides.bids.levels(), Way::Falling) {
        return false;
    }
    if !is_ordered(sides.implied_bids.levels(), Way::Falling) {
        return false;
    }
    if !is_ordered(sides.offers.levels(), Way::Rising) {
        return false;
    }
    is_ordered(sides.implied_offers.levels(), Way::Rising)
}

/// Where an implied level stands among direct ones.
#[derive(Clone, Copy)]
pub struct MergePlace {
    /// How many direct levels have a better price.
    pub ahead: usize,
    /// How many have a better price or its own.
    pub passed: usize,
    /// Its total: with the size of the direct level of its price, where there is one.
    pub total: Total,
}

// Counts the first levels that have a better price than this one.
#[inline]
fn ahead_of(way: Way, direct: &[Level], level: &Level) -> usize
    ensures ahead { result ≡ ahead_of way level.now direct.now }
    ensures inside { result ≤ length direct.now }
{
    let mut ahead = 0;
    while ahead < direct.len() && is_better(way, &direct[ahead], level) {
        ahead += 1;
    }
    ahead
}

/// Finds where an implied level stands among direct ones, of which the best comes first.
pub fn merge_place_of(way: Way, direct: &[Level], level: &Level) -> MergePlace
    ensures ahead { result.ahead ≡ ahead_of way level.now direct.now }
    ensures passed { result.passed ≡ passed_by way level.now direct.now }
    ensures total { result.total ≡ total_with level.now (slice_get direct.now result.ahead) }
    ensures inside { result.ahead ≤ length direct.now }
    ensures within { result.passed ≤ length direct.now }
{
    let ahead = ahead_of(way, direct, level);
    match direct.get(ahead) {
        Some(beside) if beside.price == level.price => MergePlace {
            ahead,
            passed: ahead + 1,
            total: with_beside(level, beside),
        },
        _ => MergePlace {
            ahead,
            passed: ahead,
            total: total_of(level),
        },
    }
}

// Gives the total of a level, with the size of another where that has the same price.
#[inline]
fn with_beside(level: &Level, beside: &Level) -> Total
    ensures { result ≡ total_with level.now (Some beside.now) }
{
    if beside.price != level.price {
        return total_of(level);
    }
    Total {
        price: beside.price,
        size: i64::from(beside.size) + i64::from(level.size),
    }
}

// Gives the first total of a side with this first implied level.
fn first_with(way: Way, direct: &[Level], level: &Level) -> Total
    ensures { (implied : List Level) → slice_get (merged way direct.now (level.now ∷ implied)) 0
        ≡ Some result }
{
    let Some(best) = direct.first() else {
        return total_of(level);
    };
    if is_better(way, best, level) {
        return total_of(best);
    }
    with_beside(level, best)
}

// Gives the first total of a side whose levels are these, if it has any.
fn first_of(way: Way, direct: &[Level], implied: &[Level]) -> Option<Total>
    ensures { result ≡ slice_get (merged way direct.now implied.now) 0 }
{
    match implied.first() {
        Some(level) => Some(first_with(way, direct, level)),
        None => direct.first().map(total_of),
    }
}

/// Gives the first total of each side of a book whose sides are in order, as [`are_in_order`] tells.
pub fn merged_top(sides: &Sides) -> TopOfBook
    requires { quotes_of sides.now ≡ merged_quotes sides.now }
    ensures { result ≡ top_of_quotes (quotes_of sides.now) }
{
    TopOfBook {
        bid: first_of(
            Way::Falling,
            sides.bids.levels(),
            sides.implied_bids.levels(),
        ),
        offer: first_of(
            Way::Rising,
            sides.offers.levels(),
            sides.implied_offers.levels(),
        ),
    }
}
