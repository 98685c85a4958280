//! Totals by price, the best first.

ghost use Rattle.std.specs.Prelude.{◌≡◌, ◌<◌, ◌≤◌, length, slice_get, slice_set, slice_index_or};
ghost use Rattle.std.specs.List.{prefix_len};
ghost use Rattle.mdp_books.specs.Side.{HaveSizes};
ghost use Rattle.mdp_quotes.specs.Order.{is_ahead};
ghost use Rattle.mdp_quotes.specs.Entering.{with_level, with_levels, is_before, has_price, total_of, with, IsSmall, HasRoom};
ghost use Rattle.mdp_quotes.specs.declared.total.Total.{Total};

use arrayvec::ArrayVec;
use mdp_templates::{DIRECT_DEPTH, IMPLIED_DEPTH, Level};

/// How many levels a direct and an implied side have at most together.
pub const MOST_LEVELS: usize = DIRECT_DEPTH + IMPLIED_DEPTH;

/// How the prices of a side run from its best level on: bids fall and offers rise.
#[derive(Clone, Copy, Debug, PartialEq, Eq)]
pub enum Way {
    /// The highest price is the best, as of bids.
    Falling,
    /// The lowest price is the best, as of offers.
    Rising,
}

/// A price in units of 10^-9, and the sum of the sizes at that price.
#[derive(Clone, Copy, Debug, PartialEq, Eq, Default)]
pub struct Total {
    /// The price, in units of 10^-9.
    pub price: i64,
    /// The sum of the sizes of all levels with this price.
    pub size: i64,
}

impl Way {
    /// Returns whether price `a` is better than price `b`.
    pub(crate) fn is_ahead(self, a: i64, b: i64) -> bool
        ensures { result ≡ is_ahead self a b }
    {
        match self {
            Way::Falling => b < a,
            Way::Rising => a < b,
        }
    }
}

// Returns whether a total's price is better than a level's.
fn is_before(total: &Total, way: Way, level: &Level) -> bool
    ensures { result ≡ is_before way level.now total.now }
{
    way.is_ahead(total.price, level.price)
}

// Returns how many totals have a better price than a level.
fn place_of(totals: &[Total], way: Way, level: &Level) -> usize
    ensures place { result ≡ prefix_len (is_before way level.now) totals.now }
    ensures inside { result ≤ length totals.now }
{
    let mut at = 0;
    while at < totals.len() && is_before(&totals[at], way, level) {
        at += 1;
    }
    at
}

// Returns whether the total there has the level's price.
fn has_price(totals: &[Total], at: usize, level: &Level) -> bool
    ensures { result ≡ has_price level.now (slice_get totals.now at) }
{
    match totals.get(at) {
        Some(total) => total.price == level.price,
        None => false,
    }
}

/// Makes a level alone at its price.
pub(crate) fn total_of(level: &Level) -> Total
    ensures { result ≡ total_of level.now }
{
    Total {
        price: level.price,
        size: level.size as i64,
    }
}

// Makes a total with one more level at its price.
fn with(total: &Total, level: &Level) -> Total
    requires { IsSmall 1 total.now }
    ensures { result ≡ with level.now total.now }
{
    Total {
        price: total.price,
        size: total.size + level.size as i64,
    }
}

// Adds a level's size to the total there.
fn add_at(totals: &mut ArrayVec<Total, MOST_LEVELS>, at: usize, level: &Level)
    requires inside { at < length totals.old.items }
    requires small { IsSmall 1 (slice_index_or totals.old.items at zero_total) }
    ensures { totals.new.items ≡ slice_set totals.old.items at
        (with level.now (slice_index_or totals.old.items at zero_total)) }
{
    let total = totals[at];
    totals[at] = with(&total, level);
}

ghost use Rattle.mdp_quotes.specs.Entering.{zero_total};

// Adds a level's size at its price.
fn enter(totals: &mut ArrayVec<Total, MOST_LEVELS>, way: Way, level: &Level)
    requires { HasRoom way 1 totals.old.items }
    ensures { totals.new.items ≡ with_level way level.now totals.old.items }
{
    let at = place_of(totals.as_slice(), way, level);
    if has_price(totals.as_slice(), at, level) {
        add_at(totals, at, level);
    } else {
        totals.insert(at, total_of(level));
    }
}

/// Adds the size of each level at its price.
pub fn enter_all(totals: &mut ArrayVec<Total, MOST_LEVELS>, way: Way, levels: &[Level])
    requires sizes { HaveSizes levels.now }
    requires room { HasRoom way (length levels.now) totals.old.items }
    ensures { totals.new.items ≡ with_levels way levels.now totals.old.items }
{
    for level in levels {
        enter(totals, way, level);
    }
}
