//! Levels of a book, copied into an array.

ghost use Rattle.std.specs.Prelude.{◌≡◌, ◌≤◌, ◌++◌, drop, length, map};
ghost use Rattle.mdp_quotes.specs.Consolidation.{quotes_of};
ghost use Rattle.mdp_c.specs.Copies.{copied, room_status};
ghost use Rattle.mdp_c.specs.Levels.{book_of, direct_side, implied_side, level_told, levels_of, quotes_side, side_of, total_told};

use crate::status::{DONE, TOO_SHORT};
use mdp_books::{Book, Sides};
use mdp_quotes::{Consolidated, Total};
use mdp_templates::Level as BookLevel;

/// A price and the size there, 16 bytes.
#[repr(C)]
#[derive(Clone, Copy, Debug, PartialEq, Eq)]
pub struct Level {
    /// The price, in units of 10^-9.
    pub price: i64,
    /// The size, or at a consolidated price the sum of the sizes there.
    pub size: i64,
}

/// One of the books that are kept of a security.
#[derive(Clone, Copy)]
pub(crate) enum WhichBook {
    Direct,
    Implied,
    Consolidated,
}

/// A side of a book.
#[derive(Clone, Copy)]
pub(crate) enum WhichSide {
    Bid,
    Offer,
}

/// Returns which book has this number.
pub(crate) fn book_of(number: u32) -> Option<WhichBook>
    ensures { result ≡ book_of number }
{
    match number {
        0 => Some(WhichBook::Direct),
        1 => Some(WhichBook::Implied),
        2 => Some(WhichBook::Consolidated),
        _ => None,
    }
}

/// Returns which side has this number.
pub(crate) fn side_of(number: u32) -> Option<WhichSide>
    ensures { result ≡ side_of number }
{
    match number {
        0 => Some(WhichSide::Bid),
        1 => Some(WhichSide::Offer),
        _ => None,
    }
}

/// Reports how many levels a side has, and copies them, if the array has room for all. A faulty book has none.
pub(crate) fn copy_side(
    book: &Book,
    which: WhichBook,
    side: WhichSide,
    levels: &mut [Level],
    count: &mut u64,
) -> u32
    ensures status { result ≡ room_status (levels_of which side book.now) (length levels.old) }
    ensures levels { levels.new ≡ copied (levels_of which side book.now) levels.old }
    ensures count { count.new ≡ length (levels_of which side book.now) }
{
    let Book::Good(sides) = book else {
        *count = 0;
        return DONE;
    };
    match which {
        WhichBook::Direct => copy_levels(direct_side(sides, side), levels, count),
        WhichBook::Implied => copy_levels(implied_side(sides, side), levels, count),
        WhichBook::Consolidated => copy_quotes(&Consolidated::of_sides(sides), side, levels, count),
    }
}

// Lends the levels of a direct side.
fn direct_side(sides: &Sides, side: WhichSide) -> &[BookLevel]
    ensures { result.now ≡ direct_side side sides.now }
{
    match side {
        WhichSide::Bid => sides.bids.levels(),
        WhichSide::Offer => sides.offers.levels(),
    }
}

// Lends the levels of an implied side.
fn implied_side(sides: &Sides, side: WhichSide) -> &[BookLevel]
    ensures { result.now ≡ implied_side side sides.now }
{
    match side {
        WhichSide::Bid => sides.implied_bids.levels(),
        WhichSide::Offer => sides.implied_offers.levels(),
    }
}

// Copies the totals of a consolidated side.
fn copy_quotes(quotes: &Consolidated, side: WhichSide, levels: &mut [Level], count: &mut u64) -> u32
    ensures status { result
        ≡ room_status (map total_told (quotes_side side quotes.now)) (length levels.old) }
    ensures levels { levels.new
        ≡ copied (map total_told (quotes_side side quotes.now)) levels.old }
    ensures count { count.new ≡ length (map total_told (quotes_side side quotes.now)) }
{
    match side {
        WhichSide::Bid => copy_levels(quotes.bids(), levels, count),
        WhichSide::Offer => copy_levels(quotes.offers(), levels, count),
    }
}

/// What a level is told of.
pub(crate) trait TellsLevel {
    ghost use Rattle.mdp_c.specs.declared.levels.Level.{Level};

    ghost told: { Self → Level };

    /// Returns the level.
    fn level(&self) -> Level
        ensures { result ≡ told self.now };
}

impl TellsLevel for BookLevel {
    ghost told = { λ level. level_told level };

    fn level(&self) -> Level {
        Level {
            price: self.price,
            size: i64::from(self.size),
        }
    }
}

impl TellsLevel for Total {
    ghost told = { λ total. total_told total };

    fn level(&self) -> Level {
        Level {
            price: self.price,
            size: self.size,
        }
    }
}

// Returns how many levels there are, and copies them, if the array has room for all.
fn copy_levels<T: TellsLevel>(from: &[T], levels: &mut [Level], count: &mut u64) -> u32
    ensures status { result ≡ room_status (map T.told from.now) (length levels.old) }
    ensures levels { levels.new ≡ copied (map T.told from.now) levels.old }
    ensures count { count.new ≡ length (map T.told from.now) }
{
    *count = from.len() as u64;
    if levels.len() < from.len() {
        return TOO_SHORT;
    }
    put_levels(from, levels);
    DONE
}

// Puts levels at the front of an array that has room for them.
fn put_levels<T: TellsLevel>(from: &[T], levels: &mut [Level])
    requires { length from.now ≤ length levels.old }
    ensures { levels.new ≡ map T.told from.now ++ drop (length from.now) levels.old }
{
    for (place, item) in from.iter().enumerate() {
        levels[place] = item.level();
    }
}
