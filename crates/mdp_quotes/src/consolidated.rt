//! The consolidation of a book.

ghost use Rattle.std.specs.Prelude.{◌≡◌, ◌≤◌, ◌+◌, ◌++◌, length, slice_get};
ghost use Rattle.mdp_books.specs.Side.{HaveSizes};
ghost use Rattle.mdp_quotes.specs.Computed.{consolidated_side};
ghost use Rattle.mdp_quotes.specs.Entering.{most_levels};
ghost use Rattle.mdp_quotes.specs.Top.{top_of_quotes};

use crate::top::TopOfBook;
use crate::total::{MOST_LEVELS, Total, Way, enter_all};
use arrayvec::ArrayVec;
use mdp_books::{Book, Sides};
use mdp_templates::Level;
use std::marker::Model;

/// The totals of a good book's bids and offers, direct and implied together, seen as those two lists.
#[derive(Drop)]
pub struct Consolidated {
    bids: ArrayVec<Total, MOST_LEVELS>,
    offers: ArrayVec<Total, MOST_LEVELS>,
}

impl Model for Consolidated {
    ghost use Rattle.mdp_quotes.specs.Quotes.{Quotes};

    ghost Value = { Quotes };

    ghost view = { λ c. record { bids = c.bids.items; offers = c.offers.items } };
}

// Gives each price of a direct and an implied side once, with the sum of its sizes.
fn side_of(way: Way, direct: &[Level], implied: &[Level]) -> ArrayVec<Total, MOST_LEVELS>
    requires few { length direct.now + length implied.now ≤ most_levels }
    requires direct_sizes { HaveSizes direct.now }
    requires implied_sizes { HaveSizes implied.now }
    ensures { result.items ≡ consolidated_side way (direct.now ++ implied.now) }
{
    let mut totals = ArrayVec::new();
    enter_all(&mut totals, way, direct);
    enter_all(&mut totals, way, implied);
    totals
}

// Gives the first total, if any.
fn first(totals: &[Total]) -> Option<Total>
    ensures { result ≡ slice_get totals.now 0 }
{
    totals.first().copied()
}

impl Consolidated {
    ghost use Rattle.mdp_quotes.specs.Consolidation.{quotes_of, consolidation_of, IsConsolidationOf};

    /// Adds up the four sides of a good book.
    pub fn of_sides(sides: &Sides) -> Consolidated
        ensures { result ≡ quotes_of sides.now }
    {
        Consolidated {
            bids: side_of(
                Way::Falling,
                sides.bids.levels(),
                sides.implied_bids.levels(),
            ),
            offers: side_of(
                Way::Rising,
                sides.offers.levels(),
                sides.implied_offers.levels(),
            ),
        }
    }

    /// Adds up the sides of a book. Gives none exactly where the book is a fault.
    pub fn of(book: &Book) -> Option<Consolidated>
        ensures is { IsConsolidationOf book.now result }
        ensures same { result ≡ consolidation_of book.now }
    {
        match book {
            Book::Good(sides) => Some(Consolidated::of_sides(sides)),
            Book::Fault(_) => None,
        }
    }

    /// Lends the bids, each price once, the highest first.
    pub fn bids(&self) -> &[Total]
        ensures { result.now ≡ self.now.bids }
    {
        self.bids.as_slice()
    }

    /// Lends the offers, each price once, the lowest first.
    pub fn offers(&self) -> &[Total]
        ensures { result.now ≡ self.now.offers }
    {
        self.offers.as_slice()
    }

    /// Gives the first total of each side, where the side has one.
    pub fn top(&self) -> TopOfBook
        ensures { result ≡ top_of_quotes self.now }
    {
        TopOfBook {
            bid: first(self.bids()),
            offer: first(self.offers()),
        }
    }
}
