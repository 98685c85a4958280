//! The top of a consolidated book.

use crate::total::Total;

/// The first total of each side of a consolidated book, where the side has one.
#[derive(Clone, Copy, Debug, PartialEq, Eq)]
pub struct TopOfBook {
    /// The highest bid, with the sum of the sizes there.
    pub bid: Option<Total>,
    /// The lowest offer, with the sum of the sizes there.
    pub offer: Option<Total>,
}
