//! Snapshots of the market recovery feed.

ghost use Rattle.std.specs.Prelude.{◌≡◌, ◌≤◌, length, true, false};
ghost use Rattle.mdp_templates.specs.Entry.{direct_depth, implied_depth};
ghost use Rattle.mdp_templates.specs.Snapshot.{SnapshotContent, empty_snapshot};
ghost use Rattle.mdp_templates.specs.Recovery.{HasBadSide, HasSides};
ghost use Rattle.mdp_templates.specs.Side.{AreAllShallow};

use crate::entry::{DIRECT_DEPTH, IMPLIED_DEPTH, Kind, Level};
use crate::quote::Quote;
use crate::side::gather;
use arrayvec::ArrayVec;
use std::marker::Model;

/// A security's whole book after a packet, seen as its four sides with the best level first.
#[derive(Drop)]
pub struct Snapshot {
    security: i32,
    last: u32,
    bids: ArrayVec<Level, DIRECT_DEPTH>,
    offers: ArrayVec<Level, DIRECT_DEPTH>,
    implied_bids: ArrayVec<Level, IMPLIED_DEPTH>,
    implied_offers: ArrayVec<Level, IMPLIED_DEPTH>,
}

impl Model for Snapshot {
    ghost use Rattle.mdp_templates.specs.Snapshot.{SnapshotContent};

    ghost Value = { SnapshotContent };

    ghost view = { λ s. record {
      security = s.security;
      last = s.last;
      bids = s.bids.items;
      offers = s.offers.items;
      implied_bids = s.implied_bids.items;
      implied_offers = s.implied_offers.items;
    } };
}

impl Snapshot {
    /// Makes a snapshot of these sides.
    pub fn new(
        security: i32,
        last: u32,
        bids: ArrayVec<Level, DIRECT_DEPTH>,
        offers: ArrayVec<Level, DIRECT_DEPTH>,
        implied_bids: ArrayVec<Level, IMPLIED_DEPTH>,
        implied_offers: ArrayVec<Level, IMPLIED_DEPTH>,
    ) -> Snapshot
        ensures { result ≡ record {
          security = security;
          last = last;
          bids = bids.items;
          offers = offers.items;
          implied_bids = implied_bids.items;
          implied_offers = implied_offers.items;
        } }
    {
        Snapshot {
            security,
            last,
            bids,
            offers,
            implied_bids,
            implied_offers,
        }
    }

    // Makes a snapshot with no levels.
    pub(crate) fn empty(security: i32, last: u32) -> Snapshot
        ensures { result ≡ empty_snapshot security last }
    {
        Snapshot {
            security,
            last,
            bids: ArrayVec::new_in(()),
            offers: ArrayVec::new_in(()),
            implied_bids: ArrayVec::new_in(()),
            implied_offers: ArrayVec::new_in(()),
        }
    }

    // Gathers the sides that these entries give in their places in the snapshot, which is moved as a whole from then
    // on, and returns whether the levels of each are good.
    pub(crate) fn gather(&mut self, quotes: &[Option<Quote>]) -> bool
        requires shallow { AreAllShallow quotes.now }
        requires empty { self.old ≡ empty_snapshot self.old.security self.old.last }
        ensures whole { result ≡ true → HasSides quotes.now self.new }
        ensures security { self.new.security ≡ self.old.security }
        ensures last { self.new.last ≡ self.old.last }
        ensures bad { result ≡ false → HasBadSide quotes.now }
    {
        if !gather(quotes, Kind::Bid, &mut self.bids) {
            return false;
        }
        if !gather(quotes, Kind::Offer, &mut self.offers) {
            return false;
        }
        if !gather(quotes, Kind::ImpliedBid, &mut self.implied_bids) {
            return false;
        }
        if !gather(quotes, Kind::ImpliedOffer, &mut self.implied_offers) {
            return false;
        }
        true
    }

    /// Returns the security whose book this is.
    pub fn security(&self) -> i32
        ensures { result ≡ self.now.security }
    {
        self.security
    }

    /// Returns the number of the last packet that the book includes, 0 where it is the book before packet 1.
    pub fn last(&self) -> u32
        ensures { result ≡ self.now.last }
    {
        self.last
    }

    /// Lends the direct bids.
    pub fn bids(&self) -> &[Level]
        ensures items { result.now ≡ self.now.bids }
        ensures few { length self.now.bids ≤ direct_depth }
    {
        self.bids.as_slice()
    }

    /// Lends the direct offers.
    pub fn offers(&self) -> &[Level]
        ensures items { result.now ≡ self.now.offers }
        ensures few { length self.now.offers ≤ direct_depth }
    {
        self.offers.as_slice()
    }

    /// Lends the implied bids.
    pub fn implied_bids(&self) -> &[Level]
        ensures items { result.now ≡ self.now.implied_bids }
        ensures few { length self.now.implied_bids ≤ implied_depth }
    {
        self.implied_bids.as_slice()
    }

    /// Lends the implied offers.
    pub fn implied_offers(&self) -> &[Level]
        ensures items { result.now ≡ self.now.implied_offers }
        ensures few { length self.now.implied_offers ≤ implied_depth }
    {
        self.implied_offers.as_slice()
    }

    /// Makes an equal snapshot, which takes no memory.
    pub fn copy(&self) -> Snapshot
        ensures { result ≡ self.now }
    {
        Snapshot {
            security: self.security,
            last: self.last,
            bids: copy_of(&self.bids),
            offers: copy_of(&self.offers),
            implied_bids: copy_of(&self.implied_bids),
            implied_offers: copy_of(&self.implied_offers),
        }
    }
}

// Makes an equal list of levels.
fn copy_of<const DEPTH: usize>(levels: &ArrayVec<Level, DEPTH>) -> ArrayVec<Level, DEPTH>
    ensures { result.items ≡ levels.now.items }
{
    let mut copy = ArrayVec::new_in(());
    match copy.try_extend_from_slice(levels.as_slice()) {
        Ok(()) => copy,
        Err(_) => unreachable!(),
    }
}
