//! The records of a channel's feeds, and which of them comes next in the order of the capture's lines.

ghost use Rattle.std.specs.Prelude.{◌≡◌, [], ◌∷◌, MatchOption};
ghost use Rattle.mdp_pipeline.specs.Merge.{first_feed, head_line, in_order, is_first, records_in, records_of};

use mdp_capture::{Capture, Record};
use mdp_templates::Feed;
use std::alloc::Allocator;

/// The records of a channel's feeds, each list in the order of the capture's lines.
#[derive(Drop)]
pub struct Feeds<'a, A: Allocator> {
    /// Incremental feed A.
    pub a: &'a [Record<A>],
    /// Incremental feed B.
    pub b: &'a [Record<A>],
    /// The snapshot feed.
    pub s: &'a [Record<A>],
}

// Returns the line of the first record, if there is one.
fn first_line<A: Allocator>(records: &[Record<A>]) -> Option<u32>
    ensures { result ≡ head_line records.now }
{
    match records.first() {
        Some(record) => Some(record.line()),
        None => None,
    }
}

// Returns whether a list with this first line goes before another.
fn goes_first(line: Option<u32>, other: Option<u32>) -> bool
    ensures { result ≡ is_first line other }
{
    match (line, other) {
        (Some(line), Some(other)) => line <= other,
        (Some(_), None) => true,
        (None, _) => false,
    }
}

impl<'a, A: Allocator> Feeds<'a, A> {
    /// Lends the records of a capture.
    pub fn of(capture: &'a Capture<A>) -> Feeds<'a, A>
        ensures { records_in result ≡ records_of capture.now }
    {
        Feeds {
            a: capture.a(),
            b: capture.b(),
            s: capture.s(),
        }
    }

    // Gives the feed whose first record comes next, S where no feed has one.
    fn next_feed(&self) -> Feed
        ensures { result ≡ first_feed (records_in self.now) }
    {
        let a = first_line(self.a);
        let b = first_line(self.b);
        let s = first_line(self.s);
        let (feed, line) = if goes_first(a, b) {
            (Feed::A, a)
        } else {
            (Feed::B, b)
        };
        if goes_first(line, s) { feed } else { Feed::S }
    }

    /// Takes the record of the least line; of equal lines feed A's, then feed B's.
    pub fn next_by_line(&mut self) -> Option<(Feed, &'a Record<A>)>
        ensures { MatchOption result
            (in_order (records_in self.old) ≡ [])
            (λ next. in_order (records_in self.old)
            ≡ record { feed = next.0; entry = next.1.now } ∷ in_order (records_in self.new)) }
    {
        match self.next_feed() {
            Feed::A => {
                let (record, rest) = self.a.split_first()?;
                self.a = rest;
                Some((Feed::A, record))
            }
            Feed::B => {
                let (record, rest) = self.b.split_first()?;
                self.b = rest;
                Some((Feed::B, record))
            }
            Feed::S => {
                let (record, rest) = self.s.split_first()?;
                self.s = rest;
                Some((Feed::S, record))
            }
        }
    }
}
