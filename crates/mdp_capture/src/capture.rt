//! What a capture holds.

ghost use Rattle.std.specs.Prelude.{◌≡◌};
ghost use Rattle.mdp_capture.specs.Capture.{CaptureContent};

use crate::record::Record;
use crate::skip::SkippedLine;
use mdp_templates::Instrument;
use std::alloc::Allocator;
use std::marker::Model;

/// What a capture holds, seen as its instruments, the records of its three feeds and the lines that were skipped,
/// each in the order of their lines.
#[derive(Drop)]
pub struct Capture<A: Allocator> {
    instruments: Vec<Instrument, A>,
    a: Vec<Record<A>, A>,
    b: Vec<Record<A>, A>,
    s: Vec<Record<A>, A>,
    skipped: Vec<SkippedLine, A>,
}

impl<A: Allocator> Model for Capture<A> {
    ghost use Rattle.mdp_capture.specs.Capture.{CaptureContent};

    ghost Value = { CaptureContent };

    ghost view = { λ c. record {
      instruments = c.instruments.items;
      a = c.a.items;
      b = c.b.items;
      s = c.s.items;
      skipped = c.skipped.items;
    } };
}

impl<A: Allocator> Capture<A> {
    /// Makes a capture of these instruments, records and skipped lines.
    pub fn new(
        instruments: Vec<Instrument, A>,
        a: Vec<Record<A>, A>,
        b: Vec<Record<A>, A>,
        s: Vec<Record<A>, A>,
        skipped: Vec<SkippedLine, A>,
    ) -> Capture<A>
        ensures { result ≡ record {
          instruments = instruments.items;
          a = a.items;
          b = b.items;
          s = s.items;
          skipped = skipped.items;
        } }
    {
        Capture {
            instruments,
            a,
            b,
            s,
            skipped,
        }
    }

    /// Lends the instruments, in the order of their lines.
    pub fn instruments(&self) -> &[Instrument]
        ensures { result.now ≡ self.now.instruments }
    {
        self.instruments.as_slice()
    }

    /// Lends the records of incremental feed A.
    pub fn a(&self) -> &[Record<A>]
        ensures { result.now ≡ self.now.a }
    {
        self.a.as_slice()
    }

    /// Lends the records of incremental feed B.
    pub fn b(&self) -> &[Record<A>]
        ensures { result.now ≡ self.now.b }
    {
        self.b.as_slice()
    }

    /// Lends the records of the snapshot feed, closes among them.
    pub fn s(&self) -> &[Record<A>]
        ensures { result.now ≡ self.now.s }
    {
        self.s.as_slice()
    }

    /// Lends the lines that were skipped.
    pub fn skipped(&self) -> &[SkippedLine]
        ensures { result.now ≡ self.now.skipped }
    {
        self.skipped.as_slice()
    }
}
