//! What a feed brought.

ghost use Rattle.std.specs.Prelude.{◌≡◌, MatchOption, IfOk, IfSome};
ghost use Rattle.mdp_capture.specs.Record.{RecordContent, Datagram, Close};

use bytes::Bytes;
use std::alloc::{AllocError, Allocator};
use std::marker::Model;

/// What a record holds.
#[derive(Drop)]
enum Held<A: Allocator> {
    /// A datagram's bytes, in memory of their own.
    Own(Vec<u8, A>),
    /// A datagram's bytes, in a block that records share.
    Shared(Bytes<A>),
    /// The close of the channel.
    Close,
}

/// A datagram of a feed, or the close of the channel, with the line of the capture that it came from. It is seen
/// as the number of the line and what was received.
#[derive(Drop)]
pub struct Record<A: Allocator> {
    line: u32,
    held: Held<A>,
}

impl<A: Allocator> Model for Record<A> {
    ghost use Rattle.mdp_capture.specs.Record.{RecordContent};
    ghost use Rattle.mdp_capture.specs.Held.{received_of};

    ghost Value = { RecordContent };

    ghost view = { λ r. record {
      line = r.line;
      received = received_of r.held;
    } };
}

impl<A: Allocator> Record<A> {
    /// Makes the record of a datagram of these bytes.
    pub fn datagram(line: u32, bytes: Vec<u8, A>) -> Record<A>
        ensures { result ≡ record { line = line; received = Datagram bytes.items } }
    {
        Record {
            line,
            held: Held::Own(bytes),
        }
    }

    /// Makes the record of a datagram of these bytes, which other records may share.
    pub(crate) fn shared(line: u32, bytes: Bytes<A>) -> Record<A>
        ensures { result ≡ record { line = line; received = Datagram bytes } }
    {
        Record {
            line,
            held: Held::Shared(bytes),
        }
    }

    /// Makes the record of a close.
    pub fn close(line: u32) -> Record<A>
        ensures { result ≡ record { line = line; received = Close } }
    {
        let held = Held::Close;
        Record { line, held }
    }

    /// Returns the number of the line, from 1; each line past 4294967295 bears that number.
    pub fn line(&self) -> u32
        ensures { result ≡ self.now.line }
    {
        self.line
    }

    /// Lends the bytes of the datagram, or `None` for a close.
    pub fn bytes(&self) -> Option<&[u8]>
        ensures { MatchOption result (self.now.received ≡ Close)
            (λ bytes. self.now.received ≡ Datagram bytes.now) }
    {
        match &self.held {
            Held::Own(bytes) => Some(bytes.as_slice()),
            Held::Shared(bytes) => Some(bytes.as_slice()),
            Held::Close => None,
        }
    }

    /// Gives the bytes of the datagram once more, where records may share them.
    pub(crate) fn share(&self) -> Result<Option<Bytes<A>>, AllocError>
        ensures { IfOk result (λ found. IfSome found
            (λ bytes. self.now.received ≡ Datagram bytes)) }
    {
        match &self.held {
            Held::Own(_) => Ok(None),
            Held::Shared(bytes) => {
                let bytes = bytes.clone()?;
                Ok(Some(bytes))
            }
            Held::Close => Ok(None),
        }
    }
}
