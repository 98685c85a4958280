//! A decoder of single lines, for runs that handle a capture as it comes.

ghost use Rattle.std.specs.Prelude.{◌≡◌, ◌<◌, [], false, true, length, is_some, OnOk, OnErr, IfOk};
ghost use Rattle.mdp_capture.specs.Decoded.{KnowsDatagramOf, content_with};
ghost use Rattle.mdp_capture.specs.Line.{line_of};
ghost use Rattle.mdp_capture.specs.Parsed.{ListsDepth};
ghost use Rattle.mdp_capture.specs.Repeats.{Spells, bytes_in};

use crate::blocks::decode_into;
use crate::line::{Line, digits_in, line_of};
use crate::repeats::has_digits;
use crate::skip::Skip;
use bytes::BytesMut;
use mdp_templates::{Feed, Instrument, LONGEST_DATAGRAM};
use std::alloc::{AllocError, Allocator};
use std::marker::Model;

/// What a line of a capture says.
#[derive(Drop)]
pub enum DecodedLine {
    /// Nothing: the line is empty.
    Blank,
    /// An instrument of the channel.
    Instrument(Instrument),
    /// A datagram of this feed, whose bytes the decoder lends.
    Datagram(Feed),
    /// The close of the channel.
    Close,
    /// Nothing that could be read, for this reason.
    Skipped(Skip),
}

/// Decodes lines of a capture one after another. It keeps the bytes of the datagram that it decoded last, in room for
/// 2,048 bytes, which it takes once. It is seen as these bytes, and whether it knows them: whether the line that it
/// decoded last brought them.
#[derive(Drop)]
pub struct LineDecoder<A: Allocator> {
    room: BytesMut<A>,
    is_known: bool,
}

impl<A: Allocator> Model for LineDecoder<A> {
    ghost use Rattle.mdp_capture.specs.Decoded.{DecoderContent};

    ghost Value = { DecoderContent };

    ghost view = { λ d. record {
      bytes = d.room.items;
      is_known = d.is_known;
    } };
}

impl<A: Allocator + Copy> LineDecoder<A> {
    /// Makes a decoder that knows no datagram, and takes no memory.
    pub fn new(alloc: A) -> LineDecoder<A>
        ensures { result ≡ record { bytes = []; is_known = false } }
    {
        LineDecoder {
            room: BytesMut::new(alloc),
            is_known: false,
        }
    }

    /// Lends the bytes of the datagram that the last line brought, 1 to 2,048. After any other line, and after want of
    /// memory, they mean nothing.
    pub fn bytes(&self) -> &[u8]
        ensures { result.now ≡ self.now.bytes }
    {
        self.room.as_slice()
    }

    /// Decodes a line, without its line feed and the carriage return before it. `last` is the line that was decoded
    /// before it, and empty where that is not at hand: the digits of a line that repeats its datagram are not decoded
    /// anew.
    ///
    /// # Errors
    ///
    /// Memory ran out: the decoder knows no datagram, and decodes any line next, also this one.
    pub fn decode(&mut self, alloc: A, text: &[u8], last: &[u8]) -> Result<DecodedLine, AllocError>
        requires { 0 < length last.now → KnowsDatagramOf last.now self.old }
        ensures content { IfOk result (λ line.
            content_with self.new.bytes line ≡ line_of text.now) }
        ensures depth { IfOk result (λ line. ListsDepth (content_with self.new.bytes line)) }
        ensures known { OnOk result (self.new.is_known ≡ is_some (bytes_in (line_of text.now))) }
        ensures knows { OnOk result (KnowsDatagramOf text.now self.new) }
        ensures memory { OnErr result (self.new.is_known ≡ false) }
    {
        let Some((feed, digits)) = digits_in(text) else {
            return self.decode_other(alloc, text);
        };
        if self.take_digits(alloc, digits, last)? {
            return Ok(DecodedLine::Datagram(feed));
        }
        self.decode_other(alloc, text)
    }

    // Sees to it that the room has the bytes of these digits, where they are a datagram's, and returns whether it has.
    fn take_digits(&mut self, alloc: A, digits: &[u8], last: &[u8]) -> Result<bool, AllocError>
        requires { 0 < length last.now → KnowsDatagramOf last.now self.old }
        ensures spelt { IfOk result (λ is_spelt.
            is_spelt ≡ true → Spells digits.now self.new.bytes) }
        ensures known { IfOk result (λ is_spelt. self.new.is_known ≡ is_spelt) }
        ensures memory { OnErr result (self.new.is_known ≡ false) }
    {
        if self.has_bytes_of(digits, last) {
            return Ok(true);
        }
        self.is_known = false;
        let is_spelt = decode_into(alloc, digits, LONGEST_DATAGRAM, &mut self.room)?;
        self.is_known = is_spelt;
        Ok(is_spelt)
    }

    // Returns whether the bytes of these digits are at hand, because the line before has the same digits.
    fn has_bytes_of(&self, digits: &[u8], last: &[u8]) -> bool
        requires { 0 < length last.now → KnowsDatagramOf last.now self.now }
        ensures known { result ≡ true → self.now.is_known ≡ true }
        ensures spelt { result ≡ true → Spells digits.now self.now.bytes }
    {
        if !self.is_known {
            return false;
        }
        if last.is_empty() {
            return false;
        }
        has_digits(last, digits)
    }

    // Decodes a line whose datagram, if it brings one, is not in the room.
    fn decode_other(&mut self, alloc: A, text: &[u8]) -> Result<DecodedLine, AllocError>
        ensures content { IfOk result (λ line.
            content_with self.new.bytes line ≡ line_of text.now) }
        ensures depth { IfOk result (λ line. ListsDepth (content_with self.new.bytes line)) }
        ensures known { OnOk result (self.new.is_known ≡ is_some (bytes_in (line_of text.now))) }
        ensures knows { OnOk result (KnowsDatagramOf text.now self.new) }
        ensures memory { OnErr result (self.new.is_known ≡ false) }
    {
        self.is_known = false;
        match line_of(alloc, text)? {
            Line::Blank => Ok(DecodedLine::Blank),
            Line::Listing(instrument) => Ok(DecodedLine::Instrument(instrument)),
            Line::Packet(feed, bytes) => {
                self.keep(bytes.as_slice())?;
                Ok(DecodedLine::Datagram(feed))
            }
            Line::Shared(feed, bytes) => {
                self.keep(bytes.as_slice())?;
                Ok(DecodedLine::Datagram(feed))
            }
            Line::Closing => Ok(DecodedLine::Close),
            Line::Skipped(skip) => Ok(DecodedLine::Skipped(skip)),
        }
    }

    // Keeps the bytes of a datagram, in the place of those before.
    fn keep(&mut self, bytes: &[u8]) -> Result<(), AllocError>
        ensures kept { OnOk result (self.new ≡ record { bytes = bytes.now; is_known = true }) }
        ensures memory { OnErr result (self.new.is_known ≡ false) }
    {
        self.is_known = false;
        self.room.clear();
        self.room.extend_from_slice(bytes)?;
        self.is_known = true;
        Ok(())
    }
}
