//! The messages of a packet.

ghost use Rattle.std.specs.Prelude.{◌≡◌, ◌↔◌, [], List, ℕ, IfOk, IfErr, IfSome, IfNone, IsNone};

use crate::number::u16_at;
use crate::refusal::Refusal;
use std::marker::Model;

/// The message size and the SBE header in bytes, which stand before a message's body.
const HEADER_LENGTH: usize = 10;

/// The schema id of the messages that are read.
const SCHEMA: u16 = 1;

/// A message of a packet: what its header states, and its body, lent from the datagram.
#[derive(Clone, Copy)]
pub struct Message<'a> {
    /// The length of the root block in bytes, as stated; it may be past the body's end.
    pub block_length: u16,
    /// The template id.
    pub template: u16,
    /// The version of the schema; every version is read.
    pub version: u16,
    /// What follows the header.
    pub body: &'a [u8],
}

impl<'a> Message<'a> {
    ghost use Rattle.mdp_sbe.specs.Framing.{IsRoot, IsRefusedRoot, parts};

    /// Lends the root block and what stands behind it, where the block has at least so many bytes and lies inside the
    /// body.
    pub fn root(&self, least: u16) -> Result<(&'a [u8], &'a [u8]), Refusal>
        ensures ok { IfOk result (λ p. IsRoot (parts self.now) least p.0.now p.1.now) }
        ensures err { IfErr result (IsRefusedRoot (parts self.now) least) }
    {
        if self.block_length < least {
            return Err(Refusal::BlockShort);
        }
        let length = self.block_length as usize;
        if length > self.body.len() {
            return Err(Refusal::BlockPast);
        }
        Ok(self.body.split_at(length))
    }
}

/// A cursor over the messages of a packet, seen as the bytes that are left. After a refusal none are.
#[derive(Drop)]
pub struct Messages<'a> {
    rest: &'a [u8],
}

impl<'a> Model for Messages<'a> {
    ghost Value = { List ℕ };

    ghost view = { λ m. m.rest.now };
}

impl<'a> Messages<'a> {
    ghost use Rattle.mdp_sbe.specs.Framing.{BeginsMessage, IsUnframed, parts};

    /// Makes a cursor over what stands behind a packet header.
    pub fn new(rest: &'a [u8]) -> Messages<'a>
        ensures { result ≡ rest.now }
    {
        Messages { rest }
    }

    /// Gives the next message, or the first refusal that holds there. At the end, and after a refusal, there is none.
    pub fn next(&mut self) -> Option<Result<Message<'a>, Refusal>>
        ensures none { IsNone result ↔ (self.old ≡ []) }
        ensures end { IfNone result (self.new ≡ []) }
        ensures ok { IfSome result (λ r. IfOk r (λ m. BeginsMessage self.old (parts m) self.new)) }
        ensures err { IfSome result (λ r. IfErr r (λ e. IsUnframed self.old e × (self.new ≡ []))) }
    {
        let rest = self.rest;
        self.rest = &[];
        if rest.is_empty() {
            return None;
        }
        if rest.len() < 2 {
            return Some(Err(Refusal::SizeCut));
        }
        let size = u16_at(rest, 0) as usize;
        if size < HEADER_LENGTH {
            return Some(Err(Refusal::SizeSmall));
        }
        if size > rest.len() {
            return Some(Err(Refusal::SizePast));
        }
        let (text, after) = rest.split_at(size);
        if u16_at(text, 6) != SCHEMA {
            return Some(Err(Refusal::Schema));
        }
        self.rest = after;
        Some(Ok(lend(text)))
    }
}

ghost use Rattle.mdp_sbe.specs.Framing.{IsMessage, parts, parts_of};

// Gives the parts of a message's text.
fn lend<'a>(text: &'a [u8]) -> Message<'a>
    requires { IsMessage text.now }
    ensures { parts result ≡ parts_of text.now }
{
    let block_length = u16_at(text, 2);
    let template = u16_at(text, 4);
    let version = u16_at(text, 8);
    let body = &text[HEADER_LENGTH..];
    Message {
        block_length,
        template,
        version,
        body,
    }
}
