//! Repeating groups.

ghost use Rattle.std.specs.Prelude.{◌≡◌, ◌<◌, ◌≤◌, ◌↔◌, [], List, ℕ, length, IfOk, IfErr, IsTrue, slice_get, Some};

use crate::number::u16_at;
use crate::refusal::Refusal;
use std::marker::Model;

/// The length of a group's dimension in bytes: the entries' block length, and their number.
const DIMENSION_LENGTH: usize = 3;

/// A repeating group, seen as the list of its entries' texts, which are lent from the datagram.
#[derive(Drop)]
pub struct Group<'a> {
    count: u8,
    entry_length: u16,
    entries: &'a [u8],
}

impl<'a> Model for Group<'a> {
    ghost use Rattle.std.specs.Prelude.{◌≤◌, ◌*◌, List, ℕ, length};
    ghost use Rattle.mdp_sbe.specs.Group.{pieces};

    ghost Value = { List (List ℕ) };

    ghost view = { λ g. pieces g.count g.entry_length g.entries.now };

    ghost invariant = { λ g. g.count * g.entry_length ≤ length g.entries.now };
}

impl<'a> Group<'a> {
    ghost use Rattle.mdp_sbe.specs.Group.{IsGroup, IsRefusedGroup};

    /// Reads the group at the front of what stands behind a root block, where each entry has at least
    /// so many bytes. With no entries their stated length may be anything.
    pub fn read(rest: &'a [u8], least: u16) -> Result<Group<'a>, Refusal>
        ensures ok { IfOk result (IsGroup rest.now least) }
        ensures err { IfErr result (IsRefusedGroup rest.now least) }
    {
        if rest.len() < DIMENSION_LENGTH {
            return Err(Refusal::GroupCut);
        }
        let entry_length = u16_at(rest, 0);
        let count = rest[2];
        if count > 0 && entry_length < least {
            return Err(Refusal::GroupShort);
        }
        let entries = &rest[DIMENSION_LENGTH..];
        if count as usize * entry_length as usize > entries.len() {
            return Err(Refusal::GroupPast);
        }
        Ok(Group {
            count,
            entry_length,
            entries,
        })
    }

    /// Returns how many entries there are, at most 255.
    pub fn len(&self) -> usize
        ensures count { result ≡ length self.now }
        ensures few { result ≤ 255 }
    {
        self.count as usize
    }

    /// Returns whether there is no entry.
    pub fn is_empty(&self) -> bool
        ensures { IsTrue result ↔ (self.now ≡ []) }
    {
        self.len() == 0
    }

    /// Lends the text of the n-th entry, counted from 0.
    pub fn entry(&self, n: usize) -> &'a [u8]
        requires { n < length self.now }
        ensures { slice_get self.now n ≡ Some result.now }
    {
        let start = n * self.entry_length as usize;
        &self.entries[start..start + self.entry_length as usize]
    }
}
