//! One entry of a book message.

ghost use Rattle.std.specs.Prelude.{◌≡◌, ◌≤◌, length};
ghost use Rattle.mdp_templates.specs.Entry.{kind_of, action_of, level_of, quote_of, action_quote, entry_of};

use crate::layout::GroupEntry;
use mdp_sbe::{Refusal, i32_at, i64_at};

/// How many levels a direct side has at most.
pub const DIRECT_DEPTH: usize = 10;

/// How many levels an implied side has at most.
pub const IMPLIED_DEPTH: usize = 2;

/// The side of the book that an entry is for: bids or offers, direct or implied.
#[derive(Clone, Copy, Debug, PartialEq, Eq)]
pub enum Kind {
    Bid,
    Offer,
    ImpliedBid,
    ImpliedOffer,
}

/// What an entry does at its level (MDP 3.0, the update action).
#[derive(Clone, Copy, Debug, PartialEq, Eq)]
pub enum Action {
    New,
    Change,
    Delete,
}

/// One level of a side: a price in units of 10^-9, and the size at that price.
#[derive(Clone, Copy, Debug, PartialEq, Eq, Default)]
pub struct Level {
    pub price: i64,
    pub size: i32,
}

/// An entry of an incremental book message. Of a delete the price and the size mean nothing.
#[derive(Clone, Copy, Debug, PartialEq, Eq)]
pub struct Entry {
    /// The security that the entry names.
    pub security: i32,
    pub kind: Kind,
    pub action: Action,
    /// The position that the entry is for: 1 is the best, at most [`DIRECT_DEPTH`], on an implied side
    /// at most [`IMPLIED_DEPTH`].
    pub level: u8,
    pub price: i64,
    pub size: i32,
}

/// The null price, which no level has.
const NULL_PRICE: i64 = 9223372036854775807;

/// The null size, which no level has.
const NULL_SIZE: i32 = 2147483647;

/// The sides by bits 5 and 0 of their entry types, in which the ASCII characters `0`, `1`, `E` and `F` differ. Sides
/// follow one another in no order, so a jump that depends on the side is guessed wrongly half of the time; to look the
/// side up takes none.
const KINDS: [Kind; 4] = [Kind::ImpliedOffer, Kind::ImpliedBid, Kind::Bid, Kind::Offer];

/// Reads the side that an entry type names, an ASCII character.
pub(crate) fn read_kind(byte: u8) -> Result<Kind, Refusal>
    ensures { result ≡ kind_of byte }
{
    if byte != b'0' && byte != b'1' && byte != b'E' && byte != b'F' {
        return Err(Refusal::EntryType);
    }
    let code = (byte >> 4 & 2) | (byte & 1);
    Ok(KINDS[usize::from(code)])
}

// Reads the update action that a byte says, or answers its refusal.
fn read_action(byte: u8) -> Result<Action, Refusal>
    ensures { result ≡ action_of byte }
{
    match byte {
        0 => Ok(Action::New),
        1 => Ok(Action::Change),
        2 => Ok(Action::Delete),
        _ => Err(Refusal::Action),
    }
}

/// Reads the position of a level, inside the depth of its side.
pub(crate) fn read_position(kind: Kind, level: u8) -> Result<u8, Refusal>
    ensures { result ≡ level_of kind level }
{
    let depth = match kind {
        Kind::Bid | Kind::Offer => DIRECT_DEPTH,
        Kind::ImpliedBid | Kind::ImpliedOffer => IMPLIED_DEPTH,
    };
    if level == 0 || usize::from(level) > depth {
        return Err(Refusal::Level);
    }
    Ok(level)
}

/// Reads a level with a price and a size, neither of them null, the size not negative.
pub(crate) fn read_level(price: i64, size: i32) -> Result<Level, Refusal>
    ensures { result ≡ quote_of price size }
{
    if price == NULL_PRICE {
        return Err(Refusal::Price);
    }
    if size == NULL_SIZE || size < 0 {
        return Err(Refusal::Size);
    }
    Ok(Level { price, size })
}

// With a delete the price and the size decide nothing. They are looked at first all the same: few are such as no level
// has, so that mostly nothing depends on the action.
fn read_quoted(action: Action, price: i64, size: i32) -> Result<Level, Refusal>
    ensures { result ≡ action_quote action price size }
{
    if price != NULL_PRICE && size != NULL_SIZE && size >= 0 {
        return Ok(Level { price, size });
    }
    match action {
        Action::New | Action::Change => read_level(price, size),
        Action::Delete => Ok(Level { price, size }),
    }
}

// Reads an entry of template 46, or answers the first refusal that holds.
#[tactic(auto, unfolding(crate::specs::Entry::entry_of))]
fn read_entry(text: &[u8]) -> Result<Entry, Refusal>
    requires { 27 ≤ length text.now }
    ensures { result ≡ entry_of text.now }
{
    let kind = read_kind(text[26])?;
    let action = read_action(text[25])?;
    let level = read_position(kind, text[24])?;
    let quote = read_quoted(action, i64_at(text, 0), i32_at(text, 8))?;
    let security = i32_at(text, 12);
    Ok(Entry {
        security,
        kind,
        action,
        level,
        price: quote.price,
        size: quote.size,
    })
}

impl GroupEntry for Entry {
    const LENGTH: u16 = 27;

    ghost LENGTH = { 27 };

    ghost reads = { entry_of };

    fn read(text: &[u8]) -> Result<Entry, Refusal> {
        read_entry(text)
    }
}
