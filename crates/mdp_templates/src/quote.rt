//! What an entry of a snapshot message gives.

ghost use Rattle.std.specs.Prelude.{◌≡◌, ◌≤◌, length};
ghost use Rattle.mdp_templates.specs.Recovery.{quote_as, quote_in};

use crate::entry::{Kind, Level, read_kind, read_level, read_position};
use crate::layout::GroupEntry;
use mdp_sbe::{Refusal, i32_at, i64_at};

/// A level at a position of a side, counted from 1.
#[derive(Clone, Copy, Debug, PartialEq, Eq)]
pub struct Quote {
    pub kind: Kind,
    pub position: u8,
    pub level: Level,
}

// Reads an entry of this kind, which is one of the four of a book.
fn read_quote(kind: Kind, text: &[u8]) -> Result<Option<Quote>, Refusal>
    requires { 22 ≤ length text.now }
    ensures { result ≡ quote_as kind text.now }
{
    let position = read_position(kind, text[16])?;
    let level = read_level(i64_at(text, 0), i32_at(text, 8))?;
    Ok(Some(Quote {
        kind,
        position,
        level,
    }))
}

// Reads an entry of any kind; none of one that no book has.
#[tactic(auto, unfolding(crate::specs::Recovery::quote_in))]
fn read_any(text: &[u8]) -> Result<Option<Quote>, Refusal>
    requires { 22 ≤ length text.now }
    ensures { result ≡ quote_in text.now }
{
    match read_kind(text[21]) {
        Ok(kind) => read_quote(kind, text),
        Err(_) => Ok(None),
    }
}

/// The quote of an entry; an entry of a type that no side has gives none.
impl GroupEntry for Option<Quote> {
    const LENGTH: u16 = 22;

    ghost LENGTH = { 22 };

    ghost reads = { quote_in };

    fn read(text: &[u8]) -> Result<Option<Quote>, Refusal> {
        read_any(text)
    }
}
