//! The sides of a snapshot, gathered from entries that stand in any order.

ghost use Rattle.std.specs.Prelude.{◌≡◌, ◌≤◌, List, [], Some, true, false};
ghost use Rattle.mdp_templates.specs.declared.entry.Level.{Level};
ghost use Rattle.mdp_templates.specs.Entry.{direct_depth};
ghost use Rattle.mdp_templates.specs.Recovery.{IsSide, same_kind};
ghost use Rattle.mdp_templates.specs.Side.{AreFound, AreShallow, Notes, found_and};

use crate::entry::{Kind, Level};
use crate::quote::Quote;
use arrayvec::ArrayVec;

/// The levels that stand at one position of a side.
#[derive(Clone, Copy, Debug, PartialEq, Eq)]
pub enum Found {
    Nothing,
    One(Level),
    Many,
}

impl Found {
    // Gives these levels and one more.
    fn and(self, level: Level) -> Found
        ensures { result ≡ found_and self (Some level) }
    {
        match self {
            Found::Nothing => Found::One(level),
            Found::One(_) | Found::Many => Found::Many,
        }
    }
}

// Returns whether an entry is for this side.
fn is_for(quote: &Quote, kind: Kind) -> bool
    ensures { result ≡ same_kind quote.now.kind kind }
{
    quote.kind == kind
}

// Adds the level of an entry to what was found at its position, where the entry is for this side and its position among
// these.
fn note(found: &mut [Found], quote: &Option<Quote>, kind: Kind)
    ensures { Notes kind quote.now found.old found.new }
{
    let Some(quote) = quote else {
        return;
    };
    let position = usize::from(quote.position);
    if is_for(quote, kind) && 0 < position && position <= found.len() {
        found[position - 1] = found[position - 1].and(quote.level);
    }
}

// Finds the levels that these entries give at each position of a side, from 1 on.
fn find_all<const DEPTH: usize>(quotes: &[Option<Quote>], kind: Kind) -> [Found; DEPTH]
    ensures { AreFound kind quotes.now result }
{
    let mut found = [Found::Nothing; DEPTH];
    for quote in quotes {
        note(&mut found, quote, kind);
    }
    found
}

/// Gathers the side that these entries give into an empty list, and returns whether its levels are 1 to n, each once.
pub(crate) fn gather<const DEPTH: usize>(
    quotes: &[Option<Quote>],
    kind: Kind,
    side: &mut ArrayVec<Level, DEPTH>,
) -> bool
    requires few { DEPTH ≤ direct_depth }
    requires shallow { AreShallow kind DEPTH quotes.now }
    requires empty { side.old.items ≡ [] }
    ensures whole { result ≡ true → IsSide kind quotes.now side.new.items }
    ensures bad { result ≡ false → (levels : List Level) → IsSide kind quotes.now levels → ⊥ }
{
    let found: [Found; DEPTH] = find_all(quotes, kind);
    for place in 0..DEPTH {
        match found[place] {
            Found::Nothing => {}
            Found::One(level) if side.len() == place => side.push(level),
            Found::One(_) => return false,
            Found::Many => return false,
        }
    }
    true
}
