//! The lines of refused datagrams of a list, kept as words.

ghost use Rattle.std.specs.Prelude.{◌≡◌, ◌++◌, [], OnOk, OnErr};
ghost use Rattle.std.specs.List.{flat_map};
ghost use Rattle.mdp_print.specs.Texts.{refusal_line};
ghost use Rattle.mdp_pipeline.specs.RefusalTexts.{word_text};

use mdp_sbe::Refusal;
use mdp_templates::{Feed, Memory};
use std::alloc::Allocator;
use std::marker::Model;

/// A refused datagram in eight bytes: its line of the capture, counted from 1, its feed, and why it was refused.
#[derive(Clone, Copy)]
pub struct RefusalWord {
    pub line: u32,
    pub feed: Feed,
    pub refusal: Refusal,
}

/// The lines of refused datagrams, seen as their text, of which a word is kept for each.
#[derive(Drop)]
pub struct RefusedLines<A: Allocator> {
    words: Vec<RefusalWord, A>,
}

impl<A: Allocator> Model for RefusedLines<A> {
    ghost use Rattle.std.specs.Prelude.{ℕ, List};
    ghost use Rattle.std.specs.List.{flat_map};
    ghost use Rattle.mdp_pipeline.specs.RefusalTexts.{word_text};

    ghost Value = { List ℕ };

    ghost view = { λ r. flat_map word_text r.words.items };
}

impl<A: Allocator> RefusedLines<A> {
    /// Makes a text with no line.
    pub fn new(alloc: A) -> RefusedLines<A>
        ensures { result ≡ [] }
    {
        RefusedLines {
            words: Vec::new(alloc),
        }
    }

    /// Appends the line of a datagram of a feed.
    ///
    /// # Errors
    ///
    /// Where memory ran out; then the lines are as they were.
    #[tactic(auto, using(crate::proofs::Sending::one_word_more))]
    pub fn put(&mut self, feed: Feed, line: u32, refusal: Refusal) -> Result<(), Memory>
        ensures ok { OnOk result (self.new ≡ self.old ++ refusal_line feed line refusal) }
        ensures err { OnErr result (self.new ≡ self.old) }
    {
        self.words.push(RefusalWord {
            line,
            feed,
            refusal,
        })?;
        Ok(())
    }

    /// Lends the words, one for each line.
    pub fn words(&self) -> &[RefusalWord]
        ensures { flat_map word_text result.now ≡ self.now }
    {
        &self.words
    }
}
