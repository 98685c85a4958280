//! The lines of refused datagrams, feed by feed.

ghost use Rattle.std.specs.Prelude.{◌≡◌, ◌<◌, ◌^◌, ◌-◌, ◌++◌, ℕ, List, length, IfErr, OnOk};
ghost use Rattle.mdp_crew.specs.Faults.{FailsBy, written_before};
ghost use Rattle.mdp_pipeline.specs.RefusalTexts.{all_refused, no_refusals, with_refusal};
ghost use Rattle.mdp_pipeline.specs.Running.{joined_texts};
ghost use Rattle.mdp_pipeline.specs.Sending.{SendsFront};

use crate::pieces::write_words;
use crate::refused_lines::RefusedLines;
use mdp_crew::RunFault;
use mdp_print::CountedWrite;
use mdp_sbe::Refusal;
use mdp_templates::{Feed, Memory};
use std::alloc::Allocator;
use std::marker::Model;

/// The lines of refused datagrams, feed by feed.
#[derive(Drop)]
pub struct Refusals<A: Allocator> {
    a: RefusedLines<A>,
    b: RefusedLines<A>,
    s: RefusedLines<A>,
}

impl<A: Allocator> Model for Refusals<A> {
    ghost use Rattle.mdp_pipeline.specs.RefusalTexts.{RefusalTexts, refusal_texts_code};

    ghost Value = { RefusalTexts };

    ghost coded = { refusal_texts_code };

    ghost view = { λ r. record { a = r.a; b = r.b; s = r.s } };
}

impl<A: Allocator + Copy> Refusals<A> {
    /// Makes texts with no line.
    pub fn new(alloc: A) -> Refusals<A>
        ensures { result ≡ no_refusals }
    {
        Refusals {
            a: RefusedLines::new(alloc),
            b: RefusedLines::new(alloc),
            s: RefusedLines::new(alloc),
        }
    }

    /// Makes texts of the lines of the three feeds.
    ///
    /// # Errors
    ///
    /// Memory ran out for the lines of a feed.
    pub fn of(
        a: Result<RefusedLines<A>, Memory>,
        b: Result<RefusedLines<A>, Memory>,
        s: Result<RefusedLines<A>, Memory>,
    ) -> Result<Refusals<A>, Memory>
        ensures { result ≡ all_refused a b s }
    {
        Ok(Refusals {
            a: a?,
            b: b?,
            s: s?,
        })
    }

    /// Appends the line of a datagram of a feed.
    pub fn put(&mut self, feed: Feed, line: u32, refusal: Refusal) -> Result<(), Memory>
        ensures { OnOk result (self.new ≡ with_refusal feed line refusal self.old) }
    {
        match feed {
            Feed::A => self.a.put(Feed::A, line, refusal)?,
            Feed::B => self.b.put(Feed::B, line, refusal)?,
            Feed::S => self.s.put(Feed::S, line, refusal)?,
        }
        Ok(())
    }

    /// Appends the lines of feed A, then B's, then S's, to a text that is held, which goes out piece by piece: what is
    /// less than a piece stays held. The writer had taken `since` bytes before the run.
    ///
    /// # Errors
    ///
    /// `Output` where a write failed, else `Memory`. A beginning of the text went out.
    pub fn write_lines<W: CountedWrite>(
        &self,
        writer: &mut W,
        held: &mut Vec<u8, A>,
        since: u64,
    ) -> Result<(), RunFault>
        requires { W.failed writer.old < 2 ^ 64 - 1 }
        ensures sends { OnOk result (SendsFront (held.old.items ++ joined_texts self.now)
            (W.taken writer.old) (W.taken writer.new) held.new.items) }
        ensures begins { IfErr result (λ _. (rest : List ℕ)
            × SendsFront (held.old.items ++ joined_texts self.now)
            (W.taken writer.old) (W.taken writer.new) rest) }
        ensures told { IfErr result (λ fault.
            written_before fault ≡ length (W.taken writer.new) - since) }
        ensures failed { FailsBy result (W.failed writer.old) (W.failed writer.new) }
    {
        write_words(writer, held, self.a.words(), since)?;
        write_words(writer, held, self.b.words(), since)?;
        write_words(writer, held, self.s.words(), since)?;
        Ok(())
    }
}
