//! What is held of what was shown, until it is let go.

ghost use Rattle.std.specs.Prelude.{◌≡◌, [], false, true, map, IfOk};

use mdp_desks::Marked;
use mdp_templates::{Instrument, Memory};
use std::alloc::Allocator;

/// The lines of event ends and jumps, where lines are kept, and a mark for each listed security whose book an event end
/// printed.
#[derive(Drop)]
pub struct Held<A: Allocator> {
    pub(crate) text: Vec<u8, A>,
    pub(crate) changed: Marked<A>,
    pub(crate) keeps_lines: bool,
}

impl<A: Allocator + Copy> Held<A> {
    /// Holds nothing of these securities yet, and is to keep lines.
    ///
    /// # Errors
    ///
    /// Memory ran out.
    pub fn nothing(alloc: A, instruments: &[Instrument]) -> Result<Held<A>, Memory>
        ensures text { IfOk result (λ held. held.text.items ≡ []) }
        ensures changed { IfOk result (λ held. held.changed ≡ map (λ _. false) instruments.now) }
        ensures keeps { IfOk result (λ held. held.keeps_lines ≡ true) }
    {
        Ok(Held {
            text: Vec::new(alloc),
            changed: Marked::none(alloc, instruments.len())?,
            keeps_lines: true,
        })
    }

    /// Lets go what is held, and keeps the room that the lines took for those that come.
    pub fn clear(&mut self)
        ensures text { self.new.text.items ≡ [] }
        ensures changed { self.new.changed ≡ map (λ _. false) self.old.changed }
        ensures keeps { self.new.keeps_lines ≡ self.old.keeps_lines }
    {
        self.text.clear();
        self.changed.clear();
    }
}
