//! Where the entries of a packet's messages lie. The places of few messages are kept in the packet itself, and need no
//! allocation; those of more are kept in a list.

ghost use Rattle.std.specs.Prelude.{◌≡◌, ◌++◌, ◌∷◌, [], IfOk, OnErr, OnOk};

use arrayvec::ArrayVec;
use std::alloc::{AllocError, Allocator};
use std::marker::Model;

/// Where a message's entries lie in the list of its packet: from this place on, so many; and whether it ends its event.
#[derive(Clone, Copy, Default)]
pub struct Span {
    pub start: usize,
    pub count: u8,
    pub end: bool,
}

/// The places of how many messages are kept without an allocation.
const USUAL_MESSAGES: usize = 3;

/// Places, wherever they lie.
#[derive(Drop)]
enum Held<A: Allocator> {
    Few(ArrayVec<Span, USUAL_MESSAGES>),
    Many(Vec<Span, A>),
}

/// The places of a packet's messages, seen as their list.
#[derive(Drop)]
pub struct Spans<A: Allocator> {
    held: Held<A>,
}

impl<A: Allocator> Model for Spans<A> {
    ghost use Rattle.std.specs.Prelude.{List};
    ghost use Rattle.mdp_templates.specs.declared.spans.Span.{Span};
    ghost use Rattle.mdp_templates.specs.Held.{spans_of};

    ghost Value = { List Span };

    ghost view = { λ s. spans_of s.held };
}

impl<A: Allocator> Spans<A> {
    /// Gives none; it takes no memory.
    pub fn new() -> Spans<A>
        ensures { result ≡ [] }
    {
        let held = Held::Few(ArrayVec::new());
        Spans { held }
    }

    /// Forgets all places, and keeps the room that they took.
    pub fn clear(&mut self)
        ensures { self.new ≡ [] }
    {
        match &mut self.held {
            Held::Few(few) => few.clear(),
            Held::Many(many) => many.clear(),
        }
    }

    /// Lends the places, in the order of the messages.
    pub fn as_slice(&self) -> &[Span]
        ensures { result.now ≡ self.now }
    {
        match &self.held {
            Held::Few(spans) => spans.as_slice(),
            Held::Many(spans) => spans.as_slice(),
        }
    }

    /// Gives the same places once more.
    pub fn from_slice(alloc: A, spans: &[Span]) -> Result<Spans<A>, AllocError>
        ensures { IfOk result (λ copy. copy ≡ spans.now) }
    {
        let mut few = ArrayVec::new();
        if few.try_extend_from_slice(spans).is_ok() {
            let held = Held::Few(few);
            return Ok(Spans { held });
        }
        let held = Held::Many(Vec::from_slice(alloc, spans)?);
        Ok(Spans { held })
    }

    /// Adds the place of a message behind the others.
    pub fn push(&mut self, alloc: A, span: Span) -> Result<(), AllocError>
        ensures ok { OnOk result (self.new ≡ self.old ++ span ∷ []) }
        ensures err { OnErr result (self.new ≡ self.old) }
    {
        match &mut self.held {
            Held::Few(few) => {
                if few.try_push(span).is_ok() {
                    return Ok(());
                }
                let many = with_another(alloc, few.as_slice(), span)?;
                self.held = Held::Many(many);
            }
            Held::Many(many) => many.push(span)?,
        }
        Ok(())
    }
}

// Gives a list of these places and one more.
fn with_another<A: Allocator>(
    alloc: A,
    spans: &[Span],
    last: Span,
) -> Result<Vec<Span, A>, AllocError>
    ensures { IfOk result (λ list. list.items ≡ spans.now ++ last ∷ []) }
{
    let mut list = Vec::from_slice(alloc, spans)?;
    list.push(last)?;
    Ok(list)
}
