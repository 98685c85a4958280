//! The history of a board: all steps that were published, in order. It stands in proofs alone; at run time it is one
//! word, its length.

ghost use Rattle.std.specs.Prelude.{◌≡◌, ◌+◌, ◌<◌, ◌^◌, [], ◌∷◌, ◌++◌, length, IsTrue};
ghost use Rattle.mdp_lanes.specs.History.{head_of};
ghost use Rattle.mdp_lanes.specs.Updates.{step_of};

use crate::step::Step;
use crate::update::Change;
use logbook::{Gain, Offer, Plain, Play, Rule, Seen, Start, Word};
use std::alloc::Allocator;

/// A front of the history that was seen. It has no bytes.
pub type Front = Seen<Step, u64, HasLength>;

/// The history's word.
pub(crate) type Head = Word<Step, u64, HasLength>;

/// The rule: the word holds how many steps there are.
pub struct HasLength;

impl Rule<Step, u64> for HasLength {
    ghost use Rattle.std.specs.Prelude.{[]};
    ghost use base.Fml.{ftrue};
    ghost use Rattle.mdp_lanes.specs.History.{HasLength as holds_length};

    ghost holds = { λ cells steps. holds_length cells steps };

    ghost first = { [] };

    ghost hinted = { λ n steps. Unit {0} };

    ghost shows = { λ steps. [] };

    ghost keeps = { λ names steps. ftrue };

    ghost moves = { λ ask before after answer. Unit {0} };
}

/// Who adds a step gains nothing else.
pub struct GainsNothing;

impl Gain<Step, u64> for GainsNothing {
    ghost use base.Fml.{ftrue};

    ghost after = { λ names about answer. ftrue };
}

/// The exchange that adds a step.
pub struct AddStep;

impl Play<Step, u64> for AddStep {
    ghost use Rattle.mdp_lanes.specs.History.{Adds};

    ghost then = { Adds };
}

impl<A: Allocator> Plain<Change<A>, Step, u64> for AddStep {
    ghost use Rattle.std.specs.Prelude.{None};
    ghost use Rattle.mdp_lanes.specs.Updates.{step_of};

    ghost ask = { step_of };

    ghost state = { λ change. None };
}

/// Opens a history with no step.
pub(crate) fn open() -> (Head, Front)
    ensures { (result.0 ≡ head_of result.1.book) × (result.1.log ≡ []) }
{
    let (front, mut first, _second) = Seen::open(Start::alone(), 0, 0);
    (Word::tracked(0, &mut first), front)
}

/// Adds a step to the history and to `front`, where the history is as long as `front`, whose length is `count`. Answers
/// whether it was; it always is, since no one else adds steps.
pub(crate) fn add<A: Allocator>(
    head: &Head,
    front: &mut Front,
    change: &Change<A>,
    count: u64,
) -> bool
    requires head { head.now ≡ head_of front.old.book }
    requires count { (count ≡ length front.old.log) × (count + 1 < 2 ^ 64) }
    ensures book { front.new.book ≡ front.old.book }
    ensures added { IsTrue result → front.new.log ≡ front.old.log ++ step_of change.now ∷ [] }
{
    let mut offer: Offer<Step, u64, HasLength, GainsNothing> = front.plain::<
        GainsNothing,
        Change<A>,
        AddStep,
    >(change);
    let mut pen = front.no_pen();
    let found = head.compare_exchange::<AddStep, GainsNothing>(
        count,
        count + 1,
        front,
        &mut offer,
        &mut pen,
    );
    found == count
}
