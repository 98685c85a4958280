//! Moves that threads share.

ghost use Rattle.std.specs.Prelude.{◌≡◌, IfOk, map};
ghost use Rattle.mdp_arbiter.specs.OwnedMoves.{move_of};

use mdp_arbiter::OwnedMove;
use mdp_templates::Memory;
use std::alloc::Allocator;
use std::marker::Model;
use std::sync::Arc;

/// Moves one after another, seen as the machine's. No one can change them, and a share costs a count and no copy.
#[derive(Drop)]
pub struct SharedMoves<A: Allocator> {
    shared: Arc<Vec<OwnedMove<A>, A>, A>,
}

impl<A: Allocator> Model for SharedMoves<A> {
    ghost use Rattle.std.specs.Prelude.{List, map};
    ghost use Rattle.std.specs.Arc.{arc_value};
    ghost use Rattle.mdp_arbiter.specs.Machine.{Move};
    ghost use Rattle.mdp_arbiter.specs.OwnedMoves.{move_of, moves_code};

    ghost Value = { List Move };

    ghost coded = { moves_code };

    ghost view = { λ s. map move_of (arc_value s.shared).items };
}

impl<A: Allocator + Copy> SharedMoves<A> {
    /// Makes these moves ones that can be shared.
    ///
    /// # Errors
    ///
    /// Memory ran out.
    pub fn new(alloc: A, owned_moves: Vec<OwnedMove<A>, A>) -> Result<SharedMoves<A>, Memory>
        ensures { IfOk result (λ moves. moves ≡ map move_of owned_moves.items) }
    {
        let shared = Arc::new(alloc, owned_moves)?;
        Ok(SharedMoves { shared })
    }

    /// Gives the same moves to one more.
    ///
    /// # Errors
    ///
    /// `Memory` where there are as many shares as can be counted; no memory is taken.
    pub fn share(&self) -> Result<SharedMoves<A>, Memory>
        ensures { IfOk result (λ moves. moves ≡ self.now) }
    {
        let shared = Arc::try_clone(&self.shared)?;
        Ok(SharedMoves { shared })
    }

    /// Lends the moves, in their order.
    pub fn as_slice(&self) -> &[OwnedMove<A>]
        ensures { map move_of result.now ≡ self.now }
    {
        self.shared.as_slice()
    }
}
