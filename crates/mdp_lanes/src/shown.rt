//! What holds of the copy that readers look at, and of what each end knows of it.

use crate::history::Front;
use crate::sheet::Sheet;
use atomic_table::{Join, Split};
use crossbeam_utils::rule::{Outcome, Protocol};
use std::alloc::Allocator;

/// What an end knows of its board: that there are so many slots at least, and which board it is. No value of it is
/// made.
pub struct Known {
    pub slots: u64,
    pub front: Front,
}

/// The rule: the copy has the rows of its steps, and what each end knows is so.
pub struct IsShown;

impl<A: Allocator> Protocol<Sheet<A>, Known> for IsShown {
    ghost use Rattle.mdp_lanes.specs.Boards.{IsBoard, newcomer};

    ghost holds = { IsBoard };

    ghost first = { newcomer };
}

/// A look at the copy that is shown, and a new copy shown.
pub struct Look;

impl<A: Allocator> Outcome<Sheet<A>, Known> for Look {
    ghost use Rattle.mdp_lanes.specs.Boards.{Finds};

    ghost then = { Finds };
}

/// How the publisher tells a new reader what it knows.
pub struct Introduction;

impl Split<Known> for Introduction {
    ghost left = { λ v. v };

    ghost right = { λ v. v };
}

impl Join<Known> for Introduction {
    ghost use Rattle.mdp_lanes.specs.Boards.{newcomer};

    ghost both = { λ v w. w };

    ghost spent = { newcomer };
}
