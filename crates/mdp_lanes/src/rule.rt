//! What an end of a queue knows of what went through it.

use crossbeam_channel::protocol::{Join, Split};
use std::collections::LinkedList;

/// What one end knows: whether it receives, what it has received, and its rights. A right is a key under which this end
/// alone sends, beside all that was sent under it. It stands in proofs alone: no value of it is made.
pub struct Knowledge<K, X, M> {
    pub receives: bool,
    pub taken: LinkedList<M>,
    pub rights: LinkedList<(K, LinkedList<X>)>,
}

/// How a receiver gives its first right to a sender, and takes in the rights of a sender.
pub struct Account;

impl<K, X, M> Split<Knowledge<K, X, M>> for Account {
    ghost use Rattle.std.specs.Prelude.{take, drop};
    ghost use Rattle.mdp_lanes.specs.Rule.{sender, receiver};

    ghost left = { λ v. receiver v.taken (drop 1 v.rights) };

    ghost right = { λ v. sender (take 1 v.rights) };
}

impl<K, X, M> Join<Knowledge<K, X, M>> for Account {
    ghost use Rattle.std.specs.Prelude.{[], ◌++◌};
    ghost use Rattle.mdp_lanes.specs.Rule.{sender, receiver};

    ghost both = { λ v w. receiver v.taken (v.rights ++ w.rights) };

    ghost spent = { sender [] };
}
