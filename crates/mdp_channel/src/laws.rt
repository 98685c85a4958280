//! What the definitions of a channel file say of every text, as a function that only carries a proof.

ghost use Rattle.std.specs.Prelude.{List, ℕ};
ghost use Rattle.mdp_channel.specs.Channel.{HasOneAnswer};

/// Proves that each text comes to one channel or to one fault, and never to both.
pub fn one_channel()
    ensures { (text : List ℕ) → HasOneAnswer text }
{}
