//! What the definitions of the framing say of every text, as functions that only carry a proof.

ghost use Rattle.std.specs.Prelude.{◌≡◌, List, ℕ};
ghost use Rattle.mdp_sbe.specs.Framing.{IsFramed, Parts};
ghost use Rattle.mdp_sbe.specs.declared.header.Header.{Header};

/// Proves that a datagram is framed in one way at most: since each size leads its message, no message begins another.
pub fn one_framing()
    ensures { (text : List ℕ) (header other : Header) (messages others : List Parts)
        → IsFramed text header messages → IsFramed text other others → (header ≡ other)
        × (messages ≡ others) }
{}
