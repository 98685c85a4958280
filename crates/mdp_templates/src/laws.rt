//! What the definitions of the datagrams say of every text, as functions that only carry a proof.

ghost use Rattle.std.specs.Prelude.{◌↔◌, List, ℕ};
ghost use Rattle.mdp_sbe.specs.Answer.{HasOneAnswer};
ghost use Rattle.mdp_templates.specs.Framed.{IsFramedPacket, AreFramedSnapshots};
ghost use Rattle.mdp_templates.specs.Incremental.{IsPacket};
ghost use Rattle.mdp_templates.specs.Packet.{PacketContent};
ghost use Rattle.mdp_templates.specs.Recovery.{AreSnapshots};
ghost use Rattle.mdp_templates.specs.Refused.{IsRefusedAs};
ghost use Rattle.mdp_templates.specs.Refused.FeedKind.{incremental, recovery};
ghost use Rattle.mdp_templates.specs.Snapshot.{SnapshotContent};

/// Proves that on each feed every text has exactly one value or exactly one refusal, never both.
pub fn one_answer()
    ensures incremental { (text : List ℕ)
        → HasOneAnswer (IsPacket text) (IsRefusedAs incremental text) }
    ensures recovery { (text : List ℕ) → HasOneAnswer (AreSnapshots text)
        (IsRefusedAs recovery text) }
{}

/// Proves that a text is a datagram of a feed exactly where it is framed, message by message, as parts of which each
/// has its value: the framing alone tells the messages apart.
pub fn datagrams_are_framed()
    ensures packet { (text : List ℕ) (value : PacketContent)
        → IsPacket text value ↔ IsFramedPacket text value }
    ensures snapshots { (text : List ℕ) (values : List SnapshotContent)
        → AreSnapshots text values ↔ AreFramedSnapshots text values }
{}
