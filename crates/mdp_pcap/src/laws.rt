//! What the definitions say of every text, as functions that only carry a proof.

ghost use Rattle.std.specs.Prelude.{◌≡◌, List, ℕ, ◌++◌, slice_get, Some, None};
ghost use Rattle.mdp_pcap.specs.Address.{AreApart, feed_at};
ghost use Rattle.mdp_pcap.specs.File.{HasOnePcap};
ghost use Rattle.mdp_pcap.specs.Reader.{ReaderContent, Takes, IsReadWhole, HasHandedOn, at_first};
ghost use Rattle.mdp_pcap.specs.declared.addresses.FeedAddress.{FeedAddress};
ghost use Rattle.mdp_pcap.specs.declared.layout.PcapFault.{PcapFault};

use crate::pcap_reader::TakesFrames;

/// Proves that each text holds one thing: the frames up to its end or its first fault, and that fault.
pub fn one_answer()
    ensures { (text : List ℕ) → HasOnePcap text }
{}

/// Proves that pieces add: what is whole of a text and then of what was held and a piece is whole of both.
pub fn pieces_add<S: TakesFrames>()
    ensures { (old middle now : ReaderContent) (text piece : List ℕ) (before between after : S) →
        IsReadWhole (Takes S.holds before between) old middle text → middle.fault ≡ None →
        IsReadWhole (Takes S.holds between after) middle now (middle.held ++ piece) →
        IsReadWhole (Takes S.holds before after) old now (text ++ piece) }
{}

/// Proves that a fault is one whatever follows: a reader that met one need read nothing more.
pub fn faults_stay<S: TakesFrames>()
    ensures { (old now : ReaderContent) (text piece : List ℕ) (before after : S)
        (fault : PcapFault) →
        IsReadWhole (Takes S.holds before after) old now text → now.fault ≡ Some fault →
        IsReadWhole (Takes S.holds before after) old now (text ++ piece) }
{}

/// Proves that what a reader has handed on of a text, and how it ends there, is what the text holds.
pub fn whole_file<S: TakesFrames>()
    ensures { (now : ReaderContent) (text : List ℕ) (before after : S) →
        IsReadWhole (Takes S.holds before after) at_first now text →
        HasHandedOn (Takes S.holds before after) now text }
{}

/// Proves that where no two addresses have one group and port, a lookup finds each address: none hides another.
pub fn one_feed()
    ensures { (addresses : List FeedAddress) (address : FeedAddress) (n : ℕ) →
        AreApart addresses → slice_get addresses n ≡ Some address →
        feed_at address.group address.port addresses ≡ Some address.feed }
{}
