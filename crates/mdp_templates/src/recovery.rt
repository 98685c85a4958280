//! Reading a datagram of the market recovery feed.

ghost use Rattle.std.specs.Prelude.{◌≡◌, [], ◌∷◌, ◌++◌, ◌≤◌, length, IfOk, IfErr, OnOk};
ghost use Rattle.mdp_sbe.specs.Framing.{parts, AreRefused};
ghost use Rattle.mdp_templates.specs.Answer.{OnRefusal};
ghost use Rattle.mdp_templates.specs.declared.fault.Fault.TheVariants as faults;
ghost use Rattle.mdp_templates.specs.Recovery.{AddsRecovery, IsBadlySided, IsWhole, IsSnapshot, IsRefusedSnapshot, IsRecovery, IsRefusedRecovery, Give, AreSnapshots};
ghost use Rattle.mdp_templates.specs.Side.{AreAllShallow};
ghost use Rattle.mdp_templates.specs.Spans.{AddsOne};
ghost use Rattle.mdp_templates.specs.Refused.{IsRefusedAs};
ghost use Rattle.mdp_templates.specs.Refused.FeedKind.{recovery};

use crate::fault::Fault;
use crate::layout::read_layout;
use crate::quote::Quote;
use crate::snapshot::Snapshot;
use mdp_sbe::{Header, Messages, Refusal, i32_at, u32_at};
use std::alloc::Allocator;

/// The template id of a snapshot message.
const SNAPSHOT: u16 = 52;

/// The length of the fields of a snapshot message's root block, in bytes.
const ROOT_LENGTH: u16 = 16;

// Appends a snapshot. Most datagrams have one, so for the first one room is taken for itself alone: a block of four
// would be more than the C library keeps at hand.
fn add<A: Allocator>(list: &mut Vec<Snapshot, A>, snapshot: Snapshot) -> Result<(), Fault>
    ensures ok { OnOk result (list.new.items ≡ list.old.items ++ snapshot ∷ []) }
    ensures memory { IfErr result (λ fault. fault ≡ faults.Memory) }
{
    if list.is_empty() {
        list.reserve_exact(1)?;
    }
    list.push(snapshot)?;
    Ok(())
}

// Appends the snapshot of a root block and of entries, or answers that the levels of a side are bad.
fn add_snapshot<A: Allocator>(
    root: &[u8],
    quotes: &[Option<Quote>],
    list: &mut Vec<Snapshot, A>,
) -> Result<(), Fault>
    requires long { 16 ≤ length root.now }
    requires shallow { AreAllShallow quotes.now }
    ensures ok { OnOk result (AddsOne
        (IsWhole root.now quotes.now) list.old.items list.new.items) }
    ensures refused { IfErr result (OnRefusal (IsBadlySided quotes.now)) }
{
    let last = u32_at(root, 0);
    let security = i32_at(root, 8);
    let mut snapshot = Snapshot::empty(security, last);
    if !snapshot.gather(quotes) {
        return Err(Fault::Refused(Refusal::SnapshotLevels));
    }
    add(list, snapshot)?;
    Ok(())
}

// Reads a snapshot message and appends its snapshot, or answers the first refusal that holds.
fn read_snapshot<A: Allocator + Copy>(
    alloc: A,
    message: &mdp_sbe::Message<'_>,
    list: &mut Vec<Snapshot, A>,
) -> Result<(), Fault>
    ensures ok { OnOk result (AddsOne
        (IsSnapshot (parts message.now)) list.old.items list.new.items) }
    ensures refused { IfErr result (OnRefusal (IsRefusedSnapshot (parts message.now))) }
{
    let mut quotes = Vec::new(alloc);
    let (root, _) = read_layout::<A, Option<Quote>>(message, ROOT_LENGTH, &mut quotes)?;
    add_snapshot(root, &quotes, list)?;
    Ok(())
}

// Appends the snapshot that a message gives; another template gives none.
fn read_message<A: Allocator + Copy>(
    alloc: A,
    message: &mdp_sbe::Message<'_>,
    list: &mut Vec<Snapshot, A>,
) -> Result<(), Fault>
    ensures ok { OnOk result (AddsRecovery
        (parts message.now) list.old.items list.new.items) }
    ensures refused { IfErr result (OnRefusal (IsRefusedRecovery (parts message.now))) }
{
    if message.template != SNAPSHOT {
        return Ok(());
    }
    read_snapshot(alloc, message, list)?;
    Ok(())
}

// Reads the snapshots of all messages, or answers the first refusal in reading order.
fn read_messages<A: Allocator + Copy>(alloc: A, rest: &[u8]) -> Result<Vec<Snapshot, A>, Fault>
    ensures ok { IfOk result (λ v. Give rest.now v.items []) }
    ensures refused { IfErr result (OnRefusal (AreRefused IsRecovery IsRefusedRecovery rest.now)) }
{
    let mut list = Vec::new(alloc);
    let mut cursor = Messages::new(rest);
    while let Some(next) = cursor.next() {
        let message = next?;
        read_message(alloc, &message, &mut list)?;
    }
    Ok(list)
}

/// Reads a datagram of the market recovery feed, and gives its snapshots in order, or answers the first
/// refusal in reading order. If one message is refused, so is the whole datagram. Messages of other
/// templates give nothing. Want of memory says nothing of the text.
pub fn read_snapshots<A: Allocator + Copy>(alloc: A, text: &[u8]) -> Result<Vec<Snapshot, A>, Fault>
    ensures ok { IfOk result (λ v. AreSnapshots text.now v.items) }
    ensures refused { IfErr result (OnRefusal (IsRefusedAs recovery text.now)) }
{
    let _header = Header::read(text)?;
    read_messages(alloc, &text[Header::LENGTH..])
}
