//! The layout that both book templates share: a root block, and a group whose entries are read in order.

ghost use Rattle.std.specs.Prelude.{◌≡◌, ◌≤◌, ◌+◌, List, ℕ, length, All, Result, IfOk, IfErr, OnOk};
ghost use Rattle.mdp_sbe.specs.Framing.{parts};
ghost use Rattle.mdp_sbe.specs.Group.{IsGrouped, IsRefusedGrouped};
ghost use Rattle.mdp_sbe.specs.declared.refusal.Refusal.{Refusal};
ghost use Rattle.mdp_templates.specs.Answer.{OnRefusal};
ghost use Rattle.mdp_templates.specs.Layout.{AreEntries, AreRefusedEntries, IsLaidOut, IsRefusedLayout, layout_of};
ghost use Rattle.mdp_templates.specs.Spans.{Adds};

use crate::fault::Fault;
use mdp_sbe::{Group, Message, Refusal};
use std::alloc::Allocator;

/// What is read of an entry of a group.
pub trait GroupEntry: Drop + Sized {
    /// The length of the template's fields of an entry, in bytes.
    const LENGTH: u16;

    ghost LENGTH: { ℕ };

    ghost reads: { List ℕ → Result Self Refusal };

    /// Reads an entry's text, or answers the first refusal that holds of it.
    fn read(text: &[u8]) -> Result<Self, Refusal>
        requires { LENGTH ≤ length text.now }
        ensures { result ≡ reads text.now };
}

// Reads a message's root block and its group.
fn read_blocks<'a>(
    message: &Message<'a>,
    least_root: u16,
    least_entry: u16,
) -> Result<(&'a [u8], Group<'a>), Refusal>
    ensures ok { IfOk result (λ p. IsGrouped
        (parts message.now) least_root least_entry p.0.now p.1) }
    ensures refused { IfErr result (IsRefusedGrouped (parts message.now) least_root least_entry) }
{
    let (root, rest) = message.root(least_root)?;
    let group = Group::read(rest, least_entry)?;
    Ok((root, group))
}

// Appends the entries of a group, or answers the first refusal in reading order.
fn read_entries<A: Allocator + Copy, E: GroupEntry>(
    group: &Group<'_>,
    list: &mut Vec<E, A>,
) -> Result<(), Fault>
    requires { All (λ text. E.LENGTH ≤ length text) group.now }
    ensures ok { OnOk result (Adds (AreEntries E.reads group.now) list.old.items list.new.items) }
    ensures refused { IfErr result (OnRefusal (AreRefusedEntries E.reads group.now)) }
{
    list.reserve(group.len())?;
    for n in 0..group.len() {
        let entry = E::read(group.entry(n))?;
        list.push(entry)?;
    }
    Ok(())
}

/// Reads the root block of a message, appends its entries, and returns how many they are.
pub(crate) fn read_layout<'a, A: Allocator + Copy, E: GroupEntry>(
    message: &Message<'a>,
    least_root: u16,
    list: &mut Vec<E, A>,
) -> Result<(&'a [u8], u8), Fault>
    ensures ok { IfOk result (λ p. Adds (IsLaidOut (layout_of E.reads least_root E.LENGTH)
        (parts message.now) p.0.now) list.old.items list.new.items) }
    ensures count { IfOk result (λ p. length list.new.items ≡ length list.old.items + p.1) }
    ensures refused { IfErr result (OnRefusal
        (IsRefusedLayout (layout_of E.reads least_root E.LENGTH) (parts message.now))) }
{
    let (root, group) = read_blocks(message, least_root, E::LENGTH)?;
    let count = group.len() as u8;
    read_entries(&group, list)?;
    Ok((root, count))
}
