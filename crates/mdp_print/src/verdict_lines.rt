//! The lines of calendar spreads.

ghost use Rattle.std.specs.Prelude.{◌≡◌, ◌≤◌, ◌++◌, [], length, codes};
ghost use Rattle.mdp_print.specs.Texts.{verdict_text, audit_line};
ghost use Rattle.mdp_print.specs.Pieces.{Appends};

use crate::event::EventText;
use crate::pieces::{put, put_event, put_event_under};
use mdp_books::{EventEnd, TextFromEnd};
use mdp_quotes::Verdict;
use mdp_templates::{Memory, Name};
use std::alloc::Allocator;

// Returns what an `A` line has of the verdict on the bid, in at most 15 bytes.
fn bid_words(verdict: Verdict) -> &'static [u8]
    ensures text { result.now ≡ codes " bid " ++ verdict_text verdict }
    ensures short { length result.now ≤ 15 }
{
    match verdict {
        Verdict::Neither => b" bid none",
        Verdict::Missing => b" bid missing",
        Verdict::Extra => b" bid extra",
        Verdict::Better => b" bid better",
        Verdict::Worse => b" bid worse",
        Verdict::Equal => b" bid equal",
        Verdict::EqualLess => b" bid equal-less",
        Verdict::EqualMore => b" bid equal-more",
    }
}

// Returns what an `A` line has of the verdict on the offer, to its end, in at most 18 bytes.
fn offer_words(verdict: Verdict) -> &'static [u8]
    ensures text { result.now ≡ codes " offer " ++ verdict_text verdict ++ codes "\n" }
    ensures short { length result.now ≤ 18 }
{
    match verdict {
        Verdict::Neither => b" offer none\n",
        Verdict::Missing => b" offer missing\n",
        Verdict::Extra => b" offer extra\n",
        Verdict::Better => b" offer better\n",
        Verdict::Worse => b" offer worse\n",
        Verdict::Equal => b" offer equal\n",
        Verdict::EqualLess => b" offer equal-less\n",
        Verdict::EqualMore => b" offer equal-more\n",
    }
}

// The text of an `A` line.
type AuditText = TextFromEnd<104>;

// Puts the end of an `A` line, the verdicts on the bid and the offer, into a text that is empty.
#[inline]
fn put_verdicts(text: &mut AuditText, bid: Verdict, offer: Verdict)
    requires { text.old ≡ [] }
    ensures text { text.new ≡ codes " bid " ++ verdict_text bid ++ codes " offer "
        ++ verdict_text offer ++ codes "\n" }
    ensures size { length text.new ≤ 33 }
{
    text.put_bytes(offer_words(offer));
    text.put_bytes(bid_words(bid));
}

/// Appends the `A` line of a calendar spread where an event ends: the verdicts on its implied bid and
/// its implied offer. Where memory runs out the vector is as before.
#[tactic(auto, unfolding(crate::specs::Texts::audit_line))]
pub fn put_audit<A: Allocator>(
    out: &mut Vec<u8, A>,
    end: EventEnd,
    name: &Name,
    bid: Verdict,
    offer: Verdict,
) -> Result<(), Memory>
    ensures { Appends (audit_line end name.now bid offer) out.old out.new result }
{
    let mut text = AuditText::new();
    put_verdicts(&mut text, bid, offer);
    put_event(&mut text, end, name);
    text.put_bytes(b"A ");
    put(out, text.as_slice())
}

/// Appends the `A` line of a calendar spread as [`put_audit`] does, of what all lines of the event end have in common.
#[tactic(auto, unfolding(crate::specs::Texts::audit_line))]
pub fn put_audit_under<A: Allocator>(
    out: &mut Vec<u8, A>,
    event: &EventText,
    name: &Name,
    bid: Verdict,
    offer: Verdict,
) -> Result<(), Memory>
    ensures { Appends (audit_line event.now name.now bid offer) out.old out.new result }
{
    let mut text = AuditText::new();
    put_verdicts(&mut text, bid, offer);
    put_event_under(&mut text, event, name);
    text.put_byte(b' ');
    text.put_byte(b'A');
    put(out, text.as_slice())
}
