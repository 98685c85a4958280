//! Which security goes next of all that several reports tell of.

ghost use Rattle.std.specs.Prelude.{◌≡◌, [], ◌∷◌, IfNone, MatchOption};
ghost use Rattle.mdp_reports.specs.Rounds.{all_by_slot};
ghost use Rattle.mdp_reports.specs.Contents.{told_line};
ghost use Rattle.mdp_reports.specs.Next.{IsNext, least_of, lesser};

use crate::places::Line;
use crate::rest::Rest;

// Gives the place of the lesser slot, of the same slot this place.
fn lesser(place: usize, slot: Option<u16>, least: Option<(usize, u16)>) -> Option<(usize, u16)>
    ensures { result ≡ lesser place slot least }
{
    match (slot, least) {
        (None, least) => least,
        (Some(slot), None) => Some((place, slot)),
        (Some(slot), Some((other, least))) => {
            if slot <= least {
                Some((place, slot))
            } else {
                Some((other, least))
            }
        }
    }
}

// Gives the place of the list whose first goes next, with its slot.
fn least(left: &[Rest]) -> Option<(usize, u16)>
    ensures { result ≡ least_of 0 left.now }
{
    let mut best = None;
    let mut n = left.len();
    while n > 0 {
        n -= 1;
        best = lesser(n, left[n].slot(), best);
    }
    best
}

// Returns the place of the list whose first goes next.
fn place_of_next(left: &[Rest]) -> Option<usize>
    ensures { MatchOption result (all_by_slot left.now ≡ []) (λ n. IsNext left.now n) }
{
    match least(left) {
        Some((n, _)) => Some(n),
        None => None,
    }
}

/// Takes what goes next of all lists, by slot.
pub(crate) fn take_next<'a>(left: &mut [Rest<'a>]) -> Option<Line<'a>>
    ensures next { MatchOption result (all_by_slot left.old ≡ [])
        (λ line. all_by_slot left.old ≡ told_line line ∷ all_by_slot left.new) }
    ensures stays { IfNone result (left.new ≡ left.old) }
{
    let Some(n) = place_of_next(left) else {
        return None;
    };
    left[n].take()
}
