//! The newest snapshot of each listed security, where there is one.

ghost use Rattle.std.specs.Prelude.{◌≡◌, ◌≤◌, IfOk, Some, None, map};
ghost use Rattle.mdp_arbiter.specs.Accepted.{is_newer};
ghost use Rattle.mdp_arbiter.specs.Machine.{is_fresh, lesser, least_last, snapshots_of};

use mdp_templates::{Instrument, Memory, Snapshot};
use std::alloc::Allocator;

/// Makes a list with no snapshot for each instrument.
pub(crate) fn none_for<A: Allocator + Copy>(
    alloc: A,
    instruments: &[Instrument],
) -> Result<Vec<Option<Snapshot>, A>, Memory>
    ensures { IfOk result (λ none. none.items ≡ map (λ _. None) instruments.now) }
{
    let mut none = Vec::with_capacity(alloc, instruments.len())?;
    for _instrument in instruments {
        none.push(None)?;
    }
    Ok(none)
}

/// Returns whether a snapshot includes a later packet than the newest so far.
pub(crate) fn renews(so_far: &Option<Snapshot>, snapshot: &Snapshot) -> bool
    ensures { result ≡ is_newer so_far.now snapshot.now }
{
    match so_far {
        None => true,
        Some(other) => other.last() < snapshot.last(),
    }
}

/// Returns whether a snapshot is there and includes every packet that is given up.
pub(crate) fn is_fresh_enough(snapshot: &Option<Snapshot>, top: u64, room: u64) -> bool
    requires { room ≤ 65536 }
    ensures { result ≡ is_fresh room top snapshot.now }
{
    match snapshot {
        None => false,
        Some(snapshot) => top <= u64::from(snapshot.last()) + room,
    }
}

/// Returns the lesser of the number so far and that of a snapshot.
pub(crate) fn lesser_number(so_far: Option<u32>, snapshot: &Snapshot) -> u32
    ensures { Some result ≡ lesser so_far snapshot.now }
{
    match so_far {
        None => snapshot.last(),
        Some(number) => number.min(snapshot.last()),
    }
}

/// Returns the least number of the snapshots that are there.
pub(crate) fn least_number(newest: &[Option<Snapshot>]) -> Option<u32>
    ensures { result ≡ least_last (snapshots_of newest.now) }
{
    let mut least = None;
    for snapshot in newest {
        if let Some(snapshot) = snapshot {
            least = Some(lesser_number(least, snapshot));
        }
    }
    least
}
