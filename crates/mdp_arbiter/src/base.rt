//! Which snapshot of a security the latest jump took.

ghost use Rattle.std.specs.Prelude.{◌≡◌, length, map, option_copied, fold, [], ◌∷◌, IfOk, None};
ghost use Rattle.mdp_arbiter.specs.Bases.{base_of, bases_of, kept_base};
ghost use Rattle.mdp_arbiter.specs.Machine.{least_last, lesser, snapshots_of};
ghost use Rattle.mdp_arbiter.specs.declared.base.Base.TheVariants.{Newest, Older};

use crate::newest::lesser_number;
use mdp_templates::{Instrument, Memory, Snapshot};
use std::alloc::Allocator;

/// Where the snapshot is that the latest jump took of a security.
#[derive(Drop)]
pub(crate) enum Base {
    /// It is the security's newest.
    Newest,
    /// A newer one came since, and this is the one before; none where there was no jump.
    Older(Option<Snapshot>),
}

impl Base {
    /// Lends the snapshot that the latest jump took, where this is the newest.
    pub(crate) fn among<'a>(&'a self, newest: &'a Option<Snapshot>) -> Option<&'a Snapshot>
        ensures { option_copied result ≡ base_of newest.now self.now }
    {
        match self {
            Base::Newest => newest.as_ref(),
            Base::Older(base) => base.as_ref(),
        }
    }

    /// Keeps what was the newest until now, where the latest jump took it.
    pub(crate) fn keep(&mut self, before: Option<Snapshot>)
        ensures { self.new ≡ kept_base before self.old }
    {
        if let Base::Newest = self {
            *self = Base::Older(before);
        }
    }
}

/// Makes the bases of these instruments before any jump.
pub(crate) fn no_bases<A: Allocator + Copy>(
    alloc: A,
    instruments: &[Instrument],
) -> Result<Vec<Base, A>, Memory>
    ensures { IfOk result (λ bases. bases.items ≡ map (λ _. Older None) instruments.now) }
{
    let mut bases = Vec::with_capacity(alloc, instruments.len())?;
    for _instrument in instruments {
        bases.push(Base::Older(None))?;
    }
    Ok(bases)
}

/// Takes each security's newest snapshot, where it is.
pub(crate) fn take_newest(bases: &mut [Base])
    ensures { bases.new ≡ map (λ _. Newest) bases.old }
{
    for slot in 0..bases.len() {
        bases[slot] = Base::Newest;
    }
}

// Returns the lesser of the number so far and that of a security's snapshot, where the latest jump took one.
fn lesser_with(least: Option<u32>, newest: &Option<Snapshot>, base: &Base) -> Option<u32>
    ensures { result ≡ fold lesser least (snapshots_of (base_of newest.now base.now ∷ [])) }
{
    match base.among(newest) {
        Some(snapshot) => Some(lesser_number(least, snapshot)),
        None => least,
    }
}

/// Returns the least number of the snapshots that the latest jump took.
pub(crate) fn least_base(newest: &[Option<Snapshot>], bases: &[Base]) -> Option<u32>
    ensures { result ≡ least_last (snapshots_of (bases_of newest.now bases.now)) }
{
    let mut least = None;
    for slot in 0..newest.len().min(bases.len()) {
        least = lesser_with(least, &newest[slot], &bases[slot]);
    }
    least
}
