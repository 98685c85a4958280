//! The places of the listed securities.

ghost use Rattle.std.specs.Prelude.{◌≡◌, ◌<◌, ℕ, length, AllPairs, ◌≢◌, IfOk, IfSome, IfNone, Some, slice_get};
ghost use Rattle.std.specs.Prelude.{OnOk};
ghost use Rattle.std.specs.Ordering.{int_eq};
ghost use Rattle.indexmap.specs.IndexSet.{insert_key};
ghost use Rattle.mdp_templates.specs.Instrument.{ids_of};

use crate::fault::Memory;
use crate::instrument::Instrument;
use indexmap::IndexSet;
use std::alloc::Allocator;
use std::hash::{BuildHasherDefault, FoldHasher};
use std::marker::Model;

/// The ids of the listed securities, all different, seen as their list. A place is found in constant time.
#[derive(Drop)]
pub struct Slots<A: Allocator> {
    ids: IndexSet<i32, BuildHasherDefault<FoldHasher>, A>,
}

impl<A: Allocator> Model for Slots<A> {
    ghost use Rattle.std.specs.Prelude.{List, ℤ, AllPairs, ◌≢◌};

    ghost Value = { List ℤ };

    ghost view = { λ s. s.ids.keys };

    ghost invariant = { λ s. AllPairs (λ earlier later. earlier ≢ later) s.ids.keys };
}

// Puts an instrument's id behind the others, if it is new.
fn enter<A: Allocator + Copy>(
    ids: &mut IndexSet<i32, BuildHasherDefault<FoldHasher>, A>,
    instrument: &Instrument,
) -> Result<(), Memory>
    ensures { OnOk result (ids.new.keys ≡ insert_key int_eq ids.old.keys instrument.now.id) }
{
    ids.insert(instrument.id)?;
    Ok(())
}

impl<A: Allocator + Copy> Slots<A> {
    /// Makes the places of instruments of different ids, in listed order.
    pub fn of(alloc: A, instruments: &[Instrument]) -> Result<Slots<A>, Memory>
        requires { AllPairs (λ earlier later. earlier.id ≢ later.id) instruments.now }
        ensures { IfOk result (λ slots. slots ≡ ids_of instruments.now) }
    {
        let mut ids = IndexSet::with_capacity(alloc, instruments.len())?;
        for instrument in instruments {
            enter(&mut ids, instrument)?;
        }
        Ok(Slots { ids })
    }

    /// Returns the place of a security, from 0, if it is listed.
    pub fn slot_of(&self, id: i32) -> Option<usize>
        ensures some { IfSome result (λ slot. slice_get self.now slot ≡ Some id) }
        ensures only { IfSome result (λ slot. (other : ℕ) → slice_get self.now other ≡ Some id
            → other ≡ slot) }
        ensures none { IfNone result ((slot : ℕ) → slice_get self.now slot ≡ Some id → ⊥) }
    {
        self.ids.get_index_of(&id)
    }
}
