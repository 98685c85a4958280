//! The places of calendar spreads and of their legs.

ghost use Rattle.std.specs.Prelude.{◌≡◌, IfOk};
ghost use Rattle.mdp_engine.specs.Spreads.{slot_in, spread_at, spread_in, spreads_from};

use mdp_templates::{Instrument, InstrumentKind, Memory, Slots};
use std::alloc::Allocator;

/// The places of a calendar spread and of its legs among the listed securities, from 0.
#[derive(Clone, Copy)]
pub struct Spread {
    pub slot: usize,
    pub leg1: usize,
    pub leg2: usize,
}

// Returns the place of the security with this id, if it is listed.
fn place_of<A: Allocator + Copy>(slots: &Slots<A>, id: i32) -> Option<usize>
    ensures { result ≡ slot_in slots.now id }
{
    slots.slot_of(id)
}

// Gives the spread of these places, where both legs have one.
fn spread_at(slot: usize, leg1: Option<usize>, leg2: Option<usize>) -> Option<Spread>
    ensures { result ≡ spread_at slot leg1 leg2 }
{
    match (leg1, leg2) {
        (Some(leg1), Some(leg2)) => Some(Spread { slot, leg1, leg2 }),
        _ => None,
    }
}

// Gives the places of an instrument and its legs, where it is a calendar spread whose legs are listed.
fn spread_of<A: Allocator + Copy>(
    slots: &Slots<A>,
    slot: usize,
    instrument: &Instrument,
) -> Option<Spread>
    ensures { result ≡ spread_in slot slots.now instrument.now.kind }
{
    match instrument.kind {
        InstrumentKind::Outright => None,
        InstrumentKind::Calendar { leg1, leg2 } => {
            spread_at(slot, place_of(slots, leg1), place_of(slots, leg2))
        }
    }
}

/// Finds the calendar spreads among these instruments, in listed order.
///
/// # Errors
///
/// Memory ran out.
pub fn spreads_of<A: Allocator + Copy>(
    alloc: A,
    slots: &Slots<A>,
    instruments: &[Instrument],
) -> Result<Vec<Spread, A>, Memory>
    ensures { IfOk result (λ spreads. spreads.items ≡ spreads_from 0 slots.now instruments.now) }
{
    let mut spreads = Vec::new(alloc);
    for slot in 0..instruments.len() {
        match spread_of(slots, slot, &instruments[slot]) {
            Some(spread) => spreads.push(spread)?,
            None => {}
        }
    }
    Ok(spreads)
}
