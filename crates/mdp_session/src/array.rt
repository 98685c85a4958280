//! Instruments that stand in an array.

ghost use Rattle.std.specs.Prelude.{◌≡◌, IfErr, IfOk, IfSome, OnOk};
ghost use Rattle.mdp_capture.specs.Listed.{listed_after_line};
ghost use Rattle.mdp_templates.specs.Instrument.{HasDepth};
ghost use Rattle.mdp_session.specs.Listing.{AreListed, IsListFault, entries_of_array, unlisted_after};

use crate::list_fault::{ListFault, Unlisted};
use crate::listed::{Listed, instrument_in};
use mdp_capture::InstrumentList;
use mdp_templates::Instrument;
use std::alloc::{AllocError, Global};

/// Lists the instruments of an array, in its order.
///
/// # Errors
///
/// `Unlisted` at the first entry that isn't listed, by its place from 0: a field of it is out of range, or it is
/// refused behind those before it. `Memory` where memory ran out.
pub fn list_array(alloc: Global, listed: &[Listed]) -> Result<InstrumentList<Global>, ListFault>
    ensures listed { IfOk result (AreListed (entries_of_array listed.now)) }
    ensures fault { IfErr result (IsListFault 0 (entries_of_array listed.now)) }
{
    let mut list = InstrumentList::new(alloc);
    for (place, entry) in listed.iter().enumerate() {
        match list_one(&mut list, instrument_in(entry))? {
            Some(why) => {
                let number = place as u64;
                return Err(ListFault::Unlisted { number, why });
            }
            None => {}
        }
    }
    Ok(list)
}

// Lists the instrument that an entry says behind the others, or tells why not.
fn list_one(
    list: &mut InstrumentList<Global>,
    entry: Option<Instrument>,
) -> Result<Option<Unlisted>, AllocError>
    requires { IfSome entry HasDepth }
    ensures answer { IfOk result (λ why. why ≡ unlisted_after list.old entry) }
    ensures list { OnOk result (list.new ≡ listed_after_line list.old entry) }
{
    let Some(instrument) = entry else {
        return Ok(Some(Unlisted::NoInstrument));
    };
    match list.add(instrument)? {
        Some(refusal) => Ok(Some(Unlisted::Refused(refusal))),
        None => Ok(None),
    }
}
