//! The calls that open a handle with an array of instruments, and free it.

ghost use Rattle.std.specs.Prelude.{◌≡◌, ◌≤◌, IfOk, None};
ghost use Rattle.mdp_templates.specs.Instrument.{AreFit};
ghost use Rattle.mdp_c.specs.Opening.{Begins, Opens, Starts, of_array, opened};

use crate::handle::Handle;
use crate::options::{Options, Plan, plan_of};
use crate::status::{DONE, MEMORY, NONE_LISTED, OPEN, OUT_OF_RANGE, unlisted_status};
use mdp_capture::InstrumentList;
use mdp_session::{ListFault, Listed, Session, list_array};
use mdp_templates::{Instrument, Memory};
use std::alloc::Global;

/// Opens a closed handle with the instruments of an array: 1 to 512, a spread behind its legs.
///
/// Answers 0; 31 to 33, or 83, at the first instrument that isn't listed, of which `place` tells the place from 0; 34
/// where there is none; 41; 82; or 83 where an option is out of its range, and then `place` stays. At any other status
/// than 0 the handle stays as it was, and where every instrument is listed, so does `place`.
#[unsafe(no_mangle)]
pub extern "C" fn mdp_open(
    alloc: Global,
    handle: &mut Handle,
    options: &Options,
    instruments: &[Listed],
    place: &mut u64,
) -> u32
    ensures { Opens (of_array instruments.now) options.now
        handle.old.held place.old (opened handle.new.held place.new result) }
{
    if handle.is_open() {
        return OPEN;
    }
    let Some(plan) = plan_of(options) else {
        return OUT_OF_RANGE;
    };
    match list_array(alloc, instruments) {
        Ok(list) => begin(alloc, handle, plan, &list),
        Err(ListFault::Unlisted { number, why }) => {
            *place = number;
            unlisted_status(why, OUT_OF_RANGE)
        }
        Err(ListFault::Memory) => MEMORY,
    }
}

/// Frees what a handle owns, and closes it. A closed handle stays as it is.
#[unsafe(no_mangle)]
pub extern "C" fn mdp_free(alloc: Global, handle: &mut Handle)
    ensures { handle.new.held ≡ None }
{
    drop(handle.take_out(alloc));
}

/// Opens a closed handle with a session of these instruments, if there are any.
pub(crate) fn begin(
    alloc: Global,
    handle: &mut Handle,
    plan: Plan,
    list: &InstrumentList<Global>,
) -> u32
    requires closed { handle.old.held ≡ None }
    requires some { 1 ≤ plan.window }
    requires most { plan.window ≤ 65536 }
    ensures { Begins plan list.now handle.new.held result }
{
    let instruments = list.as_slice();
    if instruments.is_empty() {
        return NONE_LISTED;
    }
    let Ok(session) = session_of(alloc, instruments, plan) else {
        return MEMORY;
    };
    handle.fill(session);
    DONE
}

// Makes a session on the heap.
fn session_of(
    alloc: Global,
    instruments: &[Instrument],
    plan: Plan,
) -> Result<Box<Session, Global>, Memory>
    requires fit { AreFit instruments.now }
    requires some { 1 ≤ plan.window }
    requires most { plan.window ≤ 65536 }
    ensures { IfOk result (λ session. Starts plan instruments.now session.value) }
{
    let mut session = Session::new(alloc, instruments, plan.window, plan.start)?;
    if !plan.keeps_lines {
        session.keep_no_lines();
    }
    Ok(Box::new(alloc, session)?)
}
