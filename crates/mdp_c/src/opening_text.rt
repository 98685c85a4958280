//! The call that opens a handle with a text of instruments.

ghost use Rattle.mdp_c.specs.Opening.{Opens, of_text, opened};

use crate::handle::Handle;
use crate::opening::begin;
use crate::options::{Options, plan_of};
use crate::status::{MEMORY, NO_LISTING, OPEN, OUT_OF_RANGE, unlisted_status};
use mdp_session::{ListFault, list_text};
use std::alloc::Global;

/// Opens a closed handle with the instruments of a text, of which each line is an `I` line of a capture.
///
/// Answers 0; 21 or 31 to 33 at the first line that isn't listed, of which `line` tells the number from 1; 34 where
/// there is none; 41; 82; or 83 where an option is out of its range. At any other status than 0 the handle stays as it
/// was, and where every line is listed, so does `line`.
#[unsafe(no_mangle)]
pub extern "C" fn mdp_open_text(
    alloc: Global,
    handle: &mut Handle,
    options: &Options,
    text: &[u8],
    line: &mut u64,
) -> u32
    ensures { Opens (of_text text.now) options.now
        handle.old.held line.old (opened handle.new.held line.new result) }
{
    if handle.is_open() {
        return OPEN;
    }
    let Some(plan) = plan_of(options) else {
        return OUT_OF_RANGE;
    };
    match list_text(alloc, text) {
        Ok(list) => begin(alloc, handle, plan, &list),
        Err(ListFault::Unlisted { number, why }) => {
            *line = number;
            unlisted_status(why, NO_LISTING)
        }
        Err(ListFault::Memory) => MEMORY,
    }
}
