//! The calls that lend lines and let them go.

ghost use Rattle.std.specs.Prelude.{◌≡◌, IfSome, unwrap_or};
ghost use Rattle.std.specs.Option.{option_map};
ghost use Rattle.mdp_c.specs.Lines.{cleared, LetsGo};
ghost use Rattle.mdp_c.specs.Statuses.{open_status};

use crate::handle::Handle;
use crate::status::{CLOSED, DONE};

/// Bytes that are lent: in C a pointer, which is never null, and a length.
#[repr(C)]
#[derive(Drop)]
pub struct Lent<'a> {
    pub bytes: &'a [u8],
}

/// Lends the lines that are held, up to the next call with the handle.
///
/// Answers 0, or 81; then `lent` stays.
#[unsafe(no_mangle)]
pub extern "C" fn mdp_lines<'a>(handle: &'a mut Handle, lent: &mut Lent<'a>) -> u32
    ensures status { result ≡ open_status handle.old.held }
    ensures lines { lent.new.bytes.now
        ≡ unwrap_or (option_map (λ v. v.held) handle.old.held) lent.old.bytes.now }
{
    if !handle.is_open() {
        return CLOSED;
    }
    lent.bytes = handle.session().lines();
    DONE
}

/// Forgets the lines that are held, since they were handed on, and which securities changed.
///
/// Answers 0, or 81.
#[unsafe(no_mangle)]
pub extern "C" fn mdp_clear_lines(handle: &mut Handle) -> u32
    ensures status { result ≡ open_status handle.old.held }
    ensures cleared { handle.new.held ≡ option_map cleared handle.old.held }
    ensures stands { IfSome handle.old.held LetsGo }
{
    if !handle.is_open() {
        return CLOSED;
    }
    handle.session().clear_lines();
    DONE
}
