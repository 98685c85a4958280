//! How a channel is followed.

ghost use Rattle.std.specs.Prelude.{◌≡◌, ◌≤◌, IfSome};
ghost use Rattle.mdp_c.specs.Options.{are_known, flag_of, plan_of, start_of};

use mdp_arbiter::Start;

/// How a channel is followed, 24 bytes.
#[repr(C)]
#[derive(Clone, Copy)]
pub struct Options {
    /// The size of this struct in bytes, 24. A later library may know a longer one.
    pub size: u64,
    /// The packet so many numbers after the next one gives that one up, 1 to 65536.
    pub window: u32,
    /// 0 to take packet 1 for the first, and 1 to join a channel that is under way.
    pub start: u32,
    /// 1 to keep the lines of the event ends, and 0 to keep books alone.
    pub lines: u32,
    /// Nothing yet: 0.
    pub reserved: u32,
}

/// What options say.
#[derive(Clone, Copy)]
pub(crate) struct Plan {
    pub(crate) window: u32,
    pub(crate) start: Start,
    pub(crate) keeps_lines: bool,
}

/// How many bytes the options have.
const SIZE: u64 = size_of::<Options>() as u64;

/// Returns what options say; nothing where a field is out of its range.
pub(crate) fn plan_of(options: &Options) -> Option<Plan>
    ensures plan { result ≡ plan_of options.now }
    ensures some { IfSome result (λ plan. 1 ≤ plan.window) }
    ensures most { IfSome result (λ plan. plan.window ≤ 65536) }
{
    if !are_known(options) {
        return None;
    }
    let start = start_of(options.start)?;
    let keeps_lines = flag_of(options.lines)?;
    Some(Plan {
        window: options.window,
        start,
        keeps_lines,
    })
}

// Returns whether options are of this size, keep nothing for later, and have a window.
fn are_known(options: &Options) -> bool
    ensures { result ≡ are_known options.now }
{
    options.size == SIZE && options.reserved == 0 && options.window >= 1 && options.window <= 65536
}

// Returns which packet a receiver takes for the first, by number.
fn start_of(number: u32) -> Option<Start>
    ensures { result ≡ start_of number }
{
    match number {
        0 => Some(Start::FromOne),
        1 => Some(Start::Join),
        _ => None,
    }
}

// Returns what a flag says: 1 yes, and 0 no.
fn flag_of(number: u32) -> Option<bool>
    ensures { result ≡ flag_of number }
{
    match number {
        0 => Some(false),
        1 => Some(true),
        _ => None,
    }
}
