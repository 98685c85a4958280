//! The call that tells where a channel stands.

ghost use Rattle.std.specs.Prelude.{◌≡◌, unwrap_or};
ghost use Rattle.mdp_c.specs.State.{state_at, state_told};
ghost use Rattle.mdp_c.specs.Statuses.{open_status};

use crate::handle::Handle;
use crate::status::{CLOSED, DONE};
use mdp_receiver::ChannelState;

/// Where a channel stands, 40 bytes.
#[repr(C)]
#[derive(Clone, Copy, Debug, PartialEq, Eq)]
pub struct State {
    /// The number of the packet that comes next, 1 to 4294967296.
    pub next: u64,
    /// The highest number of a packet that came, or `next - 1`, if that is greater.
    pub highest: u64,
    /// How many packets wait for one before them.
    pub waiting: u64,
    /// The slot of the first security that a jump waits for, where there is one, else 0.
    pub stale: u64,
    /// 1 where the receiver is lost, else 0: it has not joined, or the packet that comes next is given up.
    pub is_lost: u32,
    /// 1 where a jump waits for a security, else 0.
    pub has_stale: u32,
}

/// Reports where the channel stands.
///
/// Answers 0, or 81; then `state` stays.
#[unsafe(no_mangle)]
pub extern "C" fn mdp_state(handle: &mut Handle, state: &mut State) -> u32
    ensures status { result ≡ open_status handle.old.held }
    ensures stays { handle.new.held ≡ handle.old.held }
    ensures state { state.new ≡ unwrap_or (state_at handle.old.held) state.old }
{
    if !handle.is_open() {
        return CLOSED;
    }
    *state = state_told(handle.session().state());
    DONE
}

// Returns where a channel stands, by plain numbers.
fn state_told(state: ChannelState) -> State
    ensures { result ≡ state_told state }
{
    State {
        next: state.next,
        highest: state.highest,
        waiting: state.waiting,
        stale: slot_or_zero(state.stale),
        is_lost: u32::from(state.lost),
        has_stale: u32::from(state.stale.is_some()),
    }
}

// Returns a slot, if there is one.
fn slot_or_zero(slot: Option<usize>) -> u64
    ensures { result ≡ unwrap_or slot 0 }
{
    match slot {
        Some(slot) => slot as u64,
        None => 0,
    }
}
