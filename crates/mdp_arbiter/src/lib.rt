//! Which packet of a channel passes next, and when recovery jumps to snapshots.
#![tactic(auto)]

mod arbiter;
mod base;
mod fate;
mod fresh_front;
mod laws;
mod newest;
mod owned_move;
mod start;
mod step;

pub use arbiter::{Arbiter, Standing};
pub use fate::{PacketFate, SnapshotFate};
pub use laws::{
    all_pass_without_loss, events_add, fronts_begin, joining_begins_with_a_jump, jumps_recover,
    moves_are_settled, passes_are_first,
};
pub use owned_move::OwnedMove;
pub use start::Start;
pub use step::Step;
