//! A reorder buffer: packets that arrived before the one that is due.
#![tactic(auto, using(crate::proofs::Lookups::lookups))]

mod map_window;
mod ring_window;
mod window;

pub use map_window::MapWindow;
pub use ring_window::RingWindow;
pub use window::{Numbered, Put, Window};
