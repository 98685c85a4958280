//! What a run is asked.

use mdp_arbiter::Start;
use mdp_templates::Instrument;

/// What a run is asked: of which securities, how far it waits, how it begins, and over how many workers.
#[derive(Clone, Copy)]
pub struct RunPlan<'a> {
    /// The listed instruments, which are fit.
    pub instruments: &'a [Instrument],
    /// How many packet numbers the window covers, from 1 to 65536.
    pub window: u32,
    /// Whether packets pass from number 1 on, or only after a first jump.
    pub start: Start,
    /// How many workers keep books, from 1 to 16. How many changes no byte.
    pub workers: u16,
}
