//! Which of the listed securities a worker keeps.

use mdp_templates::Instrument;

/// A worker's share: of the listed instruments those that worker `number` of so many keeps.
#[derive(Clone, Copy)]
pub struct Share<'s> {
    pub listed: &'s [Instrument],
    pub workers: u16,
    pub number: u16,
}
