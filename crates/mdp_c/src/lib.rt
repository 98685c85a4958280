//! The library for C: a handle of one channel of CME MDP 3.0, and the calls with it. Each call answers a status, and
//! what it tells besides is written through its arguments.
#![tactic(auto)]

mod became;
mod books;
mod changed;
mod feeding;
mod handle;
mod laws;
mod levels;
mod lines;
mod opening;
mod opening_text;
mod options;
mod state;
mod status;
#[cfg(test)]
mod tests;

pub use became::Became;
pub use books::{Best, BookFault, mdp_best, mdp_fault, mdp_is_current, mdp_levels};
pub use changed::mdp_changed;
pub use feeding::{mdp_close, mdp_datagram};
pub use handle::Handle;
pub use laws::law_of_calls;
pub use levels::Level;
pub use lines::{Lent, mdp_clear_lines, mdp_lines};
pub use opening::{mdp_free, mdp_open};
pub use opening_text::mdp_open_text;
pub use options::Options;
pub use state::{State, mdp_state};
