//! What tests of runs share: captures with the texts that are printed of them, and a writer that fails where a test says.
#![tactic(auto)]

mod captures;
mod kept;

pub use captures::{
    PLAIN, PLAIN_TEXT, RECOVERY, RECOVERY_TEXT, REFUSED, REFUSED_TEXT, SPREAD, SPREAD_TEXT,
};
pub use kept::{Failure, Kept};
