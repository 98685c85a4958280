//! The capture text: the instruments of a channel and what its three feeds brought, read line by line from
//! any reader that counts its failures, on one thread or over threads.
#![tactic(auto)]

mod blocks;
mod capture;
mod counted_read;
mod cutter;
mod decoder;
mod draft;
mod fault;
mod field;
mod instrument_list;
mod lanes;
mod laws;
mod line;
mod over_threads;
mod part;
mod reading;
mod record;
mod repeats;
mod skip;

pub use capture::Capture;
pub use counted_read::{CountedRead, CountingReader};
pub use cutter::{LineCutter, TakesLines};
pub use decoder::{DecodedLine, LineDecoder};
pub use fault::{CaptureFault, CaptureRefusal};
pub use instrument_list::{InstrumentList, ListedLine};
pub use laws::{
    captures_hold_their_lines, fronts_hold_their_lines, fronts_only_grow,
    only_late_instruments_follow_records, refusals_are_of_the_first_line, texts_have_one_answer,
};
pub use over_threads::read_capture_over_threads;
pub use reading::read_capture;
pub use record::Record;
pub use skip::{Skip, SkippedLine};

#[cfg(test)]
mod tests;
