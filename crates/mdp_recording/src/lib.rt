//! A run over a recording of a channel, a pcap or pcapng file, frame by frame as it comes, on one thread.
#![tactic(auto)]

mod datagrams;
mod run;

pub use run::RecordedRun;

#[cfg(test)]
mod tests;
