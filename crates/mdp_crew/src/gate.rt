//! Where a test can hold the threads of a run.

/// What the threads of a run tell before they go on.
pub trait Gate {
    /// Worker `worker`, from 0, is about to work on its step `step`, which are counted from 1; it tells each of its
    /// steps.
    fn arrive(&self, worker: usize, step: u64);

    /// The reader of a feed, 0 to 2 for A, B and S, is about to read its record at place `place`, counted from 1. Once
    /// more it tells the place behind its last record, when it has read all.
    fn reads(&self, feed: usize, place: u64);
}

/// Holds nobody back.
#[derive(Clone, Copy)]
pub struct Open;

impl Gate for Open {
    fn arrive(&self, _worker: usize, _step: u64) {}

    fn reads(&self, _feed: usize, _place: u64) {}
}
