//! Which threads may be started, so that a test can refuse each.

/// Which threads of a run may be started.
pub trait Starts {
    /// Returns whether the thread of this number may be started: the readers of A, B and S are 0, 1 and 2, the arbiter
    /// is 3, and the workers come behind it.
    fn may_start(&self, thread: usize) -> bool;
}

/// Any thread may be started.
#[derive(Clone, Copy)]
pub struct Always;

impl Starts for Always {
    fn may_start(&self, _thread: usize) -> bool {
        true
    }
}
