//! Where the threads of a run are started, and what they use.

use std::sync::OnceLock;
use std::thread::Scope;

/// What a run over threads uses: the runtime, the allocator, the gate that its threads tell, and
/// which of them may be started.
#[derive(Drop)]
pub struct Means<'s, R, S, G, A> {
    pub rt: &'s R,
    pub starts: &'s S,
    pub gate: &'s G,
    pub alloc: A,
}

/// Where the threads of a run are started: by these means, in a scope, and once they are told to
/// go.
#[derive(Drop)]
pub struct Site<'s, E, R, S, G, A> {
    pub means: &'s Means<'s, R, S, G, A>,
    pub scope: &'s Scope<'s, E>,
    /// Whether the readers are to go; not known before all threads have begun.
    pub go: &'s OnceLock<bool>,
}
