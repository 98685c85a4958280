//! Work in a thread of its own, or here where none can be started.

ghost use Rattle.std.specs.Prelude.{◌≡◌, MatchResult};

use crate::site::Site;
use crate::starts::Starts;
use std::sync::Wait;
use std::thread::{Promise, PromisedHandle, Threads};

/// What is left to know of work that was begun: its thread, or what it came to where none could be
/// started.
pub type Begun<T, P> = Result<PromisedHandle<T, P>, T>;

/// Starts the thread of this number, whose work keeps a promise. Where it can't be started all readers
/// are told to stop, and the work is done here.
pub fn begin<'s, E, R, S, G, A, T, P, F>(
    site: &Site<'s, E, R, S, G, A>,
    number: usize,
    promise: P,
    work: F,
) -> Begun<T, P>
where
    R: Wait,
    S: Starts,
    T: Send + Drop + 's,
    P: Promise<T> + Drop,
    F: FnOnce() -> T + Send + 's,
    requires runs { F.pre work }
    requires keeps { (r : T) → F.post work r → P.kept_by promise r }
    ensures { MatchResult result (λ h. h.promise ≡ promise) (λ r. P.kept_by promise r) }
{
    if !site.means.starts.may_start(number) {
        let _ = site.go.set(site.means.rt, false);
        return Err(work());
    }
    match site.scope.spawn_with(promise, work) {
        Ok(handle) => Ok(handle),
        Err(refused) => {
            let _ = site.go.set(site.means.rt, false);
            Err((refused.value)())
        }
    }
}

/// Waits for the work to end.
pub fn join<R: Threads, T, P: Promise<T>>(rt: &R, begun: Begun<T, P>) -> T
    ensures { MatchResult begun (λ h. P.kept_by h.promise result) (λ r. result ≡ r) }
{
    match begun {
        Ok(handle) => handle.join(rt),
        Err(outcome) => outcome,
    }
}
