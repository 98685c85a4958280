//! A crew in threads, over what the three readers have put before it begins.

ghost use Rattle.std.specs.Prelude.{◌≡◌};

use crate::fault::RunFault;
use crate::gate::Gate;
use crate::running::run_crew;
use crate::starts::Starts;
use crate::tests::channel::{Came, handed_over};
use crate::tests::writer::slow_writer;
use crate::{CrewOutcome, Means, RunPlan, Site};
use mdp_arbiter::{Standing, Start};
use mdp_templates::{Instrument, Memory, are_fit};
use std::alloc::{Allocator, Global};
use std::sync::{OnceLock, Wait};
use std::thread;
use std::thread::{Scope, Threads};
use worked_runs::Kept;

/// What a crew in threads comes to: what it says, the bytes that it wrote, and what it told the readers.
#[derive(Drop)]
pub struct InThreads {
    pub standing: Result<Standing, RunFault>,
    pub bytes: Vec<u8>,
    pub go: Option<bool>,
}

// All that happens inside the scope.
fn run_in<'s, E, R, S, G, A>(
    means: &'s Means<'s, R, S, G, A>,
    scope: &'s Scope<'s, E>,
    go: &'s OnceLock<bool>,
    listed: &'s [Instrument],
    workers: u16,
    came: Came,
    mut kept: Kept,
) -> Result<InThreads, Memory>
where
    R: Threads + Wait + Sync,
    S: Starts,
    G: Gate + Sync,
    A: Allocator + Copy + Send + Sync,
    A: 's,
    requires { kept.failures ≡ 0 }
{
    if workers == 0 || !are_fit(listed) {
        return Err(Memory);
    }
    let (_a, _b, _s, receiver) = handed_over(means.rt, means.alloc, came)?;
    let site = Site { means, scope, go };
    let mut board = None;
    let CrewOutcome {
        receiver: _receiver,
        standing,
    } = run_crew(
        &site,
        RunPlan {
            instruments: listed,
            window: 4,
            start: Start::FromOne,
            workers,
        },
        receiver,
        &mut board,
        &mut kept,
    );
    if let Some(publisher) = board {
        publisher.end(means.rt);
    }
    Ok(InThreads {
        standing,
        bytes: kept.bytes,
        go: go.get().copied(),
    })
}

// The scope of such a run.
fn run_by<R, S, G, A>(
    means: &Means<'_, R, S, G, A>,
    plain: Global,
    listed: &[Instrument],
    workers: u16,
    came: Came,
    fail_at: u64,
) -> Result<InThreads, Memory>
where
    R: Threads + Wait + Sync,
    S: Starts + Sync,
    G: Gate + Sync,
    A: Allocator + Copy + Send + Sync,
{
    let told = OnceLock::new();
    let go = &told;
    thread::scope(
        thread::scope_env(),
        means.rt,
        move |scope| run_in(
            means,
            scope,
            go,
            listed,
            workers,
            came,
            slow_writer(plain, fail_at),
        ),
    )
}

/// Runs a crew of so many workers in threads, with this allocator, over what came; the write of this number fails, or none with 0.
pub fn run_in_threads<R, S, G, A>(
    rt: &R,
    starts: &S,
    alloc: A,
    plain: Global,
    gate: &G,
    listed: &[Instrument],
    workers: u16,
    came: Came,
    fail_at: u64,
) -> Result<InThreads, Memory>
where
    R: Threads + Wait + Sync,
    S: Starts + Sync,
    G: Gate + Sync,
    A: Allocator + Copy + Send + Sync,
{
    let means = Means {
        rt,
        starts,
        gate,
        alloc,
    };
    run_by(&means, plain, listed, workers, came, fail_at)
}
