//! Returns on standard error what the queues and the board of mdp_lanes cost, in nanoseconds, the least of five turns.
//! The first argument is how many messages, reads or events a turn has, 10,000 where none is given.
#![tactic(auto)]

mod boards;
mod queues;

ghost use Rattle.std.specs.Prelude.{◌≤◌};

use crate::boards::Measure;
use crate::queues::CAPACITIES;
use std::env;
use std::io::Write;

/// How often each is timed.
const TURNS: usize = 5;

// Gives the number that the arguments ask for, 1 at least.
fn count_asked(arguments: env::Args) -> u64
    ensures { 1 ≤ result }
{
    match arguments.skip(1).next() {
        Some(argument) => argument.parse::<u64>().unwrap_or(10_000).max(1),
        None => 10_000,
    }
}

fn main(rt: HostRuntime) -> anyhow::Result<()> {
    let alloc = rt.alloc();
    let count = count_asked(env::args(&rt)?);
    for capacity in CAPACITIES {
        let (lane, intake) = queues::least(rt, alloc, capacity, count)?;
        eprintln!(rt;
            "room for {capacity}: a lane {lane} ns a message, an intake of three {intake} ns"
        )?;
    }
    let read = boards::least(&rt, alloc, Measure::Read, count)?;
    let beside = boards::least(&rt, alloc, Measure::ReadBesidePublisher, count)?;
    let event = boards::least(&rt, alloc, Measure::EventBesideReaders, count)?;
    eprintln!(rt; "a read of three slots {read} ns, beside a publisher {beside} ns")?;
    eprintln!(rt; "an event of two rows beside two readers {event} ns")?;
    Ok(())
}
