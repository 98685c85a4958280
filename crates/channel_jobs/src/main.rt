//! The jobs that users of a channel wait for, on a channel that is made of a seed: reading captures, replaying them on one
//! thread and over threads, recovering on a wide channel, and following a channel in a process of one's own.
//!
//! `channel_jobs JOB SEED TIMES SESSIONS` runs one job and prints a digest of all that it came to: TIMES captures, or times
//! that a channel is followed, of SESSIONS sessions of some 7,600 packets each. The word `all` in the place of a job runs
//! each of them.
#![tactic(auto)]

mod arrivals;
mod capture_text;
mod channel;
mod datagram;
mod digest;
mod embedding;
mod market;
mod random;
mod replays;
mod session;

ghost use Rattle.std.specs.Prelude.{◌≤◌};

use crate::channel::{Channel, Plan};
use crate::embedding::{Following, follow};
use crate::market::Shape;
use crate::replays::{Amount, Replay, print, read, replay_all};
use anyhow::bail;
use mdp_arbiter::Start;
use std::alloc::Global;
use std::io::Write;
use std::sync::Wait;
use std::thread::Threads;
use std::{env, io};

/// A job that a user waits for.
#[derive(Clone, Copy)]
enum Job {
    /// Reading the text of captures.
    Read,
    /// Replaying captures of an ordinary channel on one thread.
    Day,
    /// Replaying them over two workers.
    Workers,
    /// Replaying captures of 512 instruments, some of them legs of many spreads, with gaps that snapshots mend.
    Hubs,
    /// Following an ordinary channel datagram by datagram.
    Embed,
    /// Waiting to join a channel of which one security sends no snapshot, and half of all datagrams are cut short.
    Join,
}

/// All jobs.
const JOBS: [Job; 6] = [
    Job::Read,
    Job::Day,
    Job::Workers,
    Job::Hubs,
    Job::Embed,
    Job::Join,
];

/// An ordinary channel: feed B right behind feed A, each losing a hundredth of what the other one brings.
const ORDINARY: Plan = Plan {
    shape: Shape {
        outrights: 40,
        spreads: 20,
        hubs: 0,
    },
    events: 6_000,
    lag: 0,
    lost: 10,
    gaps: 0,
    snapshot_every: 0,
    unlisted: 0,
    cuts: false,
};

/// A channel of 512 instruments, whose feed B is far behind, and on which both feeds lose the same packets now and then.
const WIDE: Plan = Plan {
    shape: Shape {
        outrights: 112,
        spreads: 400,
        hubs: 8,
    },
    events: 6_000,
    lag: 300,
    lost: 1,
    gaps: 2,
    snapshot_every: 2,
    unlisted: 0,
    cuts: false,
};

/// An ordinary channel with snapshots, on which both feeds lose the same packets once a session.
const WITH_A_GAP: Plan = Plan {
    gaps: 1,
    snapshot_every: 4,
    ..ORDINARY
};

/// An ordinary channel that also has snapshots of securities that are not listed, and cut datagrams.
const SPOILT: Plan = Plan {
    snapshot_every: 4,
    unlisted: 1,
    cuts: true,
    ..ORDINARY
};

impl Job {
    // Tells the word that asks for it.
    fn word(self) -> &'static str {
        match self {
            Job::Read => "read",
            Job::Day => "day",
            Job::Workers => "workers",
            Job::Hubs => "hubs",
            Job::Embed => "embed",
            Job::Join => "join",
        }
    }

    // Tells the channel that it works on.
    fn plan(self) -> Plan {
        match self {
            Job::Read => ORDINARY,
            Job::Day => ORDINARY,
            Job::Workers => ORDINARY,
            Job::Hubs => WIDE,
            Job::Embed => WITH_A_GAP,
            Job::Join => SPOILT,
        }
    }
}

// Runs a job over a channel, and gives the digest of what it came to.
fn work<R: Threads + Wait + Sync>(
    rt: &R,
    alloc: Global,
    job: Job,
    channel: &mut Channel,
    amount: Amount,
) -> anyhow::Result<u64> {
    match job {
        Job::Read => read(alloc, channel, amount),
        Job::Day => replay_all(
            rt,
            alloc,
            channel,
            Replay {
                window: 1024,
                workers: 0,
            },
            amount,
        ),
        Job::Workers => replay_all(
            rt,
            alloc,
            channel,
            Replay {
                window: 1024,
                workers: 2,
            },
            amount,
        ),
        Job::Hubs => replay_all(
            rt,
            alloc,
            channel,
            Replay {
                window: 2048,
                workers: 0,
            },
            amount,
        ),
        Job::Embed => {
            let following = Following {
                window: 1024,
                start: Start::FromOne,
                silent: 0,
            };
            follow(alloc, channel, following, amount)
        }
        Job::Join => {
            let following = Following {
                window: 1024,
                start: Start::Join,
                silent: 1,
            };
            follow(alloc, channel, following, amount)
        }
    }
}

// Gives the number that a word says.
fn number_of(word: Option<String>) -> u32 {
    match word {
        Some(word) => word.parse::<u32>().unwrap_or(1),
        None => 1,
    }
}

// Makes a job's channel, runs the job, and gives the digest of what it came to.
fn run_job<R: Threads + Wait + Sync>(
    rt: &R,
    alloc: Global,
    job: Job,
    seed: u32,
    amount: Amount,
) -> anyhow::Result<u64> {
    let mut channel = Channel::new(alloc, job.plan(), u64::from(seed))?;
    work(rt, alloc, job, &mut channel, amount)
}

fn main(rt: HostRuntime) -> anyhow::Result<()> {
    let mut words = env::args(&rt)?.skip(1);
    let word = words.next();
    let seed = number_of(words.next());
    let times = number_of(words.next());
    let sessions = number_of(words.next());
    let amount = Amount { times, sessions };
    let prints = words.next().is_some();
    let asked = word.as_ref().map_or("", |word| word.as_str());
    let mut found = false;
    for job in JOBS {
        if asked == "all" || asked == job.word() {
            found = true;
            if prints {
                let channel = Channel::new(rt.alloc(), job.plan(), u64::from(seed))?;
                print(rt.alloc(), &channel, sessions, &mut io::writer(&rt))?;
                continue;
            }
            let digest = run_job(&rt, rt.alloc(), job, seed, amount)?;
            println!(rt; "{} {digest:016x}", job.word())?;
        }
    }
    if !found {
        bail!("words: JOB SEED TIMES SESSIONS; jobs: all read day workers hubs embed join");
    }
    Ok(())
}
