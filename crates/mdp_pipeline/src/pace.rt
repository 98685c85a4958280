//! How the readers of a run keep pace by the lines of the capture.

use mdp_capture::Record;
use mdp_templates::Feed;
use std::alloc::Allocator;
use std::sync::{Condvar, Mutex, OnceLock, Wait};

/// The line of what never comes, behind all others.
const NEVER: u32 = 4_294_967_295;

/// Of each feed, the line of the first record that was not handed over.
#[derive(Drop)]
struct Lines {
    a: u32,
    b: u32,
    s: u32,
}

impl Lines {
    // Returns the line of the slowest reader.
    fn slowest(&self) -> u32 {
        self.a.min(self.b).min(self.s)
    }

    // Notes the line of a feed.
    fn set(&mut self, feed: Feed, line: u32) {
        match feed {
            Feed::A => self.a = line,
            Feed::B => self.b = line,
            Feed::S => self.s = line,
        }
    }
}

/// Lets three readers go, and keeps them side by side: none reads further ahead of the slowest than the lead, however
/// the system shares out its processors. So a packet that came on one feed alone is not given up because another feed's
/// reader was quicker. And none reads beyond the line of the first close before all that stands before it was handed
/// over.
#[derive(Drop)]
pub struct Pace {
    /// Whether the readers are to go; not known before all have begun.
    pub go: OnceLock<bool>,
    lead: u32,
    close: u32,
    lines: Mutex<Lines>,
    moved: Condvar,
}

// Returns the line of the first close of feed S.
fn first_close<A: Allocator>(s: &[Record<A>]) -> u32 {
    for record in s {
        if record.bytes().is_none() {
            return record.line();
        }
    }
    NEVER
}

impl Pace {
    /// Makes the pace of a run whose window covers so many packet numbers, over these records of feed S. The lead is
    /// a quarter of that many lines: the other three quarters are for what the feeds themselves are apart.
    pub fn new<A: Allocator>(window: u32, s: &[Record<A>]) -> Pace {
        Pace {
            go: OnceLock::new(),
            lead: window / 4,
            close: first_close(s),
            lines: Mutex::new(Lines { a: 0, b: 0, s: 0 }),
            moved: Condvar::new(),
        }
    }

    // Returns the last line that may be read where the slowest reader stands at this one.
    fn last_line(&self, slowest: u32) -> u32 {
        if slowest == self.close {
            return slowest;
        }
        let far = slowest.saturating_add(self.lead);
        if slowest < self.close {
            return far.min(self.close - 1);
        }
        far
    }

    /// Tells that the reader of a feed has handed over all before this line, and waits until it may read the line. It
    /// answers the last line that the reader may read before it tells again.
    pub fn keep<R: Wait>(&self, rt: &R, feed: Feed, line: u32) -> u32 {
        let mut lines = self.lines.lock(rt);
        lines.set(feed, line);
        self.moved.notify_all();
        let lines = self
            .moved
            .wait_while(rt, lines, |lines| self.last_line(lines.slowest()) < line);
        let next = line.saturating_add(self.lead / 2);
        self.last_line(lines.slowest()).min(next)
    }

    /// Tells that the reader of a feed has handed over all that it will.
    pub fn leave<R: Wait>(&self, rt: &R, feed: Feed) {
        self.lines.lock(rt).set(feed, NEVER);
        self.moved.notify_all();
    }
}
