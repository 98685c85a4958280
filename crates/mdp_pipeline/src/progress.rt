//! A run over the records of a channel's feeds, so far.

ghost use Rattle.std.specs.Prelude.{◌≡◌, [], IfOk, OnOk};
ghost use Rattle.mdp_crew.specs.Plan.{IsLawful, channel_in};
ghost use Rattle.mdp_capture.specs.Record.{Close, Datagram};
ghost use Rattle.mdp_pipeline.specs.Merge.{arrival_on};
ghost use Rattle.mdp_pipeline.specs.RefusalTexts.{with_told};
ghost use Rattle.mdp_pipeline.specs.Running.{HasRun, TakesAs, TakesMoving, TakesOn};
ghost use Rattle.mdp_receiver.specs.Said.{kind_of};
ghost use Rattle.mdp_receiver.specs.Taken.{refusal_told};

use crate::refusals::Refusals;
use mdp_capture::Record;
use mdp_crew::RunPlan;
use mdp_receiver::{Handler, Moved, Taken};
use mdp_templates::{Feed, Memory};
use std::alloc::Allocator;

/// The handler of a run, which holds what is printed at event ends and jumps as far as it was not handed on, and the
/// lines of refused datagrams.
#[derive(Drop)]
pub struct Run<A: Allocator + Copy> {
    pub handler: Handler<A>,
    pub refusals: Refusals<A>,
}

impl<A: Allocator + Copy> Run<A> {
    /// Makes a run before any record.
    pub fn new(alloc: A, plan: RunPlan<'_>) -> Result<Run<A>, Memory>
        requires { IsLawful plan }
        ensures run { IfOk result (λ r. HasRun (channel_in plan.entry) [] [] r) }
    {
        Ok(Run {
            handler: Handler::new(alloc, plan.instruments, plan.window, plan.start)?,
            refusals: Refusals::new(alloc),
        })
    }

    // Keeps the line of a datagram that was refused.
    fn keep(&mut self, feed: Feed, line: u32, taken: Taken) -> Result<(), Memory>
        ensures handler { self.new.handler ≡ self.old.handler }
        ensures refusals { OnOk result (self.new.refusals
            ≡ with_told feed line (refusal_told taken) self.old.refusals) }
    {
        match taken {
            Taken::Refused(refusal) => self.refusals.put(feed, line, refusal),
            Taken::Packet(_) => Ok(()),
            Taken::Snapshots(_) => Ok(()),
        }
    }

    // Takes a datagram that a line brings on a feed.
    fn take_datagram(&mut self, alloc: A, feed: Feed, line: u32, bytes: &[u8]) -> Result<(), Memory>
        ensures { OnOk result (TakesOn feed line (Datagram bytes.now) self.old self.new) }
    {
        let taken = self.handler.datagram(alloc, feed, bytes)?;
        self.keep(feed, line, taken)
    }

    /// Takes a datagram that a line brings on a feed, and tells what it moved.
    pub fn take_datagram_with_moves(
        &mut self,
        alloc: A,
        feed: Feed,
        line: u32,
        bytes: &[u8],
    ) -> Result<Moved, Memory>
        ensures { IfOk result (λ moved. TakesMoving feed
            (record { line = line; received = Datagram bytes.now }) moved self.old self.new) }
    {
        let (taken, moved) = self.handler.datagram_with_moves(alloc, feed, bytes)?;
        self.keep(feed, line, taken)?;
        Ok(moved)
    }

    /// Takes a close that a line brings, which counts on feed S alone.
    pub fn take_close(&mut self, feed: Feed, line: u32) -> Result<(), Memory>
        ensures { OnOk result (TakesOn feed line Close self.old self.new) }
    {
        match feed {
            Feed::A => Ok(()),
            Feed::B => Ok(()),
            Feed::S => self.handler.close(),
        }
    }

    /// Takes a record of a feed.
    pub fn take(&mut self, alloc: A, feed: Feed, record: &Record<A>) -> Result<(), Memory>
        ensures { OnOk result (TakesAs (kind_of feed) (arrival_on feed «record».now) self.old self.new) }
    {
        match record.bytes() {
            Some(bytes) => self.take_datagram(alloc, feed, record.line(), bytes),
            None => self.take_close(feed, record.line()),
        }
    }
}
