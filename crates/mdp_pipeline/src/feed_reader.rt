//! A reader: it decodes the records of one feed, and hands over their events batch by batch.

ghost use Rattle.std.specs.Prelude.{◌≡◌, ◌++◌, false, [], List, map, OnOk, IfErr};
ghost use Rattle.mdp_arbiter.specs.Accepted.{recovered};
ghost use Rattle.mdp_capture.specs.Record.{RecordContent};
ghost use Rattle.mdp_engine.specs.Steps.{event_of};
ghost use Rattle.mdp_lanes.specs.Queues.{IntakeSenderView};
ghost use Rattle.mdp_crew.specs.declared.batch.Batch.{Batch};
ghost use Rattle.mdp_pipeline.specs.Reading.{close_said, refusal_text};
ghost use Rattle.mdp_receiver.specs.Said.{brought_by, kind_of, said_of};
ghost use Rattle.mdp_crew.specs.Batches.{all_events};
ghost use Rattle.mdp_pipeline.specs.Readers.{HoldsOne, HasHandedOver, HasPut, HasRead, HasReadOne, HasReadSoFar, events_held, has_ended};

use crate::pace::Pace;
use crate::refused_lines::RefusedLines;
use mdp_capture::Record;
use mdp_crew::{Batch, Gate};
use mdp_engine::Event;
use mdp_lanes::IntakeSender;
use mdp_receiver::{Decoded, decode};
use mdp_templates::{Feed, Memory, Snapshot};
use std::alloc::Allocator;
use std::mem;
use std::sync::Wait;

/// How many events a batch holds at most. A reader's batches hold 1, 2, 4 events and so on up to
/// this many: so its first event is handed over at once, and under load a batch costs little.
const MOST_EVENTS: usize = 64;

/// A reader's sender, and what it has read and not handed over yet.
#[derive(Drop)]
pub struct FeedReader<A: Allocator + Copy> {
    pub sender: IntakeSender<Batch<A>, A>,
    pub events: Vec<Event<A>, A>,
    /// The lines of the refused datagrams.
    pub refusals: RefusedLines<A>,
    /// How many events the next batch is to hold.
    pub size: usize,
    /// The last line that it may read before it tells the others where it stands.
    pub until: u32,
}

/// What a reader leaves: its sender, which has ended, and the lines of its refused datagrams,
/// unless memory ran out.
#[derive(Drop)]
pub struct ReaderOutcome<A: Allocator + Copy> {
    pub sender: IntakeSender<Batch<A>, A>,
    pub refusals: Result<RefusedLines<A>, Memory>,
}

// Appends snapshots as events, in their order.
fn push_all<A: Allocator + Copy>(
    alloc: A,
    events: &mut Vec<Event<A>, A>,
    snapshots: &[Snapshot],
) -> Result<(), Memory>
    ensures { OnOk result (map event_of events.new.items ≡ map event_of events.old.items
        ++ map recovered snapshots.now) }
{
    for snapshot in snapshots {
        events.push(Event::snapshot(alloc, snapshot.copy())?)?;
    }
    Ok(())
}

// Returns the number of a feed, from 0, under which a gate is told of its reader.
pub fn number_of(feed: Feed) -> usize {
    match feed {
        Feed::A => 0,
        Feed::B => 1,
        Feed::S => 2,
    }
}

impl<A: Allocator + Copy> FeedReader<A> {
    // Holds the events that a datagram on this line brings, or the line of its refusal.
    fn hold(&mut self, alloc: A, feed: Feed, line: u32, decoded: Decoded<A>) -> Result<(), Memory>
        ensures events { OnOk result (events_held self.new ≡ events_held self.old
            ++ brought_by (said_of decoded)) }
        ensures refusals { OnOk result (self.new.refusals ≡ self.old.refusals
            ++ refusal_text feed line (said_of decoded)) }
        ensures sender { self.new.sender ≡ self.old.sender }
    {
        match decoded {
            Decoded::Packet(packet) => self.events.push(Event::Packet(packet))?,
            Decoded::Snapshots(snapshots) => push_all(alloc, &mut self.events, &snapshots)?,
            Decoded::Refused(refusal) => self.refusals.put(feed, line, refusal)?,
        }
        Ok(())
    }

    // Holds a close, which counts on feed S alone.
    fn hold_close(&mut self, feed: Feed) -> Result<(), Memory>
        ensures events { OnOk result (events_held self.new ≡ events_held self.old
            ++ brought_by (close_said (kind_of feed))) }
        ensures refusals { self.new.refusals ≡ self.old.refusals }
        ensures sender { self.new.sender ≡ self.old.sender }
    {
        match feed {
            Feed::A => {}
            Feed::B => {}
            Feed::S => self.events.push(Event::Close)?,
        }
        Ok(())
    }

    // Holds what a record brings.
    fn take(&mut self, alloc: A, feed: Feed, record: &Record<A>) -> Result<(), Memory>
        ensures holds { OnOk result (HoldsOne feed «record».now self.old self.new) }
        ensures sender { self.new.sender ≡ self.old.sender }
    {
        match record.bytes() {
            Some(bytes) => {
                let decoded = decode(alloc, feed, bytes)?;
                self.hold(alloc, feed, record.line(), decoded)
            }
            None => self.hold_close(feed),
        }
    }

    // Hands over the events that are held, if any.
    fn put_held<R: Wait>(&mut self, rt: &R, alloc: A)
        requires { has_ended self.old.sender ≡ false }
        ensures put { (batches : List (Batch A)) × HasPut self.old.sender batches self.new.sender
            × (events_held self.old ≡ all_events batches ++ events_held self.new) }
        ensures goes_on { has_ended self.new.sender ≡ false }
        ensures refusals { self.new.refusals ≡ self.old.refusals }
    {
        if self.events.is_empty() {
            return;
        }
        let events = mem::replace(&mut self.events, Vec::new(alloc));
        let batch = Batch {
            events,
            is_last: false,
        };
        self.sender.put(rt, batch);
    }

    // Hands over the events that are held, where they fill a batch.
    fn hand_over<R: Wait>(&mut self, rt: &R, alloc: A)
        requires { has_ended self.old.sender ≡ false }
        ensures put { (batches : List (Batch A)) × HasPut self.old.sender batches self.new.sender
            × (events_held self.old ≡ all_events batches ++ events_held self.new) }
        ensures goes_on { has_ended self.new.sender ≡ false }
        ensures refusals { self.new.refusals ≡ self.old.refusals }
    {
        if self.events.len() < self.size {
            return;
        }
        self.put_held(rt, alloc);
        self.size = self.size.saturating_mul(2).min(MOST_EVENTS);
    }

    // Hands over the events that are held and waits for the slower readers, where the next record's
    // line asks for it.
    fn keep_pace<R: Wait>(&mut self, rt: &R, alloc: A, pace: &Pace, feed: Feed, line: u32)
        requires { has_ended self.old.sender ≡ false }
        ensures put { (batches : List (Batch A)) × HasPut self.old.sender batches self.new.sender
            × (events_held self.old ≡ all_events batches ++ events_held self.new) }
        ensures goes_on { has_ended self.new.sender ≡ false }
        ensures refusals { self.new.refusals ≡ self.old.refusals }
    {
        if line <= self.until {
            return;
        }
        self.put_held(rt, alloc);
        self.until = pace.keep(rt, feed, line);
    }

    // Reads a record.
    fn read<R: Wait>(
        &mut self,
        rt: &R,
        alloc: A,
        feed: Feed,
        record: &Record<A>,
    ) -> Result<(), Memory>
        requires { has_ended self.old.sender ≡ false }
        ensures one { OnOk result (HasReadOne feed «record».now self.old self.new) }
        ensures stays { IfErr result (λ _. self.new.sender ≡ self.old.sender) }
        ensures goes_on { has_ended self.new.sender ≡ false }
    {
        self.take(alloc, feed, record)?;
        self.hand_over(rt, alloc);
        Ok(())
    }

    // Reads all records, of which none is read yet.
    fn read_all<R: Wait, G: Gate>(
        &mut self,
        rt: &R,
        alloc: A,
        gate: &G,
        pace: &Pace,
        feed: Feed,
        records: &[Record<A>],
    ) -> Result<(), Memory>
        requires open { has_ended self.old.sender ≡ false }
        requires events { self.old.events.items ≡ [] }
        requires refusals { self.old.refusals ≡ [] }
        ensures all { OnOk result (HasReadSoFar feed records.now self.old.sender self.new) }
        ensures some { IfErr result (λ _. HasHandedOver feed records.now self.old.sender
            self.new.sender) }
        ensures goes_on { has_ended self.new.sender ≡ false }
    {
        let mut place = 1u64;
        for record in records {
            gate.reads(number_of(feed), place);
            self.keep_pace(rt, alloc, pace, feed, record.line());
            self.read(rt, alloc, feed, record)?;
            place = place.saturating_add(1);
        }
        gate.reads(number_of(feed), place);
        Ok(())
    }

    // Hands over what is held as the last batch.
    fn finish<R: Wait>(self, rt: &R) -> ReaderOutcome<A>
        requires { has_ended self.sender ≡ false }
        ensures { (feed : Feed) (records : List RecordContent) (before : IntakeSenderView (Batch A))
            → HasReadSoFar feed records before self → HasRead feed records before result }
    {
        let FeedReader {
            mut sender,
            events,
            refusals,
            ..
        } = self;
        let batch = Batch {
            events,
            is_last: true,
        };
        sender.put(rt, batch);
        ReaderOutcome {
            sender,
            refusals: Ok(refusals),
        }
    }
}

// Puts an empty last batch, for want of memory or because a reader is told to stop.
fn stop<R: Wait, A: Allocator + Copy>(
    rt: &R,
    alloc: A,
    mut sender: IntakeSender<Batch<A>, A>,
) -> ReaderOutcome<A>
    requires { has_ended sender ≡ false }
    ensures { (feed : Feed) (records : List RecordContent) (before : IntakeSenderView (Batch A))
        → HasHandedOver feed records before sender → HasRead feed records before result }
{
    let batch = Batch {
        events: Vec::new(alloc),
        is_last: true,
    };
    sender.put(rt, batch);
    ReaderOutcome {
        sender,
        refusals: Err(Memory),
    }
}

// Decodes the records of a feed and hands over their events, once it is told to go; told to stop,
// it hands over none.
fn read_or_stop<R: Wait, G: Gate, A: Allocator + Copy>(
    rt: &R,
    pace: &Pace,
    alloc: A,
    gate: &G,
    feed: Feed,
    records: &[Record<A>],
    sender: IntakeSender<Batch<A>, A>,
) -> ReaderOutcome<A>
    requires { has_ended sender ≡ false }
    ensures { HasRead feed records.now sender result }
{
    if !*pace.go.wait(rt) {
        return stop(rt, alloc, sender);
    }
    let mut reader = FeedReader {
        sender,
        events: Vec::new(alloc),
        refusals: RefusedLines::new(alloc),
        size: 1,
        until: 0,
    };
    match reader.read_all(rt, alloc, gate, pace, feed, records) {
        Ok(()) => reader.finish(rt),
        Err(Memory) => {
            let FeedReader { sender, .. } = reader;
            stop(rt, alloc, sender)
        }
    }
}

/// Decodes the records of a feed and hands over their events, once it is told to go; told to stop,
/// it hands over none. In either way it puts its last batch, and tells the others that it waits for
/// nobody and nobody need wait for it.
pub fn read_feed<R: Wait, G: Gate, A: Allocator + Copy>(
    rt: &R,
    pace: &Pace,
    alloc: A,
    gate: &G,
    feed: Feed,
    records: &[Record<A>],
    sender: IntakeSender<Batch<A>, A>,
) -> ReaderOutcome<A>
    requires { has_ended sender ≡ false }
    ensures { HasRead feed records.now sender result }
{
    let outcome = read_or_stop(rt, pace, alloc, gate, feed, records, sender);
    pace.leave(rt, feed);
    outcome
}
