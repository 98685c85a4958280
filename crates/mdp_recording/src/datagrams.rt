//! The datagrams of a recording's frames, which a run on one thread takes in as they come.

ghost use Rattle.std.specs.Prelude.{◌∷◌, [], None, OnOk};
ghost use Rattle.mdp_pcap.specs.Outcome.{Cut, Datagram, outcome_content};
ghost use Rattle.mdp_recording.specs.Frames.{Beside};
ghost use Rattle.mdp_recording.specs.Recorded.{HasTold, HoldsFrames, TakesOutcome};

use mdp_capture::{Skip, SkippedLine};
use mdp_pcap::{CapturedFrame, FeedAddresses, FrameOutcome, TakesFrames};
use mdp_pipeline::{Note, Run, note_moves};
use mdp_templates::{Feed, Memory};
use std::alloc::Allocator;

/// A run over the datagrams of the frames that came so far. It holds what is shown and told of them until that is
/// handed on.
#[derive(Drop)]
pub(crate) struct FramedDatagrams<A: Allocator + Copy> {
    pub(crate) alloc: A,
    pub(crate) addresses: FeedAddresses<A>,
    pub(crate) run: Run<A>,
    pub(crate) notes: Vec<Note, A>,
    /// Whether a frame came of which the group or the port was not captured.
    pub(crate) has_cut: bool,
}

impl<A: Allocator + Copy> TakesFrames for FramedDatagrams<A> {
    type Stop = Memory;

    ghost Beside = { Beside };

    ghost holds = { λ by now frames. HoldsFrames by now frames };

    fn take(&mut self, number: u32, frame: CapturedFrame<'_>) -> Result<(), Memory> {
        let outcome = self.addresses.outcome_of(frame);
        self.take_outcome(number, outcome)?;
        Ok(())
    }
}

impl<A: Allocator + Copy> FramedDatagrams<A> {
    // Takes a frame of this number that brings this.
    fn take_outcome(&mut self, number: u32, outcome: FrameOutcome<'_>) -> Result<(), Memory>
        ensures { OnOk result (TakesOutcome (outcome_content outcome.entry) number
            self.old self.new) }
    {
        match outcome {
            FrameOutcome::NoFeed => Ok(()),
            FrameOutcome::Datagram(feed, payload) => self.take_datagram(feed, number, payload),
            FrameOutcome::TooLong(_) => self.tell(Note::Skipped(SkippedLine {
                line: number,
                skip: Skip::TooLong,
            })),
            FrameOutcome::Cut(feed) => self.tell_cut(number, feed),
            FrameOutcome::Fragment(feed) => self.tell(Note::Fragment {
                frame: number,
                feed,
            }),
            FrameOutcome::Broken(feed) => self.tell(Note::Broken {
                frame: number,
                feed,
            }),
        }
    }

    // Notes what is told of a frame.
    fn tell(&mut self, note: Note) -> Result<(), Memory>
        ensures { OnOk result (HasTold (note ∷ []) self.old self.new) }
    {
        self.notes.push(note)?;
        Ok(())
    }

    // Notes that not all of a frame was captured, which is of this feed where that is known.
    fn tell_cut(&mut self, number: u32, feed: Option<Feed>) -> Result<(), Memory>
        ensures { OnOk result (TakesOutcome (Cut feed) number self.old self.new) }
    {
        match feed {
            Some(_) => self.tell(Note::Cut {
                frame: number,
                feed,
            }),
            None => self.tell_cut_away(number),
        }
    }

    // Notes that the group or the port of a frame was not captured, the first time alone.
    fn tell_cut_away(&mut self, number: u32) -> Result<(), Memory>
        ensures { OnOk result (TakesOutcome (Cut None) number self.old self.new) }
    {
        if self.has_cut {
            return Ok(());
        }
        self.tell(Note::Cut {
            frame: number,
            feed: None,
        })?;
        self.has_cut = true;
        Ok(())
    }

    // Takes a frame's datagram on a feed.
    fn take_datagram(&mut self, feed: Feed, number: u32, payload: &[u8]) -> Result<(), Memory>
        ensures { OnOk result (TakesOutcome (Datagram feed payload.now) number self.old self.new) }
    {
        let moved = self
            .run
            .take_datagram_with_moves(self.alloc, feed, number, payload)?;
        note_moves(&mut self.notes, number, moved)?;
        Ok(())
    }
}
