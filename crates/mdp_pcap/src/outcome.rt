//! What a frame brings on the feeds of a channel.

ghost use Rattle.std.specs.Prelude.{◌≡◌};
ghost use Rattle.mdp_pcap.specs.Frame.{captured_content, frame_of};
ghost use Rattle.mdp_pcap.specs.Outcome.{outcome_of, outcome_content};

use crate::addresses::FeedAddresses;
use crate::frame::{CapturedFrame, Frame, frame_of};
use mdp_templates::{Feed, LONGEST_DATAGRAM};
use std::alloc::Allocator;

/// What a frame brings on the feeds of a channel.
#[derive(Clone, Copy)]
pub enum FrameOutcome<'a> {
    /// Nothing: it is no feed's.
    NoFeed,
    /// A datagram on a feed, and its payload of at most 2,048 bytes.
    Datagram(Feed, &'a [u8]),
    /// A datagram on a feed with a longer payload.
    TooLong(Feed),
    /// A frame of which not all bytes were captured that its datagram on a feed needs. No feed is said where the group
    /// or the port was not captured.
    Cut(Option<Feed>),
    /// A fragment of a datagram to a feed's group. No feed is said where several have that group.
    Fragment(Option<Feed>),
    /// A datagram on a feed whose lengths contradict one another, or its frame's.
    Broken(Feed),
}

impl<A: Allocator> FeedAddresses<A> {
    /// Gives what a captured frame brings on the feeds of these addresses. The payload is lent from the frame.
    pub fn outcome_of<'a>(&self, captured: CapturedFrame<'a>) -> FrameOutcome<'a>
        ensures { outcome_content result
            ≡ outcome_of self.now (frame_of (captured_content captured.entry)) }
    {
        match frame_of(captured) {
            Frame::Other => FrameOutcome::NoFeed,
            Frame::CutBeforeGroup => FrameOutcome::Cut(None),
            Frame::CutBeforePort(group) => {
                if self.has_group(group) {
                    return FrameOutcome::Cut(None);
                }
                FrameOutcome::NoFeed
            }
            Frame::Fragment(group) => {
                if self.has_group(group) {
                    return FrameOutcome::Fragment(self.sole_feed(group));
                }
                FrameOutcome::NoFeed
            }
            Frame::Cut(group, port) => match self.feed_at(group, port) {
                Some(feed) => FrameOutcome::Cut(Some(feed)),
                None => FrameOutcome::NoFeed,
            },
            Frame::Broken(group, port) => match self.feed_at(group, port) {
                Some(feed) => FrameOutcome::Broken(feed),
                None => FrameOutcome::NoFeed,
            },
            Frame::Datagram(group, port, payload) => match self.feed_at(group, port) {
                Some(feed) => datagram_on(feed, payload),
                None => FrameOutcome::NoFeed,
            },
        }
    }
}

ghost use Rattle.mdp_pcap.specs.Outcome.{datagram_on};

fn datagram_on<'a>(feed: Feed, payload: &'a [u8]) -> FrameOutcome<'a>
    ensures { outcome_content result ≡ datagram_on feed payload.now }
{
    if payload.len() > LONGEST_DATAGRAM {
        return FrameOutcome::TooLong(feed);
    }
    FrameOutcome::Datagram(feed, payload)
}
