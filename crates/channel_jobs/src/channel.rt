//! A channel: the packets that open its books, and a session of packets and snapshots that can be sent again and again,
//! since it leaves the books as it found them.

use crate::arrivals::arrivals;
use crate::datagram::Datagram;
use crate::market::{Heard, Market, Shape};
use crate::random::Random;
use crate::session::Session;
use mdp_templates::Feed;
use std::alloc::{AllocError, Global};

/// How a channel is made, and what its feeds lose. Shares are of a thousand.
#[derive(Clone, Copy)]
pub struct Plan {
    pub shape: Shape,
    /// How many events move the books in a session, before they are taken back one by one.
    pub events: u16,
    /// How many packets feed B stands behind feed A.
    pub lag: u16,
    /// The share of packets that one feed loses and the other brings.
    pub lost: u16,
    /// How many times a session loses three packets on both feeds.
    pub gaps: u16,
    /// A snapshot comes every so many packets; none where it is 0.
    pub snapshot_every: u16,
    /// How many securities that are not listed have a snapshot after each listed one.
    pub unlisted: u16,
    /// Whether of each packet one copy is cut short, on A or on B.
    pub cuts: bool,
}

/// A datagram that comes on a feed.
#[derive(Clone, Copy)]
pub struct Arrival {
    pub feed: Feed,
    /// Its place among the session's packets, or on feed S among its snapshots.
    pub place: usize,
    /// Whether the last bytes are missing.
    pub is_cut: bool,
}

/// The datagrams of a channel.
#[derive(Drop)]
pub struct Channel {
    pub market: Market,
    /// The packets that fill the books, from number 1 on.
    pub opening: Vec<Datagram>,
    /// The packets of a session, each a number after the one before.
    pub packets: Vec<Datagram>,
    pub snapshots: Vec<Datagram>,
    /// What comes in a session, in that order.
    pub arrivals: Vec<Arrival>,
}

impl Channel {
    /// Makes a channel by a plan.
    pub fn new(alloc: Global, plan: Plan, seed: u64) -> Result<Channel, AllocError> {
        let mut random = Random::new(seed);
        let market = Market::new(alloc, plan.shape, &mut random)?;
        let mut channel = Channel {
            market,
            opening: Vec::new(alloc),
            packets: Vec::new(alloc),
            snapshots: Vec::new(alloc),
            arrivals: Vec::new(alloc),
        };
        channel.open(alloc, &mut random)?;
        let events = usize::from(plan.events);
        let heard = channel.market.there_and_back(alloc, &mut random, events)?;
        let mut session = Session::new(alloc, plan, channel.opening.len());
        session.hear_all(alloc, &mut channel.market, &heard, &mut random)?;
        channel.arrivals = arrivals(
            alloc,
            plan,
            session.packets.len(),
            session.snapshots.len(),
            &mut random,
        )?;
        channel.packets = session.packets;
        channel.snapshots = session.snapshots;
        Ok(channel)
    }

    // Fills the direct sides, from the last security to the first.
    fn open(&mut self, alloc: Global, random: &mut Random) -> Result<(), AllocError> {
        for slot in 0..self.market.len() {
            let mut heard = Vec::new(alloc);
            for place in 0..16 {
                let step = self.market.append(slot, place % 2, random);
                self.market.apply(&step)?;
                heard.push(Heard {
                    step,
                    begins: place == 0,
                    ends: place == 15,
                })?;
            }
            let number = (self.opening.len() % 65536) as u32 + 1;
            let mut packet = Datagram::packet(alloc, number)?;
            packet.put_book(&heard, true)?;
            self.opening.push(packet)?;
        }
        Ok(())
    }

    /// Takes the numbers and sizes of another turn, which begins so many packets later.
    pub fn renew(&mut self, turn: u32, later: u32) {
        for datagram in self.packets.iter_mut() {
            datagram.renew(turn, later);
        }
        for datagram in self.snapshots.iter_mut() {
            datagram.renew(turn, later);
        }
    }
}
