//! The packets and snapshots of a session, put together of the steps that its events make.

use crate::channel::Plan;
use crate::datagram::Datagram;
use crate::market::{Heard, Market, id_of};
use crate::random::Random;
use std::alloc::{AllocError, Global};

/// How many steps a message has at most.
const MOST_STEPS: usize = 6;

/// A session as far as it was put together.
#[derive(Drop)]
pub struct Session {
    plan: Plan,
    // how many packets came before it
    opened: u32,
    pub packets: Vec<Datagram>,
    pub snapshots: Vec<Datagram>,
}

// Tells how many of these steps go into one message: up to the end of an event, mostly fewer than all of them.
fn steps_of_message(rest: &[Heard], random: &mut Random) -> usize {
    let mut count = 0usize;
    for it in rest.iter().take(MOST_STEPS) {
        count = count.saturating_add(1);
        if it.ends || random.happens(250) {
            break;
        }
    }
    count
}

impl Session {
    /// Begins after so many packets.
    pub fn new(alloc: Global, plan: Plan, opened: usize) -> Session {
        Session {
            plan,
            opened: (opened % 65536) as u32,
            packets: Vec::new(alloc),
            snapshots: Vec::new(alloc),
        }
    }

    /// Puts all steps into packets, makes them in the market, and adds the snapshots that are sent in between.
    pub fn hear_all(
        &mut self,
        alloc: Global,
        market: &mut Market,
        heard: &[Heard],
        random: &mut Random,
    ) -> Result<(), AllocError> {
        let mut at = 0;
        for _ in 0..heard.len() {
            if at >= heard.len() {
                break;
            }
            at = self.put_packet(alloc, market, heard, at, random)?;
            self.put_snapshots(alloc, market)?;
        }
        Ok(())
    }

    // Tells the number of the latest packet.
    fn number(&self) -> u32 {
        self.opened
            .wrapping_add((self.packets.len() % 1_000_000) as u32)
    }

    // Puts one packet together, of the steps from a place on, and tells the place behind them.
    fn put_packet(
        &mut self,
        alloc: Global,
        market: &mut Market,
        heard: &[Heard],
        at: usize,
        random: &mut Random,
    ) -> Result<usize, AllocError> {
        let mut packet = Datagram::packet(alloc, self.number().wrapping_add(1))?;
        let mut at = at;
        if random.happens(10) {
            packet.put_heartbeat()?;
        } else {
            for _ in 0..1 + random.below(3) {
                let Some(rest) = heard.get(at..) else {
                    break;
                };
                let count = steps_of_message(rest, random).min(rest.len());
                put_message(&mut packet, market, &rest[..count], random)?;
                at = at.saturating_add(count);
            }
        }
        self.packets.push(packet)?;
        Ok(at)
    }

    // Adds the snapshots that are sent after the latest packet.
    fn put_snapshots(&mut self, alloc: Global, market: &Market) -> Result<(), AllocError> {
        let every = usize::from(self.plan.snapshot_every);
        if every == 0 || self.packets.len() % every != 0 {
            return Ok(());
        }
        let slot = self.packets.len() / every % market.len().max(1);
        let last = self.number();
        self.snapshots.push(Datagram::snapshot(alloc, market, slot, id_of(slot), last)?)?;
        for n in 0..usize::from(self.plan.unlisted) {
            let id = id_of(slot).wrapping_add(1 + (n % 64) as u32);
            self.snapshots
                .push(Datagram::snapshot(alloc, market, slot, id, last)?)?;
        }
        Ok(())
    }
}

// Puts steps into a message of a packet, and makes them. Now and then their event ends in a message of its own, or trades
// stand behind them.
fn put_message(
    packet: &mut Datagram,
    market: &mut Market,
    heard: &[Heard],
    random: &mut Random,
) -> Result<(), AllocError> {
    let Some(last) = heard.last() else {
        return Ok(());
    };
    let is_apart = last.ends && random.happens(40);
    packet.put_book(heard, last.ends && !is_apart)?;
    if is_apart {
        packet.put_trades(true)?;
    } else if random.happens(20) {
        packet.put_trades(false)?;
    }
    for it in heard {
        market.apply(&it.step)?;
    }
    Ok(())
}
