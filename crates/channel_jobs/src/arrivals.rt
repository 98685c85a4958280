//! The way of a session's datagrams over the feeds: what is lost, late, repeated or cut, and in which order it comes.

use crate::channel::{Arrival, Plan};
use crate::random::Random;
use mdp_templates::Feed;
use std::alloc::{AllocError, Global};

/// How many packets in a row both feeds lose at a time.
const GAP: usize = 3;

/// Which copies of a packet come, and whether they are whole.
#[derive(Clone, Copy)]
struct Fate {
    on_a: bool,
    on_b: bool,
    cut_on_a: bool,
    cut_on_b: bool,
}

/// One of the two feeds of packets, with a packet that is late, and when it comes.
#[derive(Drop)]
struct Copies {
    feed: Feed,
    late: Option<(usize, usize)>,
}

impl Copies {
    // Lets a packet come, now and then late or twice, and the late one whose time it is.
    fn send(
        &mut self,
        arrivals: &mut Vec<Arrival>,
        now: usize,
        place: usize,
        is_cut: bool,
        random: &mut Random,
    ) -> Result<(), AllocError> {
        if random.happens(10) && self.late.is_none() {
            self.late = Some((place, now.saturating_add(1 + random.below(8))));
            return Ok(());
        }
        let feed = self.feed;
        arrivals.push(Arrival {
            feed,
            place,
            is_cut,
        })?;
        if random.happens(5) {
            arrivals.push(Arrival {
                feed,
                place,
                is_cut,
            })?;
        }
        Ok(())
    }

    // Lets the late packet come, where its time has come.
    fn send_late(&mut self, arrivals: &mut Vec<Arrival>, now: usize) -> Result<(), AllocError> {
        let Some((place, due)) = self.late else {
            return Ok(());
        };
        if due <= now {
            let feed = self.feed;
            arrivals.push(Arrival {
                feed,
                place,
                is_cut: false,
            })?;
            self.late = None;
        }
        Ok(())
    }
}

// Chooses what becomes of each of so many packets.
fn fates(
    alloc: Global,
    plan: Plan,
    packets: usize,
    random: &mut Random,
) -> Result<Vec<Fate>, AllocError> {
    let mut fates = Vec::with_capacity(alloc, packets)?;
    let lost = usize::from(plan.lost);
    let span = packets / (usize::from(plan.gaps) + 1) + 1;
    for n in 0..packets {
        let is_lost = plan.gaps > 0 && n >= span && n % span < GAP;
        let on_a = !random.happens(lost);
        let on_b = !on_a || !random.happens(lost);
        let cuts_a = plan.cuts && random.below(2) == 0;
        fates.push(Fate {
            on_a: on_a && !is_lost,
            on_b: on_b && !is_lost,
            cut_on_a: cuts_a && on_b,
            cut_on_b: plan.cuts && !cuts_a && on_a,
        })?;
    }
    Ok(fates)
}

// Appends the snapshots that are sent after so many packets.
fn put_snapshots(
    arrivals: &mut Vec<Arrival>,
    plan: Plan,
    packets: usize,
    all: usize,
) -> Result<(), AllocError> {
    let every = usize::from(plan.snapshot_every);
    if every == 0 || packets % every != 0 {
        return Ok(());
    }
    let at_once = 1 + usize::from(plan.unlisted);
    let first = (packets / every).saturating_sub(1).saturating_mul(at_once);
    for n in 0..at_once {
        let place = first.saturating_add(n);
        if place < all {
            let feed = Feed::S;
            arrivals.push(Arrival {
                feed,
                place,
                is_cut: false,
            })?;
        }
    }
    Ok(())
}

/// Gives the order in which so many packets, on feeds A and B, and so many snapshots come.
pub fn arrivals(
    alloc: Global,
    plan: Plan,
    packets: usize,
    snapshots: usize,
    random: &mut Random,
) -> Result<Vec<Arrival>, AllocError> {
    let fates = fates(alloc, plan, packets, random)?;
    let lag = usize::from(plan.lag);
    let mut list = Vec::new(alloc);
    let mut a = Copies {
        feed: Feed::A,
        late: None,
    };
    let mut b = Copies {
        feed: Feed::B,
        late: None,
    };
    for now in 0..packets.saturating_add(lag).saturating_add(10) {
        a.send_late(&mut list, now)?;
        if let Some(fate) = fates.get(now) {
            if fate.on_a {
                a.send(&mut list, now, now, fate.cut_on_a, random)?;
            }
            put_snapshots(&mut list, plan, now.saturating_add(1), snapshots)?;
        }
        b.send_late(&mut list, now)?;
        let behind = now.checked_sub(lag);
        if let Some(fate) = behind.and_then(|place| fates.get(place).copied()) {
            if fate.on_b {
                b.send(
                    &mut list,
                    now,
                    now.saturating_sub(lag),
                    fate.cut_on_b,
                    random,
                )?;
            }
        }
    }
    Ok(list)
}
