//! A market that moves: its securities, their books, and the steps that change them.

ghost use Rattle.std.specs.Prelude.{◌≤◌, ◌<◌};

use crate::random::Random;
use mdp_templates::{Action, DIRECT_DEPTH, IMPLIED_DEPTH, Level};
use std::alloc::{AllocError, Global};
use std::io::Write;

/// How many sides a book has: bids, offers, implied bids and implied offers.
pub const SIDES: usize = 4;

/// A direct side has so many levels at least, once it was filled.
const LEAST_LEVELS: usize = 6;

/// What is listed.
#[derive(Clone, Copy)]
pub struct Shape {
    /// How many outrights there are, 8 at least and 512 with the spreads at most.
    pub outrights: u16,
    /// How many calendar spreads there are.
    pub spreads: u16,
    /// How many outrights are a leg of many spreads each; with none, both legs of a spread stand near each other.
    pub hubs: u16,
}

/// A listed security. Its id is one more than a hundred times its slot.
#[derive(Clone, Copy)]
pub struct Security {
    /// The slots of the legs of a spread.
    legs: Option<(usize, usize)>,
    /// The price that its sides begin around.
    middle: i64,
    tick: i64,
}

/// One change of one side of a book. Places count from 0, the best.
#[derive(Clone, Copy)]
pub struct Step {
    pub slot: usize,
    /// The side's place in its book.
    pub side: usize,
    pub action: Action,
    pub place: usize,
    /// The level that is put there, all zeros for a delete.
    pub level: Level,
    // the level that was there
    before: Level,
}

/// A step, and whether its event begins and ends with it.
#[derive(Clone, Copy)]
pub struct Heard {
    pub step: Step,
    pub begins: bool,
    pub ends: bool,
}

const NO_LEVEL: Level = Level { price: 0, size: 0 };

impl Step {
    // Gives the step that takes this one back.
    fn back(&self) -> Step {
        let action = match self.action {
            Action::New => Action::Delete,
            Action::Change => Action::Change,
            Action::Delete => Action::New,
        };
        Step {
            slot: self.slot,
            side: self.side,
            action,
            place: self.place,
            level: self.before,
            before: self.level,
        }
    }
}

/// The securities and their books.
#[derive(Drop)]
pub struct Market {
    securities: Vec<Security>,
    // of each security its sides
    sides: Vec<Vec<Level>>,
    // of each security the spreads of which it is a leg
    spreads_of: Vec<Vec<usize>>,
    outrights: usize,
}

/// Gives the id of the security at a slot.
pub fn id_of(slot: usize) -> u32 {
    1 + 100 * (slot % 1024) as u32
}

/// Gives how many levels a side has at most.
fn depth_of(side: usize) -> usize {
    if side < 2 {
        DIRECT_DEPTH
    } else {
        IMPLIED_DEPTH
    }
}

// Tells whether a side is one of bids.
fn is_bid(side: usize) -> bool {
    side % 2 == 0
}

// Makes an outright.
fn outright(slot: usize, random: &mut Random) -> Security {
    let product = (slot / 8) as i64 % 64;
    let expiry = (slot % 8) as i64;
    let middle = 3_100 + 130 * product + 12 * expiry + random.below(8) as i64;
    Security {
        legs: None,
        middle: middle * 1_000_000_000,
        tick: 250_000_000,
    }
}

// Chooses the legs of a spread among so many outrights.
fn legs_of(spread: usize, shape: Shape, random: &mut Random) -> (usize, usize) {
    let outrights = usize::from(shape.outrights).max(8);
    let hubs = usize::from(shape.hubs);
    if hubs == 0 || hubs >= outrights {
        let bought = random.below(outrights - 3);
        return (bought, bought + 1 + random.below(3));
    }
    (spread % hubs, hubs + random.below(outrights - hubs))
}

impl Market {
    /// Makes a market of this shape, whose books are empty.
    pub fn new(alloc: Global, shape: Shape, random: &mut Random) -> Result<Market, AllocError> {
        let outrights = usize::from(shape.outrights).max(8);
        let mut market = Market {
            securities: Vec::new(alloc),
            sides: Vec::new(alloc),
            spreads_of: Vec::new(alloc),
            outrights,
        };
        for slot in 0..outrights {
            market.add(alloc, outright(slot, random))?;
        }
        for spread in 0..usize::from(shape.spreads) {
            let (bought, sold) = legs_of(spread, shape, random);
            market.add_spread(alloc, bought, sold)?;
        }
        Ok(market)
    }

    // Adds a security with empty sides.
    fn add(&mut self, alloc: Global, security: Security) -> Result<(), AllocError> {
        self.securities.push(security)?;
        self.spreads_of.push(Vec::new(alloc))?;
        for _ in 0..SIDES {
            self.sides.push(Vec::new(alloc))?;
        }
        Ok(())
    }

    // Adds a spread of these legs.
    fn add_spread(&mut self, alloc: Global, bought: usize, sold: usize) -> Result<(), AllocError> {
        let slot = self.securities.len();
        let middle = self.middle(bought).wrapping_sub(self.middle(sold));
        for leg in [bought, sold] {
            if let Some(spreads) = self.spreads_of.get_mut(leg) {
                spreads.push(slot)?;
            }
        }
        self.add(
            alloc,
            Security {
                legs: Some((bought, sold)),
                middle,
                tick: 50_000_000,
            },
        )
    }

    // Gives the price that a security's sides begin around.
    fn middle(&self, slot: usize) -> i64 {
        self.securities
            .get(slot)
            .map_or(0, |security| security.middle)
    }

    /// Tells how many securities are listed.
    pub fn len(&self) -> usize {
        self.securities.len()
    }

    /// Lends a side of the book at a slot.
    pub fn side(&self, slot: usize, side: usize) -> &[Level] {
        match self.sides.get(slot.wrapping_mul(SIDES).wrapping_add(side)) {
            Some(levels) => levels.as_slice(),
            None => &[],
        }
    }

    /// Appends the lines of a capture that list the securities.
    pub fn put_lines(&self, text: &mut String) -> Result<(), AllocError> {
        for (slot, security) in self.securities.iter().enumerate() {
            let id = id_of(slot);
            match security.legs {
                None => write!(text, "I {id} FUT{slot} O\n"),
                Some((bought, sold)) => write!(
                    text,
                    "I {id} S{slot}-{bought}-{sold} C {} {}\n",
                    id_of(bought),
                    id_of(sold)
                ),
            }?;
        }
        Ok(())
    }

    // Gives the best level of a side.
    fn best(&self, slot: usize, side: usize) -> Option<Level> {
        self.side(slot, side).first().copied()
    }

    // Gives one tick away from the other side.
    fn away(&self, slot: usize, side: usize) -> i64 {
        let tick = self
            .securities
            .get(slot)
            .map_or(1, |security| security.tick);
        if is_bid(side) {
            tick.wrapping_neg()
        } else {
            tick
        }
    }

    /// Makes a step on its side.
    pub fn apply(&mut self, step: &Step) -> Result<(), AllocError> {
        let at = step.slot.wrapping_mul(SIDES).wrapping_add(step.side);
        let Some(levels) = self.sides.get_mut(at) else {
            return Ok(());
        };
        match step.action {
            Action::New => {
                if step.place <= levels.len() {
                    levels.insert(step.place, step.level)?;
                }
            }
            Action::Change => {
                if step.place < levels.len() {
                    levels[step.place] = step.level;
                }
            }
            Action::Delete => {
                if step.place < levels.len() {
                    let _ = levels.remove(step.place);
                }
            }
        }
        Ok(())
    }

    // Gives a step that puts a new level there.
    fn put_new(&self, slot: usize, side: usize, place: usize, level: Level) -> Step {
        Step {
            slot,
            side,
            action: Action::New,
            place,
            level,
            before: NO_LEVEL,
        }
    }

    // Gives a step that puts a level in the place of another.
    fn change(&self, slot: usize, side: usize, place: usize, level: Level) -> Step {
        let before = self
            .side(slot, side)
            .get(place)
            .copied()
            .unwrap_or(NO_LEVEL);
        Step {
            slot,
            side,
            action: Action::Change,
            place,
            level,
            before,
        }
    }

    // Gives a step that takes a level out.
    fn delete(&self, slot: usize, side: usize, place: usize) -> Step {
        let before = self
            .side(slot, side)
            .get(place)
            .copied()
            .unwrap_or(NO_LEVEL);
        Step {
            slot,
            side,
            action: Action::Delete,
            place,
            level: NO_LEVEL,
            before,
        }
    }

    /// Gives a step that puts a new last level on a direct side that has room.
    pub fn append(&self, slot: usize, side: usize, random: &mut Random) -> Step {
        let away = self.away(slot, side);
        let levels = self.side(slot, side);
        let ticks = 1 + random.below(3) as i64;
        let price = match levels.last() {
            Some(last) => last.price.wrapping_add(away.wrapping_mul(ticks)),
            None => self.middle(slot).wrapping_add(away),
        };
        let level = Level {
            price,
            size: size(random),
        };
        self.put_new(slot, side, levels.len(), level)
    }

    // Gives the price between a level of a side and the better one before it, if there is one.
    fn price_before(&self, slot: usize, side: usize, place: usize) -> Option<i64> {
        let away = self.away(slot, side);
        let price = self.side(slot, side).get(place)?.price;
        let limit = match place.checked_sub(1) {
            Some(before) => self.side(slot, side).get(before)?.price,
            None => self.best(slot, 1 - side % 2)?.price,
        };
        let better = price.wrapping_sub(away);
        let is_free = if is_bid(side) {
            better < limit
        } else {
            better > limit
        };
        if is_free { Some(better) } else { None }
    }

    // Gives a step of a direct side, more often near its top than below.
    fn direct_step(&self, slot: usize, random: &mut Random) -> Step {
        let side = random.below(2);
        let levels = self.side(slot, side);
        let count = levels.len();
        if count < LEAST_LEVELS {
            return self.append(slot, side, random);
        }
        let mut place = random.below(count);
        place = random.below(place + 1);
        let kind = random.below(100);
        let is_full = count >= DIRECT_DEPTH;
        if kind < 24 && !is_full {
            if let Some(price) = self.price_before(slot, side, place) {
                let size = size(random);
                return self.put_new(slot, side, place, Level { price, size });
            }
        }
        if kind >= 24 && kind < 38 {
            return self.delete(slot, side, place);
        }
        if kind >= 38 && kind < 48 && !is_full {
            return self.append(slot, side, random);
        }
        let price = levels.get(place).map_or(0, |level| level.price);
        let size = size(random);
        self.change(slot, side, place, Level { price, size })
    }

    // Gives the price that an implied level goes by: what the legs make, or the security's own best price.
    fn implied_price(&self, slot: usize, side: usize) -> i64 {
        let own = self.middle(slot).wrapping_add(self.away(slot, side));
        let legs = self.securities.get(slot).and_then(|security| security.legs);
        let Some((bought, sold)) = legs else {
            return self.best(slot, side % 2).map_or(own, |level| level.price);
        };
        match (self.best(bought, side % 2), self.best(sold, 1 - side % 2)) {
            (Some(bought), Some(sold)) => bought.price.wrapping_sub(sold.price),
            _ => own,
        }
    }

    // Gives a step of an implied side, near what the legs make.
    fn implied_step(&self, slot: usize, random: &mut Random) -> Step {
        let side = 2 + random.below(2);
        let away = self.away(slot, side);
        let levels = self.side(slot, side);
        let mut price = self.implied_price(slot, side);
        if random.happens(300) {
            price = price.wrapping_add(away);
        }
        let level = Level {
            price,
            size: size(random),
        };
        let Some(best) = levels.first() else {
            return self.put_new(slot, side, 0, level);
        };
        match (random.below(10), levels.len()) {
            (0..3, count) => self.delete(slot, side, count - 1),
            (3..5, 1) => {
                let price = best.price.wrapping_add(away);
                let size = level.size;
                self.put_new(slot, side, 1, Level { price, size })
            }
            (_, 1) => self.change(slot, side, 0, level),
            _ => {
                let price = best.price;
                let size = level.size;
                self.change(slot, side, 0, Level { price, size })
            }
        }
    }

    // Gives a step of the book at a slot.
    fn step(&self, slot: usize, random: &mut Random) -> Step {
        let implied = if slot < self.outrights { 100 } else { 600 };
        if random.happens(implied) {
            return self.implied_step(slot, random);
        }
        self.direct_step(slot, random)
    }

    // Chooses a security, one of the first outrights more often than one behind.
    fn choose(&self, random: &mut Random) -> usize {
        let most = random.below(self.outrights.max(1));
        random.below(most + 1)
    }

    // Chooses a spread of a security, if it is a leg of one.
    fn choose_spread(&self, slot: usize, random: &mut Random) -> Option<usize> {
        let spreads = self.spreads_of.get(slot)?;
        if spreads.is_empty() {
            return None;
        }
        spreads.get(random.below(spreads.len().max(1))).copied()
    }

    // Makes an event of one to six steps, of a security and now and then of a spread of it.
    fn event(&mut self, random: &mut Random, heard: &mut Vec<Heard>) -> Result<(), AllocError> {
        let slot = self.choose(random);
        let spread = self.choose_spread(slot, random);
        let most = 1 + random.below(5);
        let count = 1 + random.below(most);
        for place in 0..count {
            let named = match spread {
                Some(spread) if random.happens(300) => spread,
                _ => slot,
            };
            let step = self.step(named, random);
            self.apply(&step)?;
            heard.push(Heard {
                step,
                begins: place == 0,
                ends: place + 1 == count,
            })?;
        }
        Ok(())
    }

    /// Makes so many events, and then takes them back in turn, so that the books are as before.
    pub fn there_and_back(
        &mut self,
        alloc: Global,
        random: &mut Random,
        events: usize,
    ) -> Result<Vec<Heard>, AllocError> {
        let mut heard = Vec::new(alloc);
        for _ in 0..events {
            self.event(random, &mut heard)?;
        }
        let mut back = Vec::with_capacity(alloc, heard.len())?;
        for it in heard.iter().rev() {
            let step = it.step.back();
            self.apply(&step)?;
            back.push(Heard {
                step,
                begins: it.ends,
                ends: it.begins,
            })?;
        }
        heard.extend_from_slice(&back)?;
        Ok(heard)
    }
}

// Gives a size: mostly of one digit or two.
fn size(random: &mut Random) -> i32 {
    let most = match random.below(10) {
        0..5 => 9,
        5..8 => 90,
        _ => 900,
    };
    1 + random.below(most) as i32
}
