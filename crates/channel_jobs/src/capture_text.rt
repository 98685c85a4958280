//! The text of a capture, made piece by piece while it is read: the lines of the instruments, the packets that open the
//! books, and sessions whose numbers and sizes are other ones each time.

use crate::channel::Channel;
use crate::datagram::{Datagram, Sized, resized};
use mdp_templates::Feed;
use std::alloc::{AllocError, Global};
use std::io;

const DIGITS: [u8; 16] = *b"0123456789abcdef";

/// The two digits of each byte.
type Pairs = [[u8; 2]; 256];

/// A number that stands in a text, by the place of the first of its eight digits.
#[derive(Clone, Copy)]
struct Numbered {
    at: usize,
    number: u32,
}

/// The lines of datagrams, and where their numbers and sizes stand.
#[derive(Drop)]
struct Lines {
    text: Vec<u8>,
    numbers: Vec<Numbered>,
    sizes: Vec<Sized>,
}

// Gives the two digits of a byte.
fn digits_of(byte: u8) -> [u8; 2] {
    [DIGITS[(byte / 16) as usize], DIGITS[(byte % 16) as usize]]
}

// Gives the two digits of each byte.
fn all_pairs() -> Pairs {
    let mut pairs = [[0u8; 2]; 256];
    for (n, pair) in pairs.iter_mut().enumerate() {
        *pair = digits_of((n % 256) as u8);
    }
    pairs
}

// Puts the digits of the two low bytes of a number in the place of others, if they are there.
#[inline]
fn put_low(text: &mut [u8], at: usize, pairs: &Pairs, number: u32) {
    if let Some(rest) = text.get_mut(at..) {
        if let Some(place) = rest.first_chunk_mut::<4>() {
            let low = pairs[(number % 256) as usize];
            let high = pairs[(number / 256 % 256) as usize];
            *place = [low[0], low[1], high[0], high[1]];
        }
    }
}

impl Lines {
    fn new(alloc: Global) -> Lines {
        Lines {
            text: Vec::new(alloc),
            numbers: Vec::new(alloc),
            sizes: Vec::new(alloc),
        }
    }

    // Appends the line of a datagram on a feed.
    fn put(&mut self, feed: Feed, datagram: &Datagram, is_cut: bool) -> Result<(), AllocError> {
        self.text.push(feed.letter())?;
        self.text.push(b' ')?;
        let start = self.text.len();
        let shorter = if is_cut { 3 } else { 0 };
        let count = datagram.bytes.len().saturating_sub(shorter);
        for byte in datagram.bytes.iter().take(count) {
            self.text.extend_from_slice(&digits_of(*byte))?;
        }
        self.text.push(b'\n')?;
        let place = |at: usize| start.saturating_add(at.saturating_mul(2));
        self.numbers.push(Numbered {
            at: place(datagram.number_at),
            number: datagram.number,
        })?;
        // one size of each datagram is enough to make it another one
        for it in datagram.sizes.iter().take(1) {
            if it.at.saturating_add(2) <= count {
                self.sizes.push(Sized {
                    at: place(it.at),
                    size: it.size,
                })?;
            }
        }
        Ok(())
    }

    // Takes the numbers and sizes of another turn, which begins so many packets later.
    fn renew(&mut self, pairs: &Pairs, turn: u32, later: u32) {
        for it in self.numbers.iter() {
            let number = it.number.wrapping_add(later);
            put_low(&mut self.text, it.at, pairs, number);
            put_low(
                &mut self.text,
                it.at.saturating_add(4),
                pairs,
                number / 65536,
            );
        }
        for it in self.sizes.iter() {
            put_low(
                &mut self.text,
                it.at,
                pairs,
                u32::from(resized(it.size, turn)),
            );
        }
    }
}

/// The text of captures of one channel, each of so many sessions.
#[derive(Drop)]
pub struct CaptureText {
    pairs: Pairs,
    opening: Vec<u8>,
    session: Lines,
    /// How many packets a session has.
    packets: u32,
    /// How many sessions there were in all captures.
    turn: u32,
    /// How many sessions of the capture were begun, and how many are left.
    begun: u32,
    left: u32,
    /// How much was read of what is there now: the opening, or a session.
    at: usize,
}

impl CaptureText {
    /// Makes the text of a channel's captures, of which the first has no session yet.
    pub fn new(alloc: Global, channel: &Channel) -> Result<CaptureText, AllocError> {
        let mut opening = Lines::new(alloc);
        let mut listing = String::new(alloc);
        channel.market.put_lines(&mut listing)?;
        opening.text.extend_from_slice(listing.as_bytes())?;
        for datagram in channel.opening.iter() {
            opening.put(Feed::A, datagram, false)?;
            opening.put(Feed::B, datagram, false)?;
        }
        let mut session = Lines::new(alloc);
        for it in channel.arrivals.iter() {
            let list = match it.feed {
                Feed::A => &channel.packets,
                Feed::B => &channel.packets,
                Feed::S => &channel.snapshots,
            };
            if let Some(datagram) = list.get(it.place) {
                session.put(it.feed, datagram, it.is_cut)?;
            }
        }
        Ok(CaptureText {
            pairs: all_pairs(),
            opening: opening.text,
            session,
            packets: (channel.packets.len() % 1_000_000) as u32,
            turn: 0,
            begun: 0,
            left: 0,
            at: 0,
        })
    }

    /// Begins the next capture, of so many sessions.
    pub fn begin(&mut self, sessions: u32) {
        self.begun = 0;
        self.left = sessions;
        self.at = 0;
    }

    // Lends what is left of what is there now.
    fn rest(&self) -> &[u8] {
        let text = if self.begun == 0 {
            &self.opening
        } else {
            &self.session.text
        };
        text.get(self.at..).unwrap_or(&[])
    }

    // Goes on to the next session.
    fn next_session(&mut self) {
        let later = self.begun.wrapping_mul(self.packets);
        self.turn = self.turn.wrapping_add(1);
        self.session.renew(&self.pairs, self.turn, later);
        self.begun = self.begun.saturating_add(1);
        self.left = self.left.saturating_sub(1);
        self.at = 0;
    }
}

impl io::Read for CaptureText {
    fn read(&mut self, buf: &mut [u8]) -> io::Result<usize> {
        if self.rest().is_empty() && self.left > 0 {
            self.next_session();
        }
        let rest = self.rest();
        let count = rest.len().min(buf.len());
        buf[..count].copy_from_slice(&rest[..count]);
        self.at = self.at.saturating_add(count);
        Ok(count)
    }
}
