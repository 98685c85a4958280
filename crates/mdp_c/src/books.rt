//! The calls that read a security's book.

ghost use Rattle.std.specs.Prelude.{◌≡◌, is_some, length, slice_get, unwrap_or};
ghost use Rattle.mdp_c.specs.Books.{best_at, best_of, best_told, current_at, fault_at, fault_told, flag, levels_at, levels_count, levels_copied, levels_status, level_or_none, slot_status};

use crate::handle::Handle;
use crate::levels::{Level, TellsLevel, book_of, copy_side, side_of};
use crate::status::{CLOSED, DONE, OUT_OF_RANGE};
use mdp_books::{Book, Place};
use mdp_quotes::{TopOfBook, Total};
use mdp_session::Session;

/// The best level of each consolidated side of a book, 48 bytes.
#[repr(C)]
#[derive(Clone, Copy, Debug, PartialEq, Eq)]
pub struct Best {
    /// The highest bid, with the sum of the sizes there; 0 and 0 where there is none.
    pub bid: Level,
    /// The lowest offer, with the sum of the sizes there; 0 and 0 where there is none.
    pub offer: Level,
    /// 1 where there is a bid, else 0.
    pub has_bid: u32,
    /// 1 where there is an offer, else 0.
    pub has_offer: u32,
    /// 1 where the book is faulty, and has neither, else 0.
    pub is_faulty: u32,
    /// Nothing yet: 0.
    pub reserved: u32,
}

/// Whether a book is faulty, and where it became so, 24 bytes: the place of the first entry whose position was
/// impossible, each number from 1. All are 0 where the book is good.
#[repr(C)]
#[derive(Clone, Copy, Debug, PartialEq, Eq)]
pub struct BookFault {
    /// The message in the packet.
    pub message: u64,
    /// The number of the packet.
    pub packet: u32,
    /// The entry in the message.
    pub entry: u32,
    /// 1 where the book is faulty, else 0.
    pub is_faulty: u32,
    /// Nothing yet: 0.
    pub reserved: u32,
}

/// Reports whether the book at a slot is the complete feed's right before the packet that comes next: no packet is
/// given up, and the security's snapshot includes none that is still to come.
///
/// Answers 0; 81; or 83, where no security is listed at the slot. Only at 0 is `current` written.
#[unsafe(no_mangle)]
pub extern "C" fn mdp_is_current(handle: &mut Handle, slot: u32, current: &mut bool) -> u32
    ensures status { result ≡ slot_status handle.old.held slot }
    ensures stays { handle.new.held ≡ handle.old.held }
    ensures current { current.new ≡ unwrap_or (current_at handle.old.held slot) current.old }
{
    if !handle.is_open() {
        return CLOSED;
    }
    let session = handle.session();
    if !has_slot(session, slot) {
        return OUT_OF_RANGE;
    }
    *current = session.is_current(slot as usize);
    DONE
}

/// Reports the best level of each consolidated side of the book at a slot.
///
/// Answers 0; 81; or 83, where no security is listed at the slot. Only at 0 is `best` written.
#[unsafe(no_mangle)]
pub extern "C" fn mdp_best(handle: &mut Handle, slot: u32, best: &mut Best) -> u32
    ensures status { result ≡ slot_status handle.old.held slot }
    ensures stays { handle.new.held ≡ handle.old.held }
    ensures best { best.new ≡ unwrap_or (best_at handle.old.held slot) best.old }
{
    if !handle.is_open() {
        return CLOSED;
    }
    let session = handle.session();
    if !has_slot(session, slot) {
        return OUT_OF_RANGE;
    }
    *best = best_told(session.best(slot as usize));
    DONE
}

/// Reports whether the book at a slot is faulty, and where it became so.
///
/// Answers 0; 81; or 83, where no security is listed at the slot. Only at 0 is `fault` written.
#[unsafe(no_mangle)]
pub extern "C" fn mdp_fault(handle: &mut Handle, slot: u32, fault: &mut BookFault) -> u32
    ensures status { result ≡ slot_status handle.old.held slot }
    ensures stays { handle.new.held ≡ handle.old.held }
    ensures fault { fault.new ≡ unwrap_or (fault_at handle.old.held slot) fault.old }
{
    if !handle.is_open() {
        return CLOSED;
    }
    let Some(book) = handle.session().book(slot as usize) else {
        return OUT_OF_RANGE;
    };
    *fault = fault_told(book);
    DONE
}

/// Copies the levels of a side of a book at a slot, the best first, and returns how many there are: of the direct book
/// 0, the implied one 1 or the consolidated one 2, and of its bids 0 or its offers 1. A faulty book has none.
///
/// Answers 0; 81; 83 where no security is listed at the slot, or a number names no book or no side; or 84 where
/// `levels` has no room for all. At 84 nothing but `count` is written, and at 81 and 83 not even that.
#[unsafe(no_mangle)]
pub extern "C" fn mdp_levels(
    handle: &mut Handle,
    slot: u32,
    book: u32,
    side: u32,
    levels: &mut [Level],
    count: &mut u64,
) -> u32
    ensures status { result ≡ levels_status handle.old.held
        (levels_at handle.old.held slot book side) (length levels.old) }
    ensures stays { handle.new.held ≡ handle.old.held }
    ensures levels { levels.new
        ≡ levels_copied (levels_at handle.old.held slot book side) levels.old }
    ensures count { count.new ≡ levels_count (levels_at handle.old.held slot book side) count.old }
{
    if !handle.is_open() {
        return CLOSED;
    }
    let Some(which) = book_of(book) else {
        return OUT_OF_RANGE;
    };
    let Some(side) = side_of(side) else {
        return OUT_OF_RANGE;
    };
    let Some(book) = handle.session().book(slot as usize) else {
        return OUT_OF_RANGE;
    };
    copy_side(book, which, side, levels, count)
}

// Returns whether a security is listed at a slot.
fn has_slot(session: &Session, slot: u32) -> bool
    ensures { result ≡ is_some (slice_get session.now.desks slot) }
{
    session.book(slot as usize).is_some()
}

// Returns the best levels of a good book, or that the book is faulty.
fn best_told(top: Option<TopOfBook>) -> Best
    ensures { result ≡ best_told top }
{
    match top {
        Some(top) => best_of(top),
        None => Best {
            bid: NO_LEVEL,
            offer: NO_LEVEL,
            has_bid: 0,
            has_offer: 0,
            is_faulty: 1,
            reserved: 0,
        },
    }
}

// Returns the best levels of a good book.
fn best_of(top: TopOfBook) -> Best
    ensures { result ≡ best_of top }
{
    Best {
        bid: level_or_none(top.bid),
        offer: level_or_none(top.offer),
        has_bid: u32::from(top.bid.is_some()),
        has_offer: u32::from(top.offer.is_some()),
        is_faulty: 0,
        reserved: 0,
    }
}

/// Where there is no level.
const NO_LEVEL: Level = Level { price: 0, size: 0 };

// Returns a total as a level, if there is one.
fn level_or_none(total: Option<Total>) -> Level
    ensures { result ≡ level_or_none total }
{
    match total {
        Some(total) => total.level(),
        None => NO_LEVEL,
    }
}

// Returns the place of a fault, if there is one.
fn fault_told(book: &Book) -> BookFault
    ensures { result ≡ fault_told book.now }
{
    match book {
        Book::Good(_) => BookFault {
            message: 0,
            packet: 0,
            entry: 0,
            is_faulty: 0,
            reserved: 0,
        },
        Book::Fault(place) => place_told(*place),
    }
}

// Returns the place of a fault.
fn place_told(place: Place) -> BookFault
    ensures { result ≡ fault_told (Book.Fault place) }
{
    BookFault {
        message: place.message,
        packet: place.packet,
        entry: u32::from(place.entry),
        is_faulty: 1,
        reserved: 0,
    }
}
