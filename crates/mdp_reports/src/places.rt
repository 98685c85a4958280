//! The parts of reports.

use mdp_books::EventEnd;
use mdp_quotes::{Best, TopOfBook};

/// A security that is printed at an event end: its slot, where its lines stand among the bytes (from `from` on and
/// before `to`), its best levels, and the top of its consolidated book; of a faulty book there is neither.
#[derive(Clone, Copy)]
pub struct ToldAt {
    pub slot: u16,
    pub from: usize,
    pub to: usize,
    pub best: Option<Best>,
    pub top: Option<TopOfBook>,
}

/// A moment: an event end, with the place of its rows among all rows (from `from` on and before `to`), or a jump.
#[derive(Clone, Copy)]
pub enum ReportAt {
    Event {
        end: EventEnd,
        from: usize,
        to: usize,
    },
    Jump {
        old: u64,
        new: u64,
    },
}

/// What is told of a security that is printed at an event end.
#[derive(Clone, Copy)]
pub struct Line<'a> {
    /// Its slot among all listed securities, from 0.
    pub slot: u16,
    /// The lines of its book, as they are printed.
    pub lines: &'a [u8],
    /// Its best levels; none of a faulty book.
    pub best: Option<Best>,
    /// The top of its consolidated book; none of a faulty book.
    pub top: Option<TopOfBook>,
}

/// The moment that a report is of.
#[derive(Clone, Copy)]
pub enum Heading {
    /// An event ends.
    Event(EventEnd),
    /// Recovery jumps from packet number `old` to `new`.
    Jump { old: u64, new: u64 },
}
