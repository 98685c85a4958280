//! The instruments of a channel, listed one by one or line by line.

ghost use Rattle.std.specs.Prelude.{◌≡◌, ◌<◌, [], OnOk, OnErr, IfOk, None, length};
ghost use Rattle.std.specs.List.{list_any};
ghost use Rattle.std.specs.Ordering.{int_eq};
ghost use Rattle.std.specs.Str.{bytes_eq};
ghost use Rattle.mdp_capture.specs.Capture.{has_legs, is_listed, refusal_after};
ghost use Rattle.mdp_capture.specs.Line.{line_of};
ghost use Rattle.mdp_capture.specs.Listed.{answer_after, instrument_said, listed_after, listed_after_line};
ghost use Rattle.mdp_templates.specs.Instrument.{AreFit, HasDepth};

use crate::fault::CaptureRefusal;
use crate::line::instrument_on;
use mdp_templates::{Instrument, MOST_INSTRUMENTS, has_legs};
use std::alloc::{AllocError, Allocator};
use std::marker::Model;

/// What became of a line of text.
#[derive(Clone, Copy, Debug, PartialEq, Eq)]
pub enum ListedLine {
    /// Its instrument is listed, behind those before it.
    Listed,
    /// Its instrument is refused, for one of the reasons 31 to 33.
    Refused(CaptureRefusal),
    /// It is no line of an instrument.
    NoSuchLine,
}

/// The instruments of a channel, at most 512, seen as a list in the order in which they were listed. Each fits after
/// those before it: its id and its name are none of theirs, by what `add` and `take_line` take, and a calendar spread's
/// legs are two outrights among them.
#[derive(Drop)]
pub struct InstrumentList<A: Allocator> {
    instruments: Vec<Instrument, A>,
}

impl<A: Allocator> Model for InstrumentList<A> {
    ghost use Rattle.std.specs.Prelude.{List};
    ghost use Rattle.mdp_capture.specs.FitSoFar.{AreFitSoFar};
    ghost use Rattle.mdp_templates.specs.declared.instrument.Instrument.{Instrument};

    ghost Value = { List Instrument };

    ghost view = { λ l. l.instruments.items };

    ghost invariant = { λ l. AreFitSoFar l.instruments.items };
}

impl<A: Allocator> InstrumentList<A> {
    /// Makes a list of no instrument, which takes no memory.
    pub fn new(alloc: A) -> InstrumentList<A>
        ensures { result ≡ [] }
    {
        InstrumentList {
            instruments: Vec::new(alloc),
        }
    }

    /// Lends the instruments, in the order in which they were listed.
    pub fn as_slice(&self) -> &[Instrument]
        ensures items { result.now ≡ self.now }
        ensures fit { 0 < length self.now → AreFit self.now }
    {
        self.instruments.as_slice()
    }

    /// Gives the instruments, in the order in which they were listed.
    pub fn into_vec(self) -> Vec<Instrument, A>
        ensures items { result.items ≡ self }
        ensures fit { 0 < length self → AreFit self }
    {
        self.instruments
    }

    /// Lists an instrument behind the others, or tells why it is refused (31 to 33): the first reason that holds.
    ///
    /// # Errors
    ///
    /// Memory ran out for an instrument that isn't refused; the list is as it was.
    pub fn add(&mut self, instrument: Instrument) -> Result<Option<CaptureRefusal>, AllocError>
        requires { HasDepth instrument }
        ensures answer { IfOk result (λ refusal. refusal ≡ refusal_after self.old instrument) }
        ensures list { OnOk result (self.new ≡ listed_after self.old instrument) }
        ensures memory { OnErr result (self.new ≡ self.old) }
        ensures wanted { OnErr result (refusal_after self.old instrument ≡ None) }
    {
        let refusal = self.refusal_of(&instrument);
        if refusal.is_some() {
            return Ok(refusal);
        }
        self.instruments.push(instrument)?;
        Ok(None)
    }

    /// Takes a line of text, without its line feed and the carriage return before it: lists the instrument that it
    /// says, unless that is refused. A line of another form changes nothing, and isn't decoded.
    ///
    /// # Errors
    ///
    /// Memory ran out for an instrument that would be listed; the list is as it was.
    pub fn take_line(&mut self, text: &[u8]) -> Result<ListedLine, AllocError>
        ensures answer { IfOk result (λ answer.
            answer ≡ answer_after self.old (instrument_said (line_of text.now))) }
        ensures list { OnOk result (self.new
            ≡ listed_after_line self.old (instrument_said (line_of text.now))) }
        ensures memory { OnErr result (self.new ≡ self.old) }
        ensures wanted { OnErr result
            (answer_after self.old (instrument_said (line_of text.now)) ≡ ListedLine.Listed) }
    {
        match instrument_on(text) {
            Some(instrument) => match self.add(instrument)? {
                None => Ok(ListedLine::Listed),
                Some(refusal) => Ok(ListedLine::Refused(refusal)),
            },
            None => Ok(ListedLine::NoSuchLine),
        }
    }

    // Returns why an instrument is refused, if it is; the first reason that holds.
    fn refusal_of(&self, instrument: &Instrument) -> Option<CaptureRefusal>
        ensures { result ≡ refusal_after self.now instrument.now }
    {
        if self.instruments.len() >= MOST_INSTRUMENTS {
            Some(CaptureRefusal::TooMany)
        } else if is_listed(self.instruments.as_slice(), instrument) {
            Some(CaptureRefusal::DuplicateId)
        } else if !self.has_its_legs(instrument) {
            Some(CaptureRefusal::UnknownLeg)
        } else {
            None
        }
    }

    // Returns whether the legs are listed that an instrument asks for.
    fn has_its_legs(&self, instrument: &Instrument) -> bool
        ensures { result ≡ has_legs self.now instrument.now.kind }
    {
        has_legs(self.instruments.as_slice(), instrument.kind)
    }
}

// Returns whether an instrument with this one's id or name is listed.
fn is_listed(instruments: &[Instrument], instrument: &Instrument) -> bool
    ensures { result ≡ is_listed instruments.now instrument.now }
{
    has_id(instruments, instrument.id) || has_name(instruments, instrument.name.as_str())
}

// Returns whether an instrument with this id is listed.
fn has_id(instruments: &[Instrument], id: i32) -> bool
    ensures { result ≡ list_any (λ other. int_eq other.id id) instruments.now }
{
    instruments.iter().any(|other| other.id == id)
}

// Returns whether an instrument with this name is listed.
fn has_name(instruments: &[Instrument], name: &str) -> bool
    ensures { result ≡ list_any (λ other. bytes_eq other.name name.now) instruments.now }
{
    instruments.iter().any(|other| other.name.as_str() == name)
}
