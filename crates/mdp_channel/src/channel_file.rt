//! A channel file, read line by line.

ghost use Rattle.std.specs.Prelude.{◌≡◌, Ok, Err, None, IfErr, IfOk};
ghost use Rattle.mdp_capture.specs.Line.{line_of};
ghost use Rattle.mdp_capture.specs.Listed.{instrument_said};
ghost use Rattle.mdp_channel.specs.Channel.{IsAnswer, IsFaultOf, no_channel, whole, with_line};
ghost use Rattle.mdp_channel.specs.Channel.{line_refusal, refusal_in};
ghost use Rattle.mdp_channel.specs.ChannelFile.{channel_in};
ghost use Rattle.mdp_channel.specs.ChannelLine.{Address, channel_line, is_passed_over, said_line};

use crate::address::address_of;
use crate::fault::{ChannelFault, LineRefusal};
use crate::lines::Lines;
use mdp_capture::{InstrumentList, ListedLine};
use mdp_pcap::{FeedAddress, FeedAddresses};
use std::alloc::{AllocError, Allocator};

/// The instruments of a channel, and the addresses of its feeds, as a text says them.
#[derive(Drop)]
pub struct ChannelFile<A: Allocator> {
    /// The instruments, in the order of their lines.
    pub instruments: InstrumentList<A>,
    /// The addresses, that of the last line first.
    pub addresses: FeedAddresses<A>,
}

/// Reads a channel file: `I` lines as a capture has them, and a line `F FEED GROUP PORT` for each address of a feed.
/// Empty lines and lines that begin with `#` are passed over.
///
/// # Errors
///
/// `Line` at the first line that is refused. Else `NoInstrument` or `NoAddress` where no line says one, asked in this
/// order. `Memory` where memory ran out, which says nothing of the text.
pub fn read_channel<A: Allocator + Copy>(
    alloc: A,
    text: &[u8],
) -> Result<ChannelFile<A>, ChannelFault>
    ensures channel { IfOk result (λ file. IsAnswer text.now (Ok (channel_in file))) }
    ensures fault { IfErr result (IsFaultOf text.now) }
{
    let mut file = ChannelFile::new(alloc);
    let mut before = 0u64;
    for line in Lines::new(text) {
        let number = before + 1;
        match file.take_line(line)? {
            Some(refusal) => return Err(ChannelFault::Line {
                line: number,
                refusal,
            }),
            None => {}
        }
        before = number;
    }
    file.complete()
}

impl<A: Allocator + Copy> ChannelFile<A> {
    // Makes the channel of no line.
    fn new(alloc: A) -> ChannelFile<A>
        ensures { channel_in result ≡ no_channel }
    {
        ChannelFile {
            instruments: InstrumentList::new(alloc),
            addresses: FeedAddresses::new(alloc),
        }
    }

    // Takes what a line says behind the others, or tells why not.
    fn take_line(&mut self, line: &[u8]) -> Result<Option<LineRefusal>, AllocError>
        ensures answer { IfOk result (λ refusal.
            refusal ≡ line_refusal (channel_in self.old) (channel_line line.now)) }
        ensures taken { IfOk result (λ refusal. refusal ≡ None
            → channel_in self.new ≡ with_line (channel_in self.old) (channel_line line.now)) }
    {
        if is_passed_over(line) {
            return Ok(None);
        }
        match address_of(line) {
            Some(address) => self.add_address(address),
            None => self.list_instrument(line),
        }
    }

    // Adds an address, or tells why not.
    #[tactic(auto, using(crate::proofs::Addresses::found_by))]
    fn add_address(&mut self, address: FeedAddress) -> Result<Option<LineRefusal>, AllocError>
        ensures answer { IfOk result (λ refusal.
            refusal ≡ line_refusal (channel_in self.old) (Address address)) }
        ensures taken { IfOk result (λ refusal. refusal ≡ None
            → channel_in self.new ≡ with_line (channel_in self.old) (Address address)) }
    {
        let held = self.addresses.feed_at(address.group, address.port);
        if held.is_some() {
            return Ok(Some(LineRefusal::AddressTwice));
        }
        self.addresses.add(address)?;
        Ok(None)
    }

    // Lists the instrument that a line says, or tells why not.
    fn list_instrument(&mut self, line: &[u8]) -> Result<Option<LineRefusal>, AllocError>
        ensures answer { IfOk result (λ refusal. refusal ≡ line_refusal (channel_in self.old)
            (said_line None (instrument_said (line_of line.now)))) }
        ensures taken { IfOk result (λ refusal. refusal ≡ None
            → channel_in self.new ≡ with_line (channel_in self.old)
            (said_line None (instrument_said (line_of line.now)))) }
    {
        let answer = self.instruments.take_line(line)?;
        Ok(refusal_in(answer))
    }

    // Gives the channel, if it has an instrument and an address.
    fn complete(self) -> Result<ChannelFile<A>, ChannelFault>
        ensures channel { IfOk result (λ file. whole (channel_in self) ≡ Ok (channel_in file)) }
        ensures fault { IfErr result (λ fault. whole (channel_in self) ≡ Err fault) }
    {
        if self.instruments.as_slice().is_empty() {
            return Err(ChannelFault::NoInstrument);
        }
        if self.addresses.is_empty() {
            return Err(ChannelFault::NoAddress);
        }
        Ok(self)
    }
}

// Returns whether a line is empty or a comment.
fn is_passed_over(line: &[u8]) -> bool
    ensures { result ≡ is_passed_over line.now }
{
    match line {
        [] => true,
        [b'#', ..] => true,
        _ => false,
    }
}

// Returns why a line's instrument isn't listed, by what was answered to it.
fn refusal_in(answer: ListedLine) -> Option<LineRefusal>
    ensures { result ≡ refusal_in answer }
{
    match answer {
        ListedLine::Listed => None,
        ListedLine::Refused(refusal) => Some(LineRefusal::Listing(refusal)),
        ListedLine::NoSuchLine => Some(LineRefusal::Form),
    }
}
