//! A file that is read as it comes, piece by piece.

ghost use Rattle.std.specs.Prelude.{◌≡◌, ◌≤◌, ◌++◌, ◌∷◌, [], List, drop, length, OnOk, IfOk, IfErr, IsOk, IsSome, None};
ghost use Rattle.mdp_pcap.specs.Frame.{captured_content};
ghost use Rattle.mdp_pcap.specs.Block.{frames_of};
ghost use Rattle.mdp_pcap.specs.Reader.{NumberedFrame, Takes, content_of, numbered, IsReadWhole, HasHalted, ending_of, at_first};
ghost use Rattle.mdp_pcap.specs.Stepping.{HasStepped, HasMovedOn, IsStop};
ghost use Rattle.mdp_pcap.specs.Placing.{block_in, IsInside};
ghost use Rattle.mdp_pcap.specs.File.{cut_end, cut_short};

use crate::block::{Block, Front, front_of};
use crate::frame::CapturedFrame;
use crate::layout::{Interface, Layout, PcapFault};
use std::alloc::{AllocError, Allocator};

/// What takes the frames of a file, one after another.
pub trait TakesFrames {
    /// Why it takes no more.
    type Stop: Drop;

    /// What is known of it beside its frames, and no frame changes.
    ghost Beside: { Type 0 };

    /// It has taken these frames, with their numbers, and this is known beside them.
    ghost holds: { Beside → Self → List NumberedFrame → Type 0 };

    /// Takes the next frame.
    ///
    /// # Errors
    ///
    /// Where it takes no more.
    fn take(&mut self, number: u32, frame: CapturedFrame<'_>) -> Result<(), Self::Stop>
        ensures { OnOk result (Takes holds self.old self.new
            (record { number = number; frame = captured_content frame.entry } ∷ [])) };
}

/// Why a piece was not read to its end.
#[derive(Clone, Copy, Debug, PartialEq, Eq)]
pub enum Halt<E> {
    /// Memory ran out.
    Memory,
    /// What takes the frames took no more.
    Stop(E),
}

/// Reads a file that comes in pieces of any size. Between two pieces it holds the bytes of one block that is not whole,
/// and what was said of the interfaces of its section. At the first fault it stops, and reads nothing more.
#[derive(Drop)]
pub struct PcapReader<A: Allocator> {
    layout: Layout,
    interfaces: Vec<Interface, A>,
    held: Vec<u8, A>,
    number: u32,
    fault: Option<PcapFault>,
}

/// What a step did.
#[derive(Clone, Copy)]
pub(crate) enum Advance {
    /// It took so many bytes of the piece.
    On(usize),
    /// No further block is whole, or the reader stopped.
    Done,
}

impl<A: Allocator + Copy> PcapReader<A> {
    /// Makes a reader that stands before a file.
    pub fn new(alloc: A) -> PcapReader<A>
        ensures { content_of result ≡ at_first }
    {
        PcapReader {
            layout: Layout::Start,
            interfaces: Vec::new(alloc),
            held: Vec::new(alloc),
            number: 1,
            fault: None,
        }
    }

    /// Gives the number of the next frame. Frames count from 1; the number 4,294,967,295 is that of all after it too.
    pub fn number(&self) -> u32
        ensures { result ≡ (content_of self.now).number }
    {
        self.number
    }

    /// Gives the fault at which the reader stopped, if it did.
    pub fn fault(&self) -> Option<PcapFault>
        ensures { result ≡ (content_of self.now).fault }
    {
        self.fault
    }

    /// Gives the fault of the file, if its input ends here.
    pub fn ending(&self) -> Option<PcapFault>
        ensures { result ≡ ending_of (content_of self.now) }
    {
        if let Some(fault) = self.fault {
            return Some(fault);
        }
        cut_end(self.layout, self.held.as_slice())
    }

    /// Reads the next piece of the file, and hands on each frame that is whole by now, with its number.
    ///
    /// # Errors
    ///
    /// Where memory ran out, or the frames are taken no more; then the reader is not to be used again. Where memory ran
    /// out, the frames that were handed on are the first of the text.
    pub fn take_piece<S: TakesFrames>(
        &mut self,
        piece: &[u8],
        sink: &mut S,
    ) -> Result<(), Halt<S::Stop>>
        ensures read { (content_of self.old).fault ≡ None → OnOk result (IsReadWhole
            (Takes S.holds sink.old sink.new) (content_of self.old) (content_of self.new)
            ((content_of self.old).held ++ piece.now)) }
        ensures halted { IfErr result (HasHalted (Takes S.holds sink.old sink.new)
            (content_of self.old) ((content_of self.old).held ++ piece.now)) }
        ensures stopped { IsSome (content_of self.old).fault →
            (content_of self.new ≡ content_of self.old) × (sink.new ≡ sink.old) × (IsOk result) }
    {
        if self.fault.is_some() {
            return Ok(());
        }
        self.read_on(piece, sink)?;
        Ok(())
    }

    // Reads a piece where no fault was met.
    fn read_on<S: TakesFrames>(&mut self, piece: &[u8], sink: &mut S) -> Result<(), Halt<S::Stop>>
        requires { self.old.fault ≡ None }
        ensures read { OnOk result (IsReadWhole
            (Takes S.holds sink.old sink.new) (content_of self.old) (content_of self.new)
            (self.old.held.items ++ piece.now)) }
        ensures halted { IfErr result (HasHalted (Takes S.holds sink.old sink.new)
            (content_of self.old) (self.old.held.items ++ piece.now)) }
    {
        let mut from = 0;
        loop {
            match self.step(&piece[from..], sink)? {
                Advance::On(count) => from += count,
                Advance::Done => return Ok(()),
            }
        }
    }

    // Reads one block more, or takes in what it lacks.
    fn step<S: TakesFrames>(&mut self, rest: &[u8], sink: &mut S) -> Result<Advance, Halt<S::Stop>>
        requires { self.old.fault ≡ None }
        ensures stepped { IfOk result (HasStepped (Takes S.holds sink.old sink.new)
            (content_of self.old) (content_of self.new) rest.now) }
        ensures halted { IfErr result (HasHalted (Takes S.holds sink.old sink.new)
            (content_of self.old) (self.old.held.items ++ rest.now)) }
    {
        if self.held.is_empty() {
            let step = self.step_in_piece(rest, sink)?;
            return Ok(step);
        }
        let step = self.step_in_held(rest, sink)?;
        Ok(step)
    }

    // A step where nothing is held.
    fn step_in_piece<S: TakesFrames>(
        &mut self,
        rest: &[u8],
        sink: &mut S,
    ) -> Result<Advance, Halt<S::Stop>>
        requires going { self.old.fault ≡ None }
        requires empty { self.old.held.items ≡ [] }
        ensures stepped { IfOk result (HasStepped (Takes S.holds sink.old sink.new)
            (content_of self.old) (content_of self.new) rest.now) }
        ensures halted { IfErr result (HasHalted (Takes S.holds sink.old sink.new)
            (content_of self.old) (self.old.held.items ++ rest.now)) }
    {
        match front_of(self.layout, self.interfaces.as_slice(), rest) {
            Front::Unfinished(_) => {
                let Ok(()) = self.held.extend_from_slice(rest) else {
                    return Err(Halt::Memory);
                };
                Ok(Advance::Done)
            }
            Front::Faulty(fault) => {
                self.fault = Some(fault);
                Ok(Advance::Done)
            }
            Front::Whole(count, block) => {
                hand_on(self.number, block, &rest[..count], sink)?;
                let Ok(()) = self.move_on(block) else {
                    return Err(Halt::Memory);
                };
                Ok(Advance::On(count))
            }
        }
    }

    // A step where the beginning of a block is held: it takes of the piece what the block needs and no more.
    fn step_in_held<S: TakesFrames>(
        &mut self,
        rest: &[u8],
        sink: &mut S,
    ) -> Result<Advance, Halt<S::Stop>>
        requires { self.old.fault ≡ None }
        ensures stepped { IfOk result (HasStepped (Takes S.holds sink.old sink.new)
            (content_of self.old) (content_of self.new) rest.now) }
        ensures halted { IfErr result (HasHalted (Takes S.holds sink.old sink.new)
            (content_of self.old) (self.old.held.items ++ rest.now)) }
    {
        match front_of(
            self.layout,
            self.interfaces.as_slice(),
            self.held.as_slice(),
        ) {
            Front::Unfinished(needed) => {
                if rest.is_empty() {
                    return Ok(Advance::Done);
                }
                let count = (needed - self.held.len()).min(rest.len());
                let Ok(()) = self.held.extend_from_slice(&rest[..count]) else {
                    return Err(Halt::Memory);
                };
                Ok(Advance::On(count))
            }
            Front::Faulty(fault) => {
                self.fault = Some(fault);
                self.held.clear();
                Ok(Advance::Done)
            }
            Front::Whole(count, block) => {
                hand_on(self.number, block, &self.held[..count], sink)?;
                drop_front(&mut self.held, count);
                let Ok(()) = self.move_on(block) else {
                    return Err(Halt::Memory);
                };
                Ok(Advance::On(0))
            }
        }
    }

    // Takes note of what a block says of those behind it.
    fn move_on(&mut self, block: Block) -> Result<(), AllocError>
        ensures { OnOk result (HasMovedOn block (content_of self.old) (content_of self.new)) }
    {
        match block {
            Block::FileHeader(order, interface) => {
                self.layout = Layout::Records(order);
                self.interfaces.clear();
                self.interfaces.push(interface)?;
                Ok(())
            }
            Block::SectionHeader(order) => {
                self.layout = Layout::Blocks(order);
                self.interfaces.clear();
                Ok(())
            }
            Block::InterfaceDescription(interface) => {
                self.interfaces.push(interface)?;
                Ok(())
            }
            Block::Packet(_) => {
                self.number = self.number.saturating_add(1);
                Ok(())
            }
            Block::Skipped => Ok(()),
        }
    }
}

// Gives the fault of a file whose input ends within a block, or behind the last one.
fn cut_end(layout: Layout, held: &[u8]) -> Option<PcapFault>
    ensures { result ≡ cut_end layout held.now }
{
    match layout {
        Layout::Start => {
            if held.len() < 4 {
                return Some(PcapFault::NotPcap);
            }
            Some(PcapFault::CutShort)
        }
        Layout::Records(_) => cut_short(held),
        Layout::Blocks(_) => cut_short(held),
    }
}

fn cut_short(held: &[u8]) -> Option<PcapFault>
    ensures { result ≡ cut_short held.now }
{
    if held.is_empty() {
        return None;
    }
    Some(PcapFault::CutShort)
}

// Hands on the frame of a block, if it has one, with its number.
fn hand_on<S: TakesFrames>(
    number: u32,
    block: Block,
    bytes: &[u8],
    sink: &mut S,
) -> Result<(), Halt<S::Stop>>
    requires { IsInside bytes.now block }
    ensures taken { OnOk result (Takes S.holds sink.old sink.new
        (numbered number (frames_of (block_in bytes.now block)))) }
    ensures halted { IfErr result IsStop }
{
    match block {
        Block::Packet(packet) => {
            let end = packet.start + packet.captured;
            let frame = CapturedFrame {
                link: packet.link,
                bytes: &bytes[packet.start..end],
                original: packet.original,
            };
            match sink.take(number, frame) {
                Ok(()) => Ok(()),
                Err(stop) => Err(Halt::Stop(stop)),
            }
        }
        Block::FileHeader(_, _) => Ok(()),
        Block::SectionHeader(_) => Ok(()),
        Block::InterfaceDescription(_) => Ok(()),
        Block::Skipped => Ok(()),
    }
}

// Takes so many bytes off the front.
fn drop_front<A: Allocator>(bytes: &mut Vec<u8, A>, count: usize)
    requires { count ≤ length bytes.old.items }
    ensures { bytes.new.items ≡ drop count bytes.old.items }
{
    let left = bytes.len() - count;
    bytes.copy_within(count.., 0);
    bytes.truncate(left);
}
