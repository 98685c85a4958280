//! What is told on standard error. A write that fails there is passed over, and no line takes memory.

ghost use Rattle.std.specs.Prelude.{◌≡◌, ◌≤◌, ◌++◌, ◌∷◌, length, codes, decimal};
ghost use Rattle.mdp_capture.specs.Faults.{place_text};
ghost use Rattle.mdp_handler.specs.Faults.{Tells, channel_line, end_line, feed_mark, input_line, memory_line, note_line, note_lines, output_line, pcap_line, place_at, place_word, refused_line, skipped_at, skipped_line, skipped_lines, stale_line, unread_line};

use mdp_books::TextFromEnd;
use mdp_capture::{CaptureRefusal, SkippedLine};
use mdp_channel::ChannelFault;
use mdp_pcap::PcapFault;
use mdp_pipeline::{EndNote, Note};
use mdp_print::{CountedWrite, write_all_counted};
use mdp_templates::{Feed, Instrument};

// A line that is told, put together from its end.
type Told = TextFromEnd<96>;

/// What has a number where something is told of it.
#[derive(Clone, Copy, Debug, PartialEq, Eq)]
pub enum Place {
    /// A line of a capture.
    Line,
    /// A frame of a recording.
    Frame,
    /// A line of a channel file.
    ChannelLine,
}

impl Place {
    // Lends the words before the number.
    fn word(self) -> &'static str
        ensures word { result.now ≡ place_word self }
        ensures size { length result.now ≤ 14 }
    {
        match self {
            Place::Line => "line ",
            Place::Frame => "frame ",
            Place::ChannelLine => "channel line ",
        }
    }
}

/// Tells a text, or a beginning of it where a write fails. Once as many writes failed as can be counted, nothing more
/// is told.
pub fn tell<F: CountedWrite>(faults: &mut F, text: &[u8])
    ensures { Tells F.failed F.taken faults.old faults.new text.now }
{
    if faults.failures() < u64::MAX {
        let _ = write_all_counted(faults, text);
    }
}

/// Tells that memory ran out.
pub fn tell_memory<F: CountedWrite>(faults: &mut F)
    ensures { Tells F.failed F.taken faults.old faults.new memory_line }
{
    tell(faults, b"41 Memory\n");
}

/// Tells that a write failed after this many bytes went out.
#[tactic(auto, unfolding(crate::specs::Faults::output_line))]
pub fn tell_output<F: CountedWrite>(faults: &mut F, written: u64)
    ensures { Tells F.failed F.taken faults.old faults.new (output_line written) }
{
    let mut text = Told::new();
    text.put_bytes(b" bytes\n");
    text.put_number(written);
    text.put_bytes(b"42 Output after ");
    tell(faults, text.as_slice());
}

/// Tells that a read failed.
pub fn tell_input<F: CountedWrite>(faults: &mut F)
    ensures { Tells F.failed F.taken faults.old faults.new input_line }
{
    tell(faults, b"43 Input\n");
}

// Gives the number and the name of a fault, and the line feed after them.
fn fault_text(number: u8, name: &str) -> Told
    requires { length name.now ≤ 14 }
    ensures text { result ≡ decimal number ++ codes " " ++ name.now ++ codes "\n" }
    ensures size { length result ≤ 36 }
{
    let mut text = Told::new();
    text.put_byte(b'\n');
    text.put_bytes(name.as_bytes());
    text.put_byte(b' ');
    text.put_number(u64::from(number));
    text
}

// Puts a place in front of what is told of it.
fn put_place(text: &mut Told, place: Place, number: u64)
    requires { length text.old ≤ 60 }
    ensures { text.new ≡ place_at place number ++ text.old }
{
    text.put_bytes(b": ");
    text.put_number(number);
    text.put_bytes(place.word().as_bytes());
}

/// Tells why a capture is refused, with the line where it is, unless that is line 0.
#[tactic(auto, using(crate::proofs::Names::refusal_name_short), unfolding(mdp_capture::specs::Faults::refusal_text))]
pub fn tell_refused<F: CountedWrite>(faults: &mut F, line: u32, refusal: CaptureRefusal)
    ensures { Tells F.failed F.taken faults.old faults.new (refused_line line refusal) }
{
    let mut text = fault_text(refusal.number(), refusal.name());
    if line != 0 {
        put_place(&mut text, Place::Line, u64::from(line));
    }
    tell(faults, text.as_slice());
}

/// Tells why a channel file is refused: at which line, or of the whole.
pub fn tell_channel<F: CountedWrite>(faults: &mut F, fault: ChannelFault)
    ensures { Tells F.failed F.taken faults.old faults.new (channel_line fault) }
{
    let mut text = fault_text(fault.number(), fault.name());
    match fault {
        ChannelFault::Line { line, .. } => put_place(&mut text, Place::ChannelLine, line),
        ChannelFault::NoInstrument => text.put_bytes(b"channel: "),
        ChannelFault::NoAddress => text.put_bytes(b"channel: "),
        ChannelFault::Memory => {}
    }
    tell(faults, text.as_slice());
}

/// Tells that the file of a channel can't be opened or read.
pub fn tell_unread<F: CountedWrite>(faults: &mut F)
    ensures { Tells F.failed F.taken faults.old faults.new unread_line }
{
    tell(faults, b"channel: 64 ChannelRead\n");
}

/// Tells the fault of a recording, with the number that its next frame would have, unless it is no recording.
pub fn tell_pcap<F: CountedWrite>(faults: &mut F, number: u32, fault: PcapFault)
    ensures { Tells F.failed F.taken faults.old faults.new (pcap_line number fault) }
{
    let mut text = fault_text(fault.number(), fault.name());
    if fault != PcapFault::NotPcap {
        put_place(&mut text, Place::Frame, u64::from(number));
    }
    tell(faults, text.as_slice());
}

// Tells what was skipped at a place.
#[tactic(auto, using(crate::proofs::Names::skip_name_short), unfolding(crate::specs::Faults::skipped_at))]
fn tell_skipped_at<F: CountedWrite>(faults: &mut F, place: Place, skipped: &SkippedLine)
    ensures { Tells F.failed F.taken faults.old faults.new (skipped_at place skipped.now) }
{
    let mut text = fault_text(skipped.skip.number(), skipped.skip.name());
    put_place(&mut text, place, u64::from(skipped.line));
    tell(faults, text.as_slice());
}

// Gives two numbers behind the number and the name of a note, and the line feed after them.
fn numbers_text(name: &str, first: u64, second: u64) -> Told
    requires { length name.now ≤ 14 }
    ensures text { result ≡ name.now ++ codes " " ++ decimal first ++ codes " "
        ++ decimal second ++ codes "\n" }
    ensures size { length result ≤ 57 }
{
    let mut text = Told::new();
    text.put_byte(b'\n');
    text.put_number(second);
    text.put_byte(b' ');
    text.put_number(first);
    text.put_byte(b' ');
    text.put_bytes(name.as_bytes());
    text
}

// Gives the letter of a feed, or a dash where it isn't known.
fn feed_mark(feed: Option<Feed>) -> u8
    ensures { result ≡ feed_mark feed }
{
    match feed {
        Some(feed) => feed.letter(),
        None => b'-',
    }
}

// Tells of a frame whose datagram is lost in the recording.
fn tell_frame<F: CountedWrite>(
    faults: &mut F,
    place: Place,
    frame: u32,
    name: &str,
    feed: Option<Feed>,
)
    requires { length name.now ≤ 14 }
    ensures { Tells F.failed F.taken faults.old faults.new
        (place_at place frame ++ name.now ++ codes " " ++ feed_mark feed ∷ codes "\n") }
{
    let mut text = Told::new();
    text.put_byte(b'\n');
    text.put_byte(feed_mark(feed));
    text.put_byte(b' ');
    text.put_bytes(name.as_bytes());
    put_place(&mut text, place, u64::from(frame));
    tell(faults, text.as_slice());
}

// Tells what is told of a line or of a frame.
#[tactic(auto, unfolding(crate::specs::Faults::lost_line, crate::specs::Faults::found_line))]
fn tell_note<F: CountedWrite>(faults: &mut F, place: Place, note: &Note)
    ensures { Tells F.failed F.taken faults.old faults.new (note_line place note.now) }
{
    match *note {
        Note::Skipped(skipped) => tell_skipped_at(faults, place, &skipped),
        Note::Lost { line, loss } => {
            let mut text = numbers_text("51 Lost", loss.next, loss.highest);
            put_place(&mut text, place, u64::from(line));
            tell(faults, text.as_slice());
        }
        Note::Found { line, jump } => {
            let mut text = numbers_text("52 Found", jump.old, jump.new);
            put_place(&mut text, place, u64::from(line));
            tell(faults, text.as_slice());
        }
        Note::Cut { frame, feed } => tell_frame(faults, place, frame, "55 FrameCut", feed),
        Note::Fragment { frame, feed } => tell_frame(faults, place, frame, "56 Fragment", feed),
        Note::Broken { frame, feed } => {
            tell_frame(faults, place, frame, "57 FrameBroken", Some(feed));
        }
    }
}

/// Tells what is told of the lines of a capture or the frames of a recording as they come, each note on a line of its
/// own.
#[tactic(auto, using(crate::proofs::Telling::tells_nothing))]
pub fn tell_notes<F: CountedWrite>(faults: &mut F, place: Place, notes: &[Note])
    ensures { Tells F.failed F.taken faults.old faults.new (note_lines place notes.now) }
{
    for note in notes {
        tell_note(faults, place, note);
    }
}

// Gives the note of a security of which a snapshot is missing.
fn stale_text(id: u32, name: &str) -> Told
    requires { length name.now ≤ 20 }
    ensures { result ≡ codes "54 NoSnapshot " ++ decimal id ++ codes " " ++ name.now
        ++ codes "\n" }
{
    let mut text = Told::new();
    text.put_byte(b'\n');
    text.put_bytes(name.as_bytes());
    text.put_byte(b' ');
    text.put_number(u64::from(id));
    text.put_bytes(b"54 NoSnapshot ");
    text
}

// Tells the security of which a snapshot is missing.
#[tactic(auto, unfolding(crate::specs::Faults::stale_line))]
fn tell_stale<F: CountedWrite>(faults: &mut F, instrument: &Instrument)
    ensures { Tells F.failed F.taken faults.old faults.new (stale_line instrument.now) }
{
    let text = stale_text(instrument.id.unsigned_abs(), instrument.name.as_str());
    tell(faults, text.as_slice());
}

/// Tells what keeps a run from going on where its capture ends, if anything does.
#[tactic(auto, unfolding(crate::specs::Faults::waits_line), using(crate::proofs::Telling::tells_nothing))]
pub fn tell_end<F: CountedWrite>(faults: &mut F, note: &Option<EndNote>)
    ensures { Tells F.failed F.taken faults.old faults.new (end_line note.now) }
{
    match note {
        Some(EndNote::Waits { next, held }) => {
            let text = numbers_text("53 Waits", *next, *held);
            tell(faults, text.as_slice());
        }
        Some(EndNote::NoSnapshot(instrument)) => tell_stale(faults, instrument),
        None => {}
    }
}

/// Tells each line that was skipped, on a line of its own.
#[tactic(auto, using(crate::proofs::Telling::tells_nothing))]
pub fn tell_skipped<F: CountedWrite>(faults: &mut F, lines: &[SkippedLine])
    ensures { Tells F.failed F.taken faults.old faults.new (skipped_lines lines.now) }
{
    for line in lines {
        tell_skipped_at(faults, Place::Line, line);
    }
}
