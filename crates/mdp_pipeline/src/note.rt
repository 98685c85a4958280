//! What a run tells of the lines of a capture, or of the frames of a recording, while it goes on.

ghost use Rattle.std.specs.Prelude.{◌≡◌, ◌++◌, OnOk};
ghost use Rattle.mdp_pipeline.specs.Notes.{jump_notes, loss_notes, moved_notes};
ghost use Rattle.mdp_receiver.specs.Moved.{one_jump};

use mdp_capture::SkippedLine;
use mdp_receiver::{Jump, Loss, Moved};
use mdp_templates::Feed;
use std::alloc::{AllocError, Allocator};

/// What a run tells of a line of a capture, or of a frame of a recording, which then stands for a line. Lines and
/// frames are counted from 1; each past 4294967295 bears that number.
#[derive(Clone, Copy, Debug, PartialEq, Eq)]
pub enum Note {
    /// The line is skipped.
    Skipped(SkippedLine),
    /// With the record of this line the receiver is lost.
    Lost { line: u32, loss: Loss },
    /// With the record of this line recovery went on at another number.
    Found { line: u32, jump: Jump },
    /// Not all bytes of this frame were captured that its datagram on a feed needs. No feed is said where its group or
    /// port was not captured.
    Cut { frame: u32, feed: Option<Feed> },
    /// This frame is a fragment of a datagram to a feed's group. No feed is said where several have that group.
    Fragment { frame: u32, feed: Option<Feed> },
    /// The lengths of this frame's datagram on a feed contradict one another.
    Broken { frame: u32, feed: Feed },
}

// Notes that the receiver is lost with the record of a line, if it is.
fn note_loss<A: Allocator>(
    notes: &mut Vec<Note, A>,
    line: u32,
    loss: Option<Loss>,
) -> Result<(), AllocError>
    ensures { OnOk result (notes.new.items ≡ notes.old.items ++ loss_notes line loss) }
{
    match loss {
        Some(loss) => notes.push(Note::Lost { line, loss })?,
        None => {}
    }
    Ok(())
}

// Notes the jump that recovery made with the record of a line, if it did.
fn note_jump<A: Allocator>(
    notes: &mut Vec<Note, A>,
    line: u32,
    jump: Option<Jump>,
) -> Result<(), AllocError>
    ensures { OnOk result (notes.new.items
        ≡ notes.old.items ++ jump_notes line (one_jump jump)) }
{
    match jump {
        Some(jump) => notes.push(Note::Found { line, jump })?,
        None => {}
    }
    Ok(())
}

/// Notes what the record of a line moved.
pub fn note_moves<A: Allocator>(
    notes: &mut Vec<Note, A>,
    line: u32,
    moved: Moved,
) -> Result<(), AllocError>
    ensures { OnOk result (notes.new.items ≡ notes.old.items ++ moved_notes line moved) }
{
    note_loss(notes, line, moved.loss)?;
    note_jump(notes, line, moved.jump)
}
