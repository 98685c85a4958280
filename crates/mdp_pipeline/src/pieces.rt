//! Text that goes out in pieces.

ghost use Rattle.std.specs.Prelude.{◌≡◌, ◌<◌, ◌^◌, ◌-◌, ◌++◌, ℕ, List, length, IfErr, OnOk};
ghost use Rattle.std.specs.List.{flat_map};
ghost use Rattle.mdp_crew.specs.Faults.{FailsBy, written_before};
ghost use Rattle.mdp_pipeline.specs.RefusalTexts.{word_text};
ghost use Rattle.mdp_pipeline.specs.Sending.{SendsFront};

use crate::refused_lines::RefusalWord;
use mdp_crew::{RunFault, hand_on, out_of_memory};
use mdp_print::{CountedWrite, put_refusal};
use std::alloc::Allocator;

/// How many bytes of text are gathered before they are written.
pub const PIECE: usize = 1 << 16;

// Writes the text that is held where it is a piece, and lets it go.
fn hand_on_piece<W: CountedWrite, A: Allocator>(
    writer: &mut W,
    held: &mut Vec<u8, A>,
    since: u64,
) -> Result<(), RunFault>
    requires { W.failed writer.old < 2 ^ 64 - 1 }
    ensures sends { OnOk result (SendsFront held.old.items
        (W.taken writer.old) (W.taken writer.new) held.new.items) }
    ensures begins { IfErr result (λ _. (rest : List ℕ) × SendsFront held.old.items
        (W.taken writer.old) (W.taken writer.new) rest) }
    ensures told { IfErr result (λ fault.
        written_before fault ≡ length (W.taken writer.new) - since) }
    ensures failed { FailsBy result (W.failed writer.old) (W.failed writer.new) }
{
    if held.len() < PIECE {
        return Ok(());
    }
    hand_on(writer, held.as_slice(), since)?;
    held.clear();
    Ok(())
}

// Appends the line of a refused datagram to the text that is held, and writes that where it is a piece.
fn write_word<W: CountedWrite, A: Allocator>(
    writer: &mut W,
    held: &mut Vec<u8, A>,
    word: &RefusalWord,
    since: u64,
) -> Result<(), RunFault>
    requires { W.failed writer.old < 2 ^ 64 - 1 }
    ensures sends { OnOk result (SendsFront (held.old.items ++ word_text word.now)
        (W.taken writer.old) (W.taken writer.new) held.new.items) }
    ensures begins { IfErr result (λ _. (rest : List ℕ)
        × SendsFront (held.old.items ++ word_text word.now)
        (W.taken writer.old) (W.taken writer.new) rest) }
    ensures told { IfErr result (λ fault.
        written_before fault ≡ length (W.taken writer.new) - since) }
    ensures failed { FailsBy result (W.failed writer.old) (W.failed writer.new) }
{
    let Ok(()) = put_refusal(held, word.feed, word.line, word.refusal) else {
        return Err(out_of_memory(writer, since));
    };
    hand_on_piece(writer, held, since)
}

/// Appends the lines of refused datagrams to a text that is held, which goes out piece by piece: what is less than a
/// piece stays held. The writer had taken `since` bytes before the run.
///
/// # Errors
///
/// `Output` where a write failed, else `Memory`. A beginning of the text went out.
pub fn write_words<W: CountedWrite, A: Allocator>(
    writer: &mut W,
    held: &mut Vec<u8, A>,
    words: &[RefusalWord],
    since: u64,
) -> Result<(), RunFault>
    requires { W.failed writer.old < 2 ^ 64 - 1 }
    ensures sends { OnOk result (SendsFront (held.old.items ++ flat_map word_text words.now)
        (W.taken writer.old) (W.taken writer.new) held.new.items) }
    ensures begins { IfErr result (λ _. (rest : List ℕ)
        × SendsFront (held.old.items ++ flat_map word_text words.now)
        (W.taken writer.old) (W.taken writer.new) rest) }
    ensures told { IfErr result (λ fault.
        written_before fault ≡ length (W.taken writer.new) - since) }
    ensures failed { FailsBy result (W.failed writer.old) (W.failed writer.new) }
{
    for word in words {
        write_word(writer, held, word, since)?;
    }
    Ok(())
}
