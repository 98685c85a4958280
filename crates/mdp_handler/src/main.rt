//! `mdp_handler`: reads a capture or a recording of one CME MDP 3.0 channel from standard input, and prints its books.
#![tactic(auto)]

mod channel;
#[cfg(test)]
mod doubles;
#[cfg(test)]
mod failed_writes;
mod faults;
mod files;
mod live;
#[cfg(test)]
mod live_tests;
mod program;
mod recording;
#[cfg(test)]
mod recording_tests;
#[cfg(test)]
mod refused_allocations;
mod settings;
#[cfg(test)]
mod tests;

ghost use Rattle.std.specs.Prelude.{◌≡◌, IfOk, map, string_bytes};

use files::SystemFiles;
use mdp_capture::CountingReader;
use mdp_print::Counting;
use program::{FAILED, REFUSED, Streams, program};
use std::alloc::{AllocError, Global};
use std::process::ExitCode;
use std::{env, io};

// What to tell of a command line that is no text.
const NO_TEXT: &[u8] = b"error: a word of the command line is not UTF-8\n";

/// Runs the program over the real standard input, output and error.
fn main(rt: HostRuntime) -> ExitCode {
    let alloc = rt.alloc();
    let mut streams = Streams {
        input: CountingReader::new(rt.reader()),
        output: Counting::new(io::writer(&rt)),
        faults: Counting::new(rt.stderr()),
    };
    let texts = match env::args(&rt) {
        Ok(texts) => texts,
        Err(error) if error.kind() == io::ErrorKind::InvalidData => {
            faults::tell(&mut streams.faults, NO_TEXT);
            return ExitCode::from(REFUSED);
        }
        Err(_) => {
            faults::tell_memory(&mut streams.faults);
            return ExitCode::from(FAILED);
        }
    };
    let collected: Result<Vec<String>, AllocError> = texts.collect(alloc);
    let Ok(texts) = collected else {
        faults::tell_memory(&mut streams.faults);
        return ExitCode::from(FAILED);
    };
    let Ok(words) = words_of(alloc, &texts) else {
        faults::tell_memory(&mut streams.faults);
        return ExitCode::from(FAILED);
    };
    let files = SystemFiles::new(&rt);
    let status = program(&rt, &files, alloc, alloc, &words, &mut streams);
    ExitCode::from(status)
}

// Gives the words as borrowed texts.
fn words_of<'a>(alloc: Global, texts: &'a [String]) -> Result<Vec<&'a str>, AllocError>
    ensures { IfOk result (λ words. map (λ word. word.now) words.items
        ≡ map string_bytes texts.now) }
{
    let mut words = Vec::with_capacity(alloc, texts.len())?;
    for text in texts {
        words.push(text.as_str())?;
    }
    Ok(words)
}
