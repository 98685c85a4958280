//! What stands for files and streams in tests.

ghost use Rattle.std.specs.Prelude.{◌≡◌, ◌<◌, ◌-◌, ◌^◌};
ghost use Rattle.mdp_capture.specs.CountedRead.{failures_of};

use crate::files::{FileFault, ReadsFiles};
use crate::program::{Streams, program};
use mdp_capture::{CountedRead, CountingReader};
use std::alloc::{Allocator, Global};
use std::io;
use std::io::{ErrorKind, Read};
use std::process::Abort;
use std::sync::Wait;
use std::thread::Threads;
use worked_runs::Kept;

/// No file can be read.
#[derive(Clone, Copy)]
pub struct NoFiles;

impl ReadsFiles for NoFiles {
    ghost IsText = { λ files name text. Unit {0} };

    ghost IsUnread = { λ files name. Unit {0} };

    fn read<A: Allocator>(&self, _alloc: A, _name: &str) -> Result<Vec<u8, A>, FileFault> {
        Err(FileFault::Unread)
    }
}

/// There is one file, with this text.
#[derive(Clone, Copy)]
pub struct OneFile<'a> {
    pub name: &'a str,
    pub text: &'a [u8],
}

impl<'a> ReadsFiles for OneFile<'a> {
    ghost IsText = { λ file name text. Unit {0} };

    ghost IsUnread = { λ file name. Unit {0} };

    fn read<A: Allocator>(&self, alloc: A, name: &str) -> Result<Vec<u8, A>, FileFault> {
        if name != self.name {
            return Err(FileFault::Unread);
        }
        match Vec::from_slice(alloc, self.text) {
            Ok(text) => Ok(text),
            Err(_) => Err(FileFault::Memory),
        }
    }
}

/// Gives at most so many bytes a call, and fails at one call, from 1; at 0 at none.
#[derive(Drop)]
pub struct Pieces<'a> {
    rest: &'a [u8],
    most: usize,
    calls: u64,
    fail_at: u64,
}

impl<'a> Pieces<'a> {
    /// Gives this text in pieces of this size.
    pub fn of(text: &'a [u8], most: usize, fail_at: u64) -> Pieces<'a> {
        Pieces {
            rest: text,
            most,
            calls: 0,
            fail_at,
        }
    }
}

impl<'a> Read for Pieces<'a> {
    fn read(&mut self, buf: &mut [u8]) -> io::Result<usize> {
        self.calls = self.calls.saturating_add(1);
        if self.calls == self.fail_at {
            return Err(io::Error::from(ErrorKind::Other));
        }
        let count = self.rest.len().min(self.most).min(buf.len());
        buf[..count].copy_from_slice(&self.rest[..count]);
        self.rest = &self.rest[count..];
        Ok(count)
    }
}

// Makes the streams of a run from this reader to this writer, and keeps what it tells.
fn streams_over<I: Read + Drop>(
    alloc: Global,
    reader: I,
    output: Kept,
) -> Streams<CountingReader<I>, Kept, Kept>
    ensures input { failures_of result.input ≡ 0 }
    ensures output { result.output ≡ output }
{
    Streams {
        input: CountingReader::new(reader),
        output,
        faults: Kept::new(alloc),
    }
}

/// What a run came to.
#[derive(Drop)]
pub struct Ended {
    pub status: u8,
    /// What was printed.
    pub output: Kept,
    /// What was told of faults.
    pub faults: Kept,
    /// How many reads failed.
    pub failed_reads: u64,
}

impl Ended {
    /// Sees that a run came to this status, that this was printed, and that this was told.
    pub fn sees(&self, rt: &impl Abort, status: u8, text: &[u8], told: &[u8]) {
        assert_eq!(rt; self.status, status);
        assert_eq!(rt; self.output.bytes.as_slice(), text);
        assert_eq!(rt; self.faults.bytes.as_slice(), told);
    }
}

/// Runs the program from this reader to this writer. No test calls it otherwise: what it ensures is
/// then no part of what their proofs have to go through.
pub fn run_program<R, L, I, A>(
    rt: &R,
    files: &L,
    alloc: Global,
    heap: A,
    words: &[&str],
    reader: I,
    output: Kept,
) -> Ended
where
    R: Threads + Wait + Sync,
    L: ReadsFiles,
    I: Read + Drop,
    A: Allocator + Copy + Send + Sync,
    requires { output.failures < 2 ^ 64 - 1 }
{
    let mut streams = streams_over(alloc, reader, output);
    let status = program(rt, files, alloc, heap, words, &mut streams);
    let failed_reads = streams.input.failures();
    let Streams { output, faults, .. } = streams;
    Ended {
        status,
        output,
        faults,
        failed_reads,
    }
}
