//! Readers whose bytes and failures a contract can name.

ghost use Rattle.std.specs.Prelude.{◌≡◌, ℕ, ◌+◌, ◌-◌, ◌<◌, ◌≤◌, ◌^◌, List, Option, length, MatchResult, IfOk, IsErr};
ghost use Rattle.std.specs.Io.KnownBytes.{ReadConsumes};
ghost use Rattle.mdp_capture.specs.CountedRead.{reader_of, failures_of, reads_left};

use std::io;
use std::io::Read;

/// A reader that tells how often a read failed and, where it can, the bytes that it still has. It makes at most
/// 2^64 - 1 reads.
pub trait CountedRead {
    /// The bytes that are left, where the reader tells them.
    ghost rest: { Self → Option (List ℕ) };

    /// How many reads failed.
    ghost failed: { Self → ℕ };

    /// How many reads are left.
    ghost left: { Self → ℕ };

    /// Reads some bytes into the front of `buf` and answers their number: 0 only at the end, or where `buf` is
    /// empty. An error, also an interruption, is a failure, and with no read left the read fails.
    fn read(&mut self, buf: &mut [u8]) -> io::Result<usize>
        requires { failed self.old < 2 ^ 64 - 1 }
        ensures count { IfOk result (λ n. n ≤ length buf.new) }
        ensures bytes { ReadConsumes (rest self.old) (rest self.new) result buf.new }
        ensures failed { MatchResult result (λ _. failed self.new ≡ failed self.old)
            (λ _. failed self.new ≡ failed self.old + 1) }
        ensures bounded { left self.old < 2 ^ 64 }
        ensures left { left self.new ≡ left self.old - 1 }
        ensures none_left { left self.old ≡ 0 → IsErr result };

    /// Returns how many reads failed.
    fn failures(&self) -> u64
        ensures { result ≡ failed self.now };
}

/// Any reader of the standard library, with its failures counted.
#[derive(Drop)]
pub struct CountingReader<R: Read + Drop> {
    inner: R,
    failures: u64,
    left: u64,
}

impl<R: Read + Drop> CountingReader<R> {
    /// Makes a reader of what `inner` reads, with no failure yet and 2^64 - 1 reads left.
    pub fn new(inner: R) -> CountingReader<R>
        ensures reader { reader_of result ≡ inner }
        ensures failures { failures_of result ≡ 0 }
        ensures left { reads_left result ≡ 2 ^ 64 - 1 }
    {
        CountingReader {
            inner,
            failures: 0,
            left: u64::MAX,
        }
    }
}

impl<R: Read + Drop> CountedRead for CountingReader<R> {
    ghost rest = { λ r. R.remaining (reader_of r) };

    ghost failed = { λ r. failures_of r };

    ghost left = { λ r. reads_left r };

    fn read(&mut self, buf: &mut [u8]) -> io::Result<usize> {
        if self.left == 0 {
            self.failures += 1;
            return Err(io::Error::from(io::ErrorKind::Other));
        }
        self.left -= 1;
        let outcome = self.inner.read(buf);
        if outcome.is_err() {
            self.failures += 1;
        }
        outcome
    }

    fn failures(&self) -> u64 {
        self.failures
    }
}
