//! A writer that fails where a test says.

ghost use Rattle.std.specs.Prelude.{◌≡◌};

use mdp_print::CountedWrite;
use std::alloc::Global;
use std::io;
use std::io::ErrorKind;

/// How a write fails.
#[derive(Clone, Copy)]
pub enum Failure {
    /// By an error of this kind.
    Error(ErrorKind),
    /// By taking no byte.
    NoByte,
}

/// Keeps what it takes, at most so many bytes a call, and fails at one call.
#[derive(Drop)]
pub struct Kept {
    pub bytes: Vec<u8>,
    most: usize,
    pub calls: u64,
    fail_at: u64,
    failure: Failure,
    pub failures: u64,
    error: Option<ErrorKind>,
}

impl Kept {
    /// Takes all bytes of a call, and never fails.
    pub fn new(alloc: Global) -> Kept
        ensures { result.failures ≡ 0 }
    {
        Kept::slow(alloc, usize::MAX, 0, Failure::NoByte)
    }

    /// Takes at most so many bytes of a call, and fails at the call of this number, from 1; at 0 it never does.
    pub fn slow(alloc: Global, most: usize, fail_at: u64, failure: Failure) -> Kept
        ensures { result.failures ≡ 0 }
    {
        Kept {
            bytes: Vec::new(alloc),
            most,
            calls: 0,
            fail_at,
            failure,
            failures: 0,
            error: None,
        }
    }
}

impl CountedWrite for Kept {
    ghost taken = { λ w. w.bytes.items };

    ghost failed = { λ w. w.failures };

    ghost error = { λ w. w.error };

    fn write(&mut self, bytes: &[u8]) -> io::Result<usize> {
        self.calls = self.calls.saturating_add(1);
        let mut count = bytes.len().min(self.most);
        if self.calls == self.fail_at {
            match self.failure {
                Failure::Error(kind) => {
                    self.failures += 1;
                    self.error = Some(kind);
                    return Err(io::Error::from(kind));
                }
                Failure::NoByte => count = 0,
            }
        }
        if self.bytes.extend_from_slice(&bytes[..count]).is_err() {
            self.failures += 1;
            self.error = Some(ErrorKind::Other);
            return Err(io::Error::from(ErrorKind::Other));
        }
        if count == 0 {
            self.failures += 1;
            self.error = None;
        }
        Ok(count)
    }

    fn failures(&self) -> u64 {
        self.failures
    }

    fn written(&self) -> u64 {
        self.bytes.len() as u64
    }
}
