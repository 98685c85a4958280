//! A writer that takes a text in pieces.

ghost use Rattle.std.specs.Prelude.{◌≡◌};

use std::alloc::Global;
use std::io::ErrorKind;
use worked_runs::{Failure, Kept};

/// A writer that takes 50 bytes a call at most, and fails at one call, or with 0 at none.
pub fn slow_writer(alloc: Global, fail_at: u64) -> Kept
    ensures { result.failures ≡ 0 }
{
    Kept::slow(alloc, 50, fail_at, Failure::Error(ErrorKind::Other))
}
