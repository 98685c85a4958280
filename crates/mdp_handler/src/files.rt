//! Files that are read whole.

ghost use Rattle.std.specs.Prelude.{◌≡◌, List, ℕ, Err, IfOk};
ghost use Rattle.mdp_handler.specs.declared.files.FileFault.TheVariants.{Unread};

use std::alloc::Allocator;
use std::io::{ErrorKind, Read};
use std::rt::Files;
use std::{fs, io};

/// Why a file was not read.
#[derive(Clone, Copy, Debug, PartialEq, Eq)]
pub enum FileFault {
    /// Memory ran out.
    Memory,
    /// It can't be opened or read.
    Unread,
}

/// What reads files by their names.
pub trait ReadsFiles {
    /// The file of this name has this text, as far as is known.
    ghost IsText: { Self → List ℕ → List ℕ → Type 0 };

    /// The file of this name can't be opened or read, as far as is known.
    ghost IsUnread: { Self → List ℕ → Type 0 };

    /// Reads the file of this name to its end.
    ///
    /// # Errors
    ///
    /// `Unread` where it can't be opened or read, `Memory` where memory ran out.
    fn read<A: Allocator>(&self, alloc: A, name: &str) -> Result<Vec<u8, A>, FileFault>
        ensures text { IfOk result (λ text. IsText self.now name.now text.items) }
        ensures unread { result ≡ Err Unread → IsUnread self.now name.now };
}

/// The files of the system, of which no clause tells anything.
#[derive(Clone, Copy)]
pub struct SystemFiles<'a, R: Files> {
    rt: &'a R,
}

impl<'a, R: Files> SystemFiles<'a, R> {
    /// Gives the files that this runtime reaches.
    pub fn new(rt: &'a R) -> SystemFiles<'a, R> {
        SystemFiles { rt }
    }
}

impl<'a, R: Files> ReadsFiles for SystemFiles<'a, R> {
    ghost IsText = { λ files name text. Unit {0} };

    ghost IsUnread = { λ files name. Unit {0} };

    fn read<A: Allocator>(&self, alloc: A, name: &str) -> Result<Vec<u8, A>, FileFault> {
        let mut text = Vec::new(alloc);
        match append(self.rt, name, &mut text) {
            Ok(_) => Ok(text),
            Err(error) if error.kind() == ErrorKind::OutOfMemory => Err(FileFault::Memory),
            Err(_) => Err(FileFault::Unread),
        }
    }
}

// Reads a file to its end, behind what a text has already.
fn append<R: Files, A: Allocator>(rt: &R, name: &str, text: &mut Vec<u8, A>) -> io::Result<usize> {
    let mut file = fs::open(rt, name)?;
    file.read_to_end(text)
}
