//! A list of bytes that stands in proofs alone.

ghost use Rattle.std.specs.Prelude.{◌≡◌, ℕ, List, [], ◌++◌, take};
ghost use Rattle.std.specs.Coded.{coded_list, coded_ℕ};
ghost use base.Fml.{ftrue};

use std::marker::Model;

/// The bytes that a writer took. Ghost: it takes no space at run time.
#[derive(Drop)]
pub(crate) struct TakenBytes {
    ghost bytes: { List ℕ } by { coded_list coded_ℕ },
}

impl Model for TakenBytes {
    ghost also_owns = { λ _. ftrue };
}

/// The bytes of a write.
#[derive(Clone, Copy)]
pub(crate) struct Bytes<'a>(pub(crate) &'a [u8]);

impl TakenBytes {
    /// Stands for no bytes.
    pub(crate) fn none() -> TakenBytes
        ensures { result.bytes ≡ [] }
    {
        TakenBytes {}
    }

    /// Stands for these bytes, and then more.
    pub(crate) fn and(&self, _more: &Bytes<'_>) -> TakenBytes
        ensures { result.bytes ≡ self.now.bytes ++ _more.now.0.now }
    {
        TakenBytes {}
    }
}
