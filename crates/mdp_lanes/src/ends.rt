//! Items that may be the last of their sender.

ghost use Rattle.std.specs.Prelude.{◌≡◌, Bool};

/// An item of an intake, which may be the last that its sender puts.
pub trait Ends: Drop {
    /// Whether it is the last item of its sender.
    ghost is_end: { Self → Bool };

    /// Returns whether it is the last item of its sender.
    fn is_end(&self) -> bool
        ensures { result ≡ is_end self.now };
}
