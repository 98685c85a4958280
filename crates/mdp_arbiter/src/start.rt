//! How a receiver starts on a channel.

ghost use Rattle.std.specs.Prelude.{◌≡◌};
ghost use Rattle.mdp_arbiter.specs.Machine.{joined_from};

/// Which packet a receiver takes for the channel's first.
#[derive(Clone, Copy, Debug, PartialEq, Eq)]
pub enum Start {
    /// The packet of number 1.
    FromOne,
    /// The channel is under way: no packet passes before a first jump.
    Join,
}

impl Start {
    /// Returns whether packets pass before a first jump.
    pub(crate) fn has_joined(self) -> bool
        ensures { result ≡ joined_from self }
    {
        match self {
            Start::FromOne => true,
            Start::Join => false,
        }
    }
}
