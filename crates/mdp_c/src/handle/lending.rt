//! The session of a handle, lent. What these clauses cite stands on the struct, so that they have a file of their own.

ghost use Rattle.std.specs.Prelude.{◌≡◌, Some, is_some, IsSome};
ghost use Rattle.std.specs.Borrow.{sem};
ghost use Rattle.mdp_c.specs.Lending.{regains};

use super::Handle;
use mdp_session::Session;

impl Handle {
    /// Returns whether it is open.
    pub(crate) fn is_open(&mut self) -> bool
        ensures { (self.new ≡ self.old) × (result ≡ is_some self.old.held) }
    {
        !self.address.is_null()
    }

    /// Lends the session, which there is: the handle is open.
    pub(crate) fn session(&mut self) -> &mut Session
        requires { IsSome self.old.held }
        ensures* regained { sem 𝓛 (regains self.entry result) }
        ensures session { Some result.now ≡ self.old.held }
    {
        unsafe { &mut *(self.address as *mut Session) }
    }
}
