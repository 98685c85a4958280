//! What C holds of a session.

ghost use Rattle.std.specs.Prelude.{◌≡◌, Option, None, Some};
ghost use Rattle.std.specs.Option.{option_map};
ghost use Rattle.std.specs.Coded.{coded_option};
ghost use Rattle.mdp_engine.specs.Engine.{View, view_code};
ghost use Rattle.mdp_c.specs.Handle.{owns_session};

mod lending;

use mdp_boxes::LooseBox;
use mdp_session::Session;
use std::alloc::Global;
use std::marker::Model;
use std::{mem, ptr};

/// A session on the heap, by its address: open, or closed, which is null. C has it as a struct of one pointer, all zero
/// at first, so that it is closed.
///
/// C passes its address in each call, lets no two calls with it overlap, and doesn't copy it: of two copies each would
/// own the session. An open handle that is let go loses its session; `mdp_free` frees it.
#[repr(C)]
#[derive(Drop)]
pub struct Handle {
    address: *mut u8,
    pub ghost held: { Option View } by { coded_option view_code },
}

impl Model for Handle {
    ghost also_owns = { λ h. owns_session h.address h.held };
}

// Another thread may take it over, as it may take over a session, and any thread may free what the heap gave.
unsafe impl Send for Handle {}

impl Handle {
    /// Makes a handle that is closed.
    pub(crate) fn closed() -> Handle
        ensures { result.held ≡ None }
    {
        Handle {
            address: ptr::null_mut(),
        }
    }

    /// Makes a handle of a session.
    pub(crate) fn from_loose_box(session: LooseBox<Session, Global>) -> Handle
        ensures { result.held ≡ Some session.value }
    {
        let LooseBox { address, alloc: _ } = session;
        Handle {
            address: address as *mut u8,
        }
    }

    /// Gives the session, if it is open.
    pub(crate) fn into_loose_box(self, alloc: Global) -> Option<LooseBox<Session, Global>>
        ensures { self.held ≡ option_map (λ l. l.value) result }
    {
        let Handle { address } = self;
        if address.is_null() {
            return None;
        }
        Some(LooseBox {
            address: address as *mut Session,
            alloc,
        })
    }

    /// Takes the session out, if it is open, and leaves it closed.
    pub(crate) fn take_out(&mut self, alloc: Global) -> Option<Box<Session, Global>>
        ensures session { self.old.held ≡ option_map (λ b. b.value) result }
        ensures none { self.new.held ≡ None }
    {
        match mem::replace(self, Handle::closed()).into_loose_box(alloc) {
            Some(loose) => Some(loose.into_box()),
            None => None,
        }
    }

    /// Opens it with a session. It is closed before, since a session that it owns would be lost.
    pub(crate) fn fill(&mut self, session: Box<Session, Global>)
        requires { self.old.held ≡ None }
        ensures { self.new.held ≡ Some session.value }
    {
        *self = Handle::from_loose_box(LooseBox::from_box(session));
    }
}
