//! The handle of C: a pointer to a session.

ghost use Rattle.std.specs.Prelude.{◌≡◌, Option, Some, None, MatchOption};
ghost use Rattle.wm_c.specs.declared.session.Session.{Session as ASession};

use crate::loose::Loose;
use crate::session::Session;
use std::alloc::Global;
use std::marker::Model;

/// `wmod_validator` of the header: null, or a session on the heap.
#[repr(C)]
pub struct Handle {
    at: *mut u8,
    pub ghost held: { Option ASession },
}

impl Model for Handle {
    ghost use Rattle.wm_c.specs.Handles.{freed_by_heap, handle_owns};
    ghost use Rattle.wm_c.specs.contracts.session.Session.{the_row};

    ghost also_owns = { λ h. handle_owns freed_by_heap the_row h.at h.held };
}

impl Handle {
    /// Returns the null handle.
    pub(crate) fn empty() -> Handle
        ensures { result.held ≡ None }
    {
        Handle {
            at: std::ptr::null_mut(),
        }
    }

    /// Returns the handle of a session.
    pub(crate) fn of(l: Loose<Session, Global>) -> Handle
        ensures { result.held ≡ Some l.value }
    {
        let Loose { at, alloc: _ } = l;
        Handle { at: at as *mut u8 }
    }

    /// Returns the session of the handle, or `None` if the handle is null.
    pub(crate) fn take(self, alloc: Global) -> Option<Loose<Session, Global>>
        ensures { MatchOption result (self.held ≡ None) (λ l. self.held ≡ Some l.value) }
    {
        let Handle { at } = self;
        if at.is_null() {
            None
        } else {
            Some(Loose {
                at: at as *mut Session,
                alloc,
            })
        }
    }
}
