//! What a handle holds: nothing, or a session in a box.

ghost use Rattle.std.specs.Prelude.{◌≡◌, Option, None, Some, IsSome};
ghost use Rattle.c_session.specs.declared.file_session.FileSession.{FileSession};
ghost use Rattle.c_handle.specs.Held.{held_coded, held_owns};

use crate::parts::Parts;
use c_session::FileSession;
use std::alloc::Global;
use std::marker::Model;

/// Nothing, or a session in a box, as one pointer. A contract sees the session.
#[repr(C)]
#[derive(Drop)]
pub struct Held {
    ptr: *mut (),
    alloc: Global,
    pub ghost home: { Option FileSession } by { held_coded },
}

impl Model for Held {
    ghost also_owns = { λ h. held_owns h.alloc h.ptr h.home };
}

// Nothing of what is held belongs to a thread: proofs/held/Held/TheSendSync shows it.
unsafe impl Send for Held {}

impl Held {
    /// Nothing.
    pub(crate) fn none(alloc: Global) -> Held
        ensures { result.home ≡ None }
    {
        Held {
            ptr: std::ptr::null_mut(),
            alloc,
        }
    }

    /// This session.
    pub(crate) fn of(session: Box<FileSession>) -> Held
        ensures { result.home ≡ Some session.value }
    {
        Held::of_parts(Parts::of(session))
    }

    /// The session that it holds.
    pub(crate) fn into_box(self) -> Box<FileSession>
        requires { IsSome self.home }
        ensures { self.home ≡ Some result.value }
    {
        self.into_parts().into_box()
    }

    fn of_parts(parts: Parts<FileSession, Global>) -> Held
        ensures { result.home ≡ Some parts.value }
    {
        let Parts { ptr, alloc } = parts;
        let ptr = ptr as *mut ();
        Held { ptr, alloc }
    }

    fn into_parts(self) -> Parts<FileSession, Global>
        requires { IsSome self.home }
        ensures { self.home ≡ Some result.value }
    {
        let Held { ptr, alloc } = self;
        let ptr = ptr as *mut FileSession;
        Parts { ptr, alloc }
    }
}
