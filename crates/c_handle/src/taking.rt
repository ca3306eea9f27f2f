//! Taking the session out of a handle, and putting it back.

ghost use Rattle.std.specs.Prelude.{◌≡◌, pos};
ghost use Rattle.c_session.specs.FileSession.{answer_code, reason_kept};
ghost use Rattle.c_handle.specs.Handle.{HoldsSession, HoldsNoSession, TakesSession};

use crate::handle::Handle;
use crate::held::Held;
use c_session::{Answer, FileSession};
use std::alloc::Global;
use std::mem;

/// The code where a handle holds no session.
pub const NO_SESSION: i32 = 2001;

impl Handle {
    /// The session, where it holds one. It holds none then.
    pub fn take(&mut self) -> Option<Box<FileSession>>
        ensures { TakesSession self.old result self.new }
    {
        if !self.live {
            return None;
        }
        let empty = Handle {
            held: Held::none(self.alloc),
            live: false,
            alloc: self.alloc,
        };
        let Handle { held, .. } = mem::replace(self, empty);
        Some(held.into_box())
    }

    /// The handle holds this session. It held none before.
    pub fn put(&mut self, alloc: Global, session: Box<FileSession>)
        requires { HoldsNoSession self.old }
        ensures { HoldsSession self.new session.value }
    {
        *self = Handle {
            held: Held::of(session),
            live: true,
            alloc,
        };
    }
}

/// Puts the session back into the handle, and answers the code of what it answered.
pub fn give_back(
    alloc: Global,
    handle: &mut Handle,
    session: Box<FileSession>,
    answer: Answer,
) -> i32
    requires { HoldsNoSession handle.old }
    ensures holds { HoldsSession handle.new session.value }
    ensures code { result ≡ pos (answer_code answer (reason_kept session.value.kept)) }
{
    let code = session.code(answer) as i32;
    handle.put(alloc, session);
    code
}
