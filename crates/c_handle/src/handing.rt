//! What is handed out of a session, to the caller's room.

ghost use Rattle.std.specs.Prelude.{◌≡◌, not, pos};
ghost use Rattle.c_session.specs.Answer.{is_done_answer};
ghost use Rattle.c_handle.specs.Calls.{CalledSo, HandsOutBy};
ghost use Rattle.c_handle.specs.Handle.{HoldsNoSession};

use crate::handle::Handle;
use crate::taking::{NO_SESSION, give_back};
use c_session::{Answer, FileSession};
use std::alloc::Global;

/// There is no session: nothing is handed out, and nothing waits.
pub fn no_session(written: &mut usize, waits: &mut usize) -> i32
    ensures code { result ≡ pos 2001 }
    ensures written { written.new ≡ 0 }
    ensures waits { waits.new ≡ 0 }
{
    *written = 0;
    *waits = 0;
    NO_SESSION
}

/// Whether nothing is to be handed out, where all of it is wanted or none: unless it is done.
pub fn silent_unless_done(answer: Answer) -> bool
    ensures { result ≡ not (is_done_answer answer) }
{
    !answer.is_done()
}

/// Hands out of what waits, unless nothing is to be handed out, and puts the session back.
pub fn hand_out(
    alloc: Global,
    handle: &mut Handle,
    mut session: Box<FileSession>,
    answer: Answer,
    silent: bool,
    room: &mut [u8],
    written: &mut usize,
    waits: &mut usize,
) -> i32
    requires { HoldsNoSession handle.old }
    ensures { CalledSo handle.new result (λ given old new. (given ≡ answer)
        × HandsOutBy silent old new room.old written.new waits.new room.new) session.value }
{
    *written = 0;
    if !silent {
        *written = session.take(room);
    }
    *waits = session.waits();
    give_back(alloc, handle, session, answer)
}
