//! The calls that go on with a message.

ghost use Rattle.std.specs.Prelude.{◌≡◌, false, not};
ghost use Rattle.c_session.specs.declared.answer.Answer.TheVariants.{Done};
ghost use Rattle.c_session.specs.Answer.{is_callers, is_done_answer};
ghost use Rattle.c_session.specs.FileSession.{KeepsRead};
ghost use Rattle.c_session.specs.FileTree.{file_state};
ghost use Rattle.c_session.specs.Session.{SessionEnds, EndsWith, SessionFeeds};
ghost use Rattle.c_handle.specs.Calls.{CallsSession, CallGoesOn, HandsNothing, HandsOutBy};

use c_handle::{Handle, hand_out, no_session, silent_unless_done};
use c_session::Answer;
use std::alloc::Global;

/// Takes a piece, and hands out of what waits.
#[unsafe(no_mangle)]
pub extern "C" fn esdk_feed(
    alloc: Global,
    handle: &mut Handle,
    piece: &[u8],
    room: &mut [u8],
    written: &mut usize,
    waits: &mut usize,
) -> i32
    ensures feeds { CallsSession handle.old handle.new result (λ answer old new.
        CallGoesOn (λ between. KeepsRead old between answer (λ s t.
        SessionFeeds file_state s t piece.now answer)) (is_callers answer) new room.old written.new
        waits.new
        room.new) }
    ensures closed { handle.old.live ≡ false
        → HandsNothing room.old written.new waits.new room.new }
{
    let Some(mut session) = handle.take() else {
        return no_session(written, waits);
    };
    let answer = session.feed(alloc, piece);
    let silent = answer.is_callers();
    hand_out(alloc, handle, session, answer, silent, room, written, waits)
}

/// Says that no byte follows, and hands out of what waits.
#[unsafe(no_mangle)]
pub extern "C" fn esdk_finish(
    alloc: Global,
    handle: &mut Handle,
    room: &mut [u8],
    written: &mut usize,
    waits: &mut usize,
) -> i32
    ensures ends { CallsSession handle.old handle.new result (λ answer old new.
        CallGoesOn (λ between. KeepsRead old between answer
        (λ s t. SessionEnds file_state s t answer))
        (is_callers answer) new room.old written.new waits.new room.new) }
    ensures closed { handle.old.live ≡ false
        → HandsNothing room.old written.new waits.new room.new }
{
    let Some(mut session) = handle.take() else {
        return no_session(written, waits);
    };
    let answer = session.finish(alloc);
    let silent = answer.is_callers();
    hand_out(alloc, handle, session, answer, silent, room, written, waits)
}

/// Takes the rest of a text or of a message, says that no byte follows, and hands out of what waits
/// where that is done; else nothing.
#[unsafe(no_mangle)]
pub extern "C" fn esdk_whole(
    alloc: Global,
    handle: &mut Handle,
    rest: &[u8],
    room: &mut [u8],
    written: &mut usize,
    waits: &mut usize,
) -> i32
    ensures ends { CallsSession handle.old handle.new result (λ answer old new.
        CallGoesOn (λ between. KeepsRead old between answer (λ s t.
        EndsWith file_state s t rest.now answer)) (not (is_done_answer answer)) new room.old
        written.new
        waits.new room.new) }
    ensures closed { handle.old.live ≡ false
        → HandsNothing room.old written.new waits.new room.new }
{
    let Some(mut session) = handle.take() else {
        return no_session(written, waits);
    };
    let answer = session.whole(alloc, rest);
    let silent = silent_unless_done(answer);
    hand_out(alloc, handle, session, answer, silent, room, written, waits)
}

/// Hands out of what waits.
#[unsafe(no_mangle)]
pub extern "C" fn esdk_take(
    alloc: Global,
    handle: &mut Handle,
    room: &mut [u8],
    written: &mut usize,
    waits: &mut usize,
) -> i32
    ensures takes { CallsSession handle.old handle.new result (λ answer old new. (answer ≡ Done)
        × HandsOutBy false old new room.old written.new waits.new room.new) }
    ensures closed { handle.old.live ≡ false
        → HandsNothing room.old written.new waits.new room.new }
{
    let Some(session) = handle.take() else {
        return no_session(written, waits);
    };
    hand_out(
        alloc,
        handle,
        session,
        Answer::Done,
        false,
        room,
        written,
        waits,
    )
}
