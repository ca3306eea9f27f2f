//! The calls that tell of an error, and of the whole context.

ghost use Rattle.std.specs.Prelude.{◌≡◌, ◌≤◌, IfSome, None, length};
ghost use Rattle.std.specs.Option.{option_map};
ghost use Rattle.c_session.specs.FileSession.{OfContext, pair_at, reason_kept};
ghost use Rattle.c_session.specs.Reason.{name_of};
ghost use Rattle.c_session.specs.Telling.{ShowsIf, ShowsLine, ShowsSome};
ghost use Rattle.c_handle.specs.Calls.{Tells, TellsNone, TellsNumber, number_or};

use c_handle::Handle;
use std::alloc::Global;

/// The line of the error that ended the session.
#[unsafe(no_mangle)]
pub extern "C" fn esdk_error(alloc: Global, handle: &mut Handle, room: &mut [u8]) -> usize
    ensures { Tells handle.old handle.new
        (λ kept. ShowsLine (reason_kept kept) room.old result room.new)
        (ShowsIf None room.old result room.new) }
{
    let Some(session) = handle.take() else {
        return 0;
    };
    let count = session.show_line(alloc, room);
    handle.put(alloc, session);
    count
}

/// Its number and its name alone.
#[unsafe(no_mangle)]
pub extern "C" fn esdk_error_name(alloc: Global, handle: &mut Handle, room: &mut [u8]) -> usize
    ensures { Tells handle.old handle.new
        (λ kept. ShowsIf (option_map name_of (reason_kept kept)) room.old result room.new)
        (ShowsIf None room.old result room.new) }
{
    let Some(session) = handle.take() else {
        return 0;
    };
    let count = session.show_name(room);
    handle.put(alloc, session);
    count
}

/// How many pairs the whole context has.
#[unsafe(no_mangle)]
pub extern "C" fn esdk_pairs(alloc: Global, handle: &mut Handle) -> i32
    ensures { Tells handle.old handle.new (TellsNumber result (λ number kept.
        OfContext kept (λ context. number ≡ option_map length context)))
        (result ≡ number_or None) }
{
    let Some(session) = handle.take() else {
        return told(None);
    };
    let count = session.pair_count();
    handle.put(alloc, session);
    told(count)
}

/// The key of a pair.
#[unsafe(no_mangle)]
pub extern "C" fn esdk_pair_key(
    alloc: Global,
    handle: &mut Handle,
    index: usize,
    room: &mut [u8],
) -> i32
    ensures { Tells handle.old handle.new (TellsNumber result (λ number kept.
        OfContext kept (λ context. ShowsSome (option_map (λ pair. pair.0) (pair_at context index))
        room.old number room.new))) (TellsNone room.old result room.new) }
{
    let Some(session) = handle.take() else {
        return told(None);
    };
    let count = session.show_key(index, room);
    handle.put(alloc, session);
    told(count)
}

/// The value of a pair.
#[unsafe(no_mangle)]
pub extern "C" fn esdk_pair_value(
    alloc: Global,
    handle: &mut Handle,
    index: usize,
    room: &mut [u8],
) -> i32
    ensures { Tells handle.old handle.new (TellsNumber result (λ number kept.
        OfContext kept (λ context. ShowsSome (option_map (λ pair. pair.1) (pair_at context index))
        room.old number room.new))) (TellsNone room.old result room.new) }
{
    let Some(session) = handle.take() else {
        return told(None);
    };
    let count = session.show_value(index, room);
    handle.put(alloc, session);
    told(count)
}

/// A number of bytes or of pairs, of which a context has few; -1 where there is none.
fn told(count: Option<usize>) -> i32
    requires { IfSome count (λ number. number ≤ 65535) }
    ensures { result ≡ number_or count }
{
    match count {
        Some(count) => count as i32,
        None => -1,
    }
}
