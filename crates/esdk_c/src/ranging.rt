//! The calls for a range of a message.

ghost use Rattle.std.specs.Prelude.{length};
ghost use Rattle.c_session.specs.NoRange.{no_range_code};
ghost use Rattle.c_session.specs.Ranging.{AsksRange};
ghost use Rattle.esdk_c.specs.Asking.{AsksHandle};
ghost use Rattle.esdk_c.specs.Ranging.{SpansInto};

use c_handle::{Handle, NO_SESSION, tell_span};
use c_session::{HandedBytes, Span, front_span, show};
use std::alloc::Global;

/// Which bytes of a message hold `count` bytes of its text from byte `at` on, by the header that it
/// begins with: without a key and without a handle, as `esdk_list`. `header` is how many bytes the
/// header has, with its tag; `frame` how many of the text a frame has, and 0 for a single block. At
/// an error each of the four numbers is 0.
///
/// The codes of `esdk_list`. 2009: the range is empty, or ends too far off.
#[unsafe(no_mangle)]
pub extern "C" fn esdk_span(
    alloc: Global,
    message: &[u8],
    uncommitted: bool,
    at: u64,
    count: u64,
    header: &mut u64,
    frame: &mut u32,
    offset: &mut u64,
    size: &mut u64,
) -> i32
    ensures { SpansInto uncommitted message.now at count result header.new frame.new offset.new
        size.new }
{
    let (code, span) = match front_span(alloc, message, uncommitted, at, count) {
        Ok(span) => (0, span),
        Err(error) => {
            let code = error.code() as i32;
            // By a call, so that no proof here writes out how its parts are dropped.
            drop(error);
            (code, Span::none())
        }
    };
    tell_span(span, header, frame, offset, size);
    code
}

/// The text of a message from byte `at` on, as much as the room has room for, or as there is. The
/// message begins with `front`, and has `part` at `offset`; `ends` says that it ends behind the
/// part. Each frame is opened after its tag was found right. The session is set up, and stays so: a
/// question begins no message, and ends no session. `written` is how many bytes that is. At an
/// error it is 0, and the room is as it was.
///
/// 2001: the handle holds no session. 2002, 2003: the session isn't set up any more, or has ended.
/// 2009: `at`, or the room's length, is over 2^62. 2010: bytes of the message are wanted that
/// weren't handed over. 1001 to 1026: the message has this fault; 4005: a keyring failed; 5000:
/// memory ran out. The session stays as it was at each of them.
#[unsafe(no_mangle)]
pub extern "C" fn esdk_range(
    alloc: Global,
    handle: &mut Handle,
    front: &[u8],
    offset: u64,
    part: &[u8],
    ends: bool,
    uncommitted: bool,
    at: u64,
    room: &mut [u8],
    written: &mut usize,
) -> i32
    ensures { AsksHandle handle.old handle.new no_range_code (λ old new came.
        AsksRange old new (record {
          front = front.now;
          offset = offset;
          part = part.now;
          ends = ends;
        }) uncommitted at (length room.old) came) room.old result written.new room.new }
{
    let Some(mut session) = handle.take() else {
        *written = 0;
        return NO_SESSION;
    };
    let bytes = HandedBytes {
        front,
        offset,
        part,
        ends,
    };
    let came = session.range(alloc, bytes, uncommitted, at, room.len() as u64);
    handle.put(alloc, session);
    match came {
        Ok(text) => {
            *written = show(text.bytes(), room);
            0
        }
        Err(error) => {
            *written = 0;
            let code = error.code() as i32;
            drop(error);
            code
        }
    }
}
