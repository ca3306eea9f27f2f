//! The calls that ask about a message.

ghost use Rattle.c_session.specs.Asking.{AsksOpeners, no_answer_code};
ghost use Rattle.esdk_c.specs.Asking.{AsksHandle, ListsInto};

use c_handle::{Handle, NO_SESSION};
use c_session::{front_text, show, show_numbers};
use std::alloc::Global;

/// The listing of the header that a message begins with, without a key and without a handle. It is
/// the lines that the program's `list` prints, and what stands behind the header isn't judged.
/// `whole` is how many bytes all of it has; the room's front has as many of them as it has room
/// for. At an error `whole` is 0, and the room is as it was.
///
/// 1001 to 1010 and 1023 to 1026: the header has this fault, 1010 where the bytes end before it is
/// whole, 1023 where the message doesn't commit to its data key and `uncommitted` doesn't allow
/// that. 5000: memory ran out.
#[unsafe(no_mangle)]
pub extern "C" fn esdk_list(
    alloc: Global,
    message: &[u8],
    uncommitted: bool,
    room: &mut [u8],
    whole: &mut usize,
) -> i32
    ensures { ListsInto uncommitted message.now room.old result whole.new room.new }
{
    match front_text(alloc, message, uncommitted) {
        Ok(text) => {
            *whole = show(text.bytes(), room);
            0
        }
        Err(reason) => {
            *whole = 0;
            let code = reason.code() as i32;
            // By a call, so that no proof here writes out how its parts are dropped.
            drop(reason);
            code
        }
    }
}

/// Which leaves of the keyring file's tree open, each by itself, the message whose header these
/// bytes begin with, with the pairs that were put as those given. The session is set up, and stays
/// so: a question begins no message, and ends no session. `whole` is how many leaves open it; the
/// front of `numbers` has as many of their numbers as it has room for, ascending, from 1 on. At an
/// error `whole` is 0, and `numbers` is as it was.
///
/// 2001: the handle holds no session. 2002, 2003: the session isn't set up any more, or has ended.
/// 1001 to 1010 and 1023 to 1026: the header has this fault, 1010 where the bytes end before it is
/// whole; 1011, 1012, 1014: its pairs and those that were put have; 4005: a keyring failed; 5000:
/// memory ran out. The session stays as it was at each of them.
#[unsafe(no_mangle)]
pub extern "C" fn esdk_openers(
    alloc: Global,
    handle: &mut Handle,
    message: &[u8],
    numbers: &mut [u32],
    whole: &mut usize,
) -> i32
    ensures { AsksHandle handle.old handle.new no_answer_code (λ old new came.
        AsksOpeners old new message.now came) numbers.old result whole.new numbers.new }
{
    let Some(mut session) = handle.take() else {
        *whole = 0;
        return NO_SESSION;
    };
    let asked = session.openers(alloc, message);
    handle.put(alloc, session);
    match asked {
        Ok(openers) => {
            *whole = show_numbers(openers.numbers(), numbers);
            0
        }
        Err(error) => {
            *whole = 0;
            let code = error.code() as i32;
            drop(error);
            code
        }
    }
}
