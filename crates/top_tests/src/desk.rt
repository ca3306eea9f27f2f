//! A desk: the numbers of its sessions, what each call gives, and what the end or the refusal of
//! one session leaves of another. What a session is handed in any order of calls is proved; here it
//! is shown of two sessions, and by the batches of `cases` of more.

use crate::asking::known_manager;
use crate::known_message::Bytes::{Part, These};
use crate::known_message::{Bytes, bytes_of, part};
use context_codec::Context;
use desk_core::{Desk, DeskError, SealRequest};
use esdk_fields::Fault;
use header_codec::Settings;
use keyring_trait::{EncRequest, Manager};
use std::alloc::Global;

/// A call of a desk about one of its sessions, and what it comes to.
enum Call {
    /// A session is opened that seals a text without pairs, in frames of 4 bytes: it has this
    /// number.
    Seals,
    /// Its message begins with the known message's header.
    HasKnownHeader,
    /// A session is opened that opens a message, without limits and to which no pairs are given: it
    /// has this number.
    Opens,
    /// It uses so many bytes of a piece, and gives these then.
    Feeds(Bytes, usize, Bytes),
    /// It is refused with a piece, since its data key isn't the committed one (M16), and the desk
    /// gives nothing.
    Refuses(Bytes),
    /// It ends, and gives these bytes then.
    Ends(Bytes),
    /// It is dropped, and the desk gives nothing.
    Drops,
    /// Each call that names it answers that it isn't live, and the desk gives nothing.
    IsNotLive,
}

/// Whether a session is opened that seals with random bytes of 22: of this number. Not where the
/// manager makes another number of wraps than one.
fn seals<M: Manager>(alloc: Global, desk: &mut Desk<M>, id: u64) -> bool {
    if desk.draws() != 76 || desk.last_id() > 9 {
        return false;
    }
    let request = SealRequest::new(EncRequest::new(alloc, Context::new(alloc), None), 4, None);
    match desk.open_seal(alloc, &request, 0, &[0x22; 76]) {
        Ok(new) => new == id,
        Err(_) => false,
    }
}

/// Whether the message of a session begins with the known message's header.
fn has_known_header<M: Manager>(desk: &Desk<M>, id: u64) -> bool {
    match desk.header(id) {
        Ok(header) => header == part(0, 169),
        Err(_) => false,
    }
}

/// Whether a session is opened that opens a message: of this number.
fn opens<M: Manager>(alloc: Global, desk: &mut Desk<M>, id: u64) -> bool {
    if desk.last_id() > 9 {
        return false;
    }
    match desk.open_open(alloc, Settings::none(), Context::new(alloc)) {
        Ok(new) => new == id,
        Err(_) => false,
    }
}

/// Whether a session uses so many bytes of a piece, and gives these then.
fn feeds<M: Manager>(
    alloc: Global,
    desk: &mut Desk<M>,
    id: u64,
    piece: &[u8],
    used: usize,
    given: &[u8],
) -> bool {
    match desk.feed(alloc, id, 0, piece) {
        Ok(count) => count == used && desk.out() == given,
        Err(_) => false,
    }
}

/// Whether a session is refused with a piece, since its data key isn't the committed one, and the
/// desk gives nothing.
fn refuses<M: Manager>(alloc: Global, desk: &mut Desk<M>, id: u64, piece: &[u8]) -> bool {
    matches!(
        desk.feed(alloc, id, 0, piece),
        Err(DeskError::Fault(Fault::Commitment))
    ) && desk.out().is_empty()
}

/// Whether each call that names a session answers that it isn't live, and the desk gives nothing.
fn is_not_live<M: Manager>(alloc: Global, desk: &mut Desk<M>, id: u64) -> bool {
    matches!(desk.feed(alloc, id, 0, b"1"), Err(DeskError::NotLive))
        && desk.out().is_empty()
        && matches!(desk.end(id), Err(DeskError::NotLive))
        && desk.out().is_empty()
        && matches!(desk.drop_session(id), Err(DeskError::NotLive))
        && desk.out().is_empty()
}

/// Whether a call about a session comes to that.
fn comes_to<M: Manager>(alloc: Global, desk: &mut Desk<M>, id: u64, call: &Call) -> bool {
    match call {
        Call::Seals => seals(alloc, desk, id),
        Call::HasKnownHeader => has_known_header(desk, id),
        Call::Opens => opens(alloc, desk, id),
        Call::Feeds(piece, used, given) => {
            feeds(alloc, desk, id, bytes_of(piece), *used, bytes_of(given))
        }
        Call::Refuses(piece) => refuses(alloc, desk, id, bytes_of(piece)),
        Call::Ends(given) => desk.end(id).is_ok() && desk.out() == bytes_of(given),
        Call::Drops => desk.drop_session(id).is_ok() && desk.out().is_empty(),
        Call::IsNotLive => is_not_live(alloc, desk, id),
    }
}

/// Whether each call about the session of its number comes to that.
fn come_to<M: Manager>(alloc: Global, desk: &mut Desk<M>, calls: &[(u64, Call)]) -> bool {
    for (id, call) in calls {
        if !comes_to(alloc, desk, *id, call) {
            return false;
        }
    }
    true
}

/// Whether each call of a new desk over the manager of the known key comes to that.
fn all_come_to(alloc: Global, calls: &[(u64, Call)]) -> bool {
    match known_manager(alloc) {
        Some(manager) => come_to(alloc, &mut Desk::new(alloc, manager), calls),
        None => false,
    }
}

/// The first session seals the known message, and gives each frame once a byte comes behind it, or
/// at its end; between its calls the second one opens the front of that message, and is dropped. No
/// session has the third number.
static ENDED_AND_DROPPED: [(u64, Call); 15] = [
    (1, Call::Seals),
    (2, Call::Opens),
    (1, Call::HasKnownHeader),
    (1, Call::Feeds(These(b"12345"), 4, These(b""))),
    (2, Call::Feeds(Part(0, 282), 169, These(b""))),
    (1, Call::Feeds(These(b"5678"), 0, Part(169, 205))),
    (2, Call::Feeds(Part(169, 282), 36, These(b"1234"))),
    (1, Call::Feeds(These(b"56789"), 4, These(b""))),
    (1, Call::Feeds(These(b"9"), 0, Part(205, 241))),
    (1, Call::Feeds(These(b"9"), 1, These(b""))),
    (1, Call::Ends(Part(241, 282))),
    (1, Call::IsNotLive),
    (2, Call::Drops),
    (2, Call::IsNotLive),
    (3, Call::IsNotLive),
];

#[test]
fn a_session_that_ended_or_was_dropped_is_not_live(rt: HostRuntime) {
    assert!(rt; all_come_to(rt.alloc(), &ENDED_AND_DROPPED));
}

/// The first session takes the known message's header, where the last byte of the commitment, 9f,
/// is altered, and is refused with the last byte of its tag; between its calls, and behind them, the
/// second one opens the known message.
static REFUSED: [(u64, Call); 13] = [
    (1, Call::Opens),
    (2, Call::Opens),
    (1, Call::Feeds(Part(0, 152), 152, These(b""))),
    (1, Call::Feeds(These(&[0x9e]), 1, These(b""))),
    (1, Call::Feeds(Part(153, 168), 15, These(b""))),
    (2, Call::Feeds(Part(0, 168), 168, These(b""))),
    (1, Call::Refuses(Part(168, 169))),
    (2, Call::Feeds(Part(168, 282), 1, These(b""))),
    (1, Call::IsNotLive),
    (2, Call::Feeds(Part(169, 282), 36, These(b"1234"))),
    (2, Call::Feeds(Part(205, 282), 36, These(b"5678"))),
    (2, Call::Feeds(Part(241, 282), 41, These(b"9"))),
    (2, Call::Ends(These(b""))),
];

#[test]
fn a_refusal_of_one_session_leaves_the_other(rt: HostRuntime) {
    assert!(rt; all_come_to(rt.alloc(), &REFUSED));
}
