//! Steps of an opener: how many bytes each takes and gives, what is told by when, and what is
//! answered behind an error. What messages come to in any pieces, and when each content is given, is
//! shown by the program of cases over codecs.

use crate::asking::known_manager;
use crate::known_message::Bytes::{Part, These};
use crate::known_message::{Bytes, NINE_BYTES, bytes_of};
use context_codec::Context;
use header_codec::Settings;
use keyring_trait::{Manager, Served};
use std::alloc::Global;
use stream_open::{OpenError, Opener};

/// A call of an opener, and what it comes to.
enum Call {
    /// A step over this piece takes so many bytes, and gives so many.
    Steps(Bytes, usize, usize),
    /// The contexts are told, and that the materials were served so; or nothing of them.
    Tells(Option<Served>),
    /// The message is whole, and its end gives nothing.
    EndsWhole,
    /// A step over this piece fails.
    RefusesStep(Bytes),
    /// The end fails.
    RefusesEnd,
    /// A step and the end are answered as stopped before.
    IsStopped,
}

/// Whether a step over the piece takes so many bytes, and gives so many.
fn steps<M: Manager>(
    alloc: Global,
    opener: &mut Opener,
    manager: &mut M,
    piece: &[u8],
    used: usize,
    given: usize,
) -> bool {
    match opener.step(alloc, manager, 0, piece) {
        Ok(count) => count == used && opener.out().len() == given,
        Err(_) => false,
    }
}

/// The contexts are told, and that the materials were served so; or nothing of them.
fn tells(opener: &Opener, served: Option<Served>) -> bool {
    opener.context().is_some() == served.is_some()
        && opener.only().is_some() == served.is_some()
        && opener.served() == served
}

/// Whether the message is whole, and its end gives nothing.
fn ends_whole(opener: &mut Opener) -> bool {
    opener.is_whole() && opener.finish().is_ok() && opener.out().is_empty()
}

/// Whether a step and the end are answered as stopped before.
fn is_stopped<M: Manager>(alloc: Global, opener: &mut Opener, manager: &mut M) -> bool {
    matches!(
        opener.step(alloc, manager, 0, NINE_BYTES),
        Err(OpenError::Stopped)
    ) && matches!(opener.finish(), Err(OpenError::Stopped))
}

/// Whether a call comes to that.
fn comes_to<M: Manager>(alloc: Global, opener: &mut Opener, manager: &mut M, call: &Call) -> bool {
    match call {
        Call::Steps(piece, used, given) => {
            steps(alloc, opener, manager, bytes_of(piece), *used, *given)
        }
        Call::Tells(served) => tells(opener, *served),
        Call::EndsWhole => ends_whole(opener),
        Call::RefusesStep(piece) => opener.step(alloc, manager, 0, bytes_of(piece)).is_err(),
        Call::RefusesEnd => opener.finish().is_err(),
        Call::IsStopped => is_stopped(alloc, opener, manager),
    }
}

/// Whether each call comes to that.
fn come_to<M: Manager>(
    alloc: Global,
    opener: &mut Opener,
    manager: &mut M,
    calls: &[Call],
) -> bool {
    for call in calls {
        if !comes_to(alloc, opener, manager, call) {
            return false;
        }
    }
    true
}

/// Whether each call of an opener without limits, to which no pairs are given, comes to that over
/// the manager of the known key; and whether the opener hands a context out then.
fn all_come_to(alloc: Global, calls: &[Call], hands_out: bool) -> bool {
    let Some(mut manager) = known_manager(alloc) else {
        return false;
    };
    let mut opener = Opener::new(alloc, Settings::none(), Context::new(alloc));
    come_to(alloc, &mut opener, &mut manager, calls) && opener.into_context().is_some() == hands_out
}

/// A step over all that is left behind the last byte but one of the header's tag takes that last
/// byte alone, and the materials are told with it. Each step over all that is left then ends with a
/// frame, and the message is whole.
static WHOLE: [Call; 8] = [
    Call::Steps(Part(0, 168), 168, 0),
    Call::Tells(None),
    Call::Steps(Part(168, 282), 1, 0),
    Call::Tells(Some(Served::Direct)),
    Call::Steps(Part(169, 282), 36, 4),
    Call::Steps(Part(205, 282), 36, 4),
    Call::Steps(Part(241, 282), 41, 1),
    Call::EndsWhole,
];

#[test]
fn a_step_ends_with_the_header_or_with_a_unit(rt: HostRuntime) {
    assert!(rt; all_come_to(rt.alloc(), &WHOLE, true));
}

/// A message of the version 3.
static VERSION_3: [Call; 2] = [Call::RefusesStep(These(&[3])), Call::IsStopped];

/// No bytes.
static NO_BYTES: [Call; 2] = [Call::RefusesEnd, Call::IsStopped];

#[test]
fn an_error_stops_the_opener(rt: HostRuntime) {
    assert!(rt; all_come_to(rt.alloc(), &VERSION_3, false));
    assert!(rt; all_come_to(rt.alloc(), &NO_BYTES, false));
}
