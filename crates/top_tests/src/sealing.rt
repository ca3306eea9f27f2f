//! Steps of a sealer that no text alone shows: over no bytes, and behind the end or a refusal. What
//! texts come to in any pieces, and when each frame is given, is shown by the program of cases over
//! codecs.

use crate::asking::{known_manager, request_of, sealed};
use esdk_fields::Refusal;
use keyring_trait::EncMaterials;
use std::alloc::Global;
use stream_seal::{SealError, Sealer};

/// A call of a sealer, and what it comes to.
enum Call {
    /// A step over this piece uses so many bytes, and gives so many.
    Steps(&'static [u8], usize, usize),
    /// A step is refused as over three bytes (Q10), and gives nothing.
    IsOverThree,
    /// The end gives so many bytes.
    Ends(usize),
    /// A step and the end are answered as stopped before, and give nothing.
    IsStopped,
}

/// The materials of a request without pairs. None where memory runs out.
fn materials(alloc: Global) -> Option<EncMaterials> {
    let mut manager = known_manager(alloc)?;
    match request_of(alloc, &[]) {
        Some(request) => sealed(alloc, &mut manager, &request, 0),
        None => None,
    }
}

/// Whether a step uses so many bytes of its piece and gives so many.
fn steps(sealer: &mut Sealer, piece: &[u8], used: usize, given: usize) -> bool {
    match sealer.step(piece) {
        Ok(count) => count == used && sealer.out().len() == given,
        Err(_) => false,
    }
}

/// Whether a step is refused as over three bytes, and gives nothing.
fn is_over_three(sealer: &mut Sealer) -> bool {
    matches!(
        sealer.step(b"4"),
        Err(SealError::Refusal(Refusal::OverDeclared(3)))
    ) && sealer.out().is_empty()
}

/// Whether a step and the end are answered as stopped before, and give nothing.
fn is_stopped(sealer: &mut Sealer) -> bool {
    matches!(sealer.step(b"1"), Err(SealError::Stopped))
        && sealer.out().is_empty()
        && matches!(sealer.finish(), Err(SealError::Stopped))
        && sealer.out().is_empty()
}

/// Whether a call comes to that.
fn comes_to(sealer: &mut Sealer, call: &Call) -> bool {
    match call {
        Call::Steps(piece, used, given) => steps(sealer, piece, *used, *given),
        Call::IsOverThree => is_over_three(sealer),
        Call::Ends(given) => sealer.finish().is_ok() && sealer.out().len() == *given,
        Call::IsStopped => is_stopped(sealer),
    }
}

/// Whether each call comes to that.
fn come_to(sealer: &mut Sealer, calls: &[Call]) -> bool {
    for call in calls {
        if !comes_to(sealer, call) {
            return false;
        }
    }
    true
}

/// Whether each call comes to that of a sealer that has begun a message with these materials, of
/// which so many bytes are declared, in frames of 4 bytes.
fn begun_come_to(
    alloc: Global,
    materials: &EncMaterials,
    declared: Option<u64>,
    calls: &[Call],
) -> bool {
    match Sealer::begin(alloc, materials, declared, 4, Some(1), &[0x22; 32]) {
        Ok(mut sealer) => come_to(&mut sealer, calls),
        Err(_) => false,
    }
}

/// A frame is given once a byte comes behind it, which isn't taken then, and a step over no bytes
/// uses and gives none. The end gives a frame of one byte, and stops the sealer.
static STEPS: [Call; 6] = [
    Call::Steps(b"12345", 4, 0),
    Call::Steps(b"", 0, 0),
    Call::Steps(b"5", 0, 36),
    Call::Steps(b"5", 1, 0),
    Call::Ends(41),
    Call::IsStopped,
];

#[test]
fn a_step_uses_a_piece_up_to_the_end_of_a_frame(rt: HostRuntime) {
    let materials = materials(rt.alloc()).expect(&rt, "memory");
    assert!(rt; begun_come_to(rt.alloc(), &materials, None, &STEPS));
}

/// Four bytes, of which three were declared.
static ONE_MORE: [Call; 3] = [
    Call::Steps(b"1234", 3, 0),
    Call::IsOverThree,
    Call::IsStopped,
];

#[test]
fn a_byte_more_than_declared_stops_the_sealer(rt: HostRuntime) {
    let materials = materials(rt.alloc()).expect(&rt, "memory");
    assert!(rt; begun_come_to(rt.alloc(), &materials, Some(3), &ONE_MORE));
}
