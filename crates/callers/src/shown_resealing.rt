//! The caller that reseals, called three times.

use crate::known::{in_two, known_manager, message, other_manager, sink};
use crate::resealing::reseal_pieces;
use crate::shown::opens_with;
use context_codec::Context;
use esdk_fields::Fault;
use esdk_memory::MemSink;
use header_codec::Settings;
use keyring_trait::Manager;
use reseal_core::{ResealError, ResealOptions};
use std::alloc::Global;

/// Whether a message isn't resealed since bytes are missing.
fn lacks_bytes(error: &ResealError) -> bool {
    matches!(error, ResealError::Fault(Fault::Truncated))
}

/// Whether resealing a message with a manager of one wrap, in the same frames and with the same
/// random bytes, makes a whole one without pairs; false where bytes are missing. None at any other
/// end.
fn reseals_all<M: Manager>(
    alloc: Global,
    message: &[u8],
    sealing: &mut M,
    output: &mut MemSink,
) -> Option<bool> {
    let mut opening = known_manager(alloc)?;
    if sealing.wraps() != 1 {
        return None;
    }
    let options = ResealOptions {
        settings: Settings::none(),
        frame_length: 4,
        now: 0,
    };
    let pieces = in_two(message);
    match reseal_pieces(
        alloc,
        &mut opening,
        sealing,
        options,
        Context::new(alloc),
        &[0x22; 76],
        &pieces,
        output,
    ) {
        Ok(context) => (context.length() == 0).then_some(true),
        Err(error) => lacks_bytes(&error).then_some(false),
    }
}

/// Whether the message is resealed under its own key to itself.
pub(crate) fn reseals(alloc: Global) -> bool {
    let Some(mut manager) = known_manager(alloc) else {
        return false;
    };
    let Some(mut output) = sink(alloc) else {
        return false;
    };
    reseals_all(alloc, message(), &mut manager, &mut output) == Some(true)
        && output.written() == message()
}

/// Whether what the message is resealed to with the new manager is the text to that, and not to the
/// old one.
fn rotates_to<M: Manager>(alloc: Global, old: &mut M, new: &mut M) -> bool {
    let Some(mut output) = sink(alloc) else {
        return false;
    };
    reseals_all(alloc, message(), new, &mut output) == Some(true)
        && opens_with(alloc, new, output.written())
        && !opens_with(alloc, old, output.written())
}

/// Whether it is so of the manager of the key, and that of another one.
pub(crate) fn rotates(alloc: Global) -> bool {
    let Some(mut old) = known_manager(alloc) else {
        return false;
    };
    match other_manager(alloc) {
        Some(mut new) => rotates_to(alloc, &mut old, &mut new),
        None => false,
    }
}

/// Whether of the message without its final frame the fault is that bytes are missing, and the
/// output is the front of the message up to its last whole frame but one.
pub(crate) fn reseals_a_front(alloc: Global) -> bool {
    let Some(mut manager) = known_manager(alloc) else {
        return false;
    };
    let Some(mut output) = sink(alloc) else {
        return false;
    };
    let front = message().get(..241).unwrap_or(&[]);
    reseals_all(alloc, front, &mut manager, &mut output) == Some(false)
        && output.written() == message().get(..205).unwrap_or(&[])
}
