//! The callers that seal and open, each called once.

use crate::cached_manager::cached_manager;
use crate::file_manager::file_manager;
use crate::known::{Ring, in_two, known_manager, known_ring, message, sink};
use crate::opening::open_pieces;
use crate::sealing::{materials_for, seal_pieces};
use context_codec::{Context, KeySet};
use esdk_fields::Text;
use keyring_file::Plug;
use keyring_trait::{EncMaterials, Keyring, Manager};
use std::alloc::Global;

/// The materials that the known keyring gives without pairs. None where memory runs out.
fn known_materials(alloc: Global) -> Option<EncMaterials> {
    let ring = known_ring(alloc)?;
    if ring.wraps() != 1 {
        return None;
    }
    materials_for(alloc, ring, Context::new(alloc), &[0x22; 44]).ok()
}

/// Whether the text, sealed in two pieces with these materials, is the message.
pub(crate) fn seals(alloc: Global) -> bool {
    let Some(materials) = known_materials(alloc) else {
        return false;
    };
    let Some(mut output) = sink(alloc) else {
        return false;
    };
    let pieces = [b"123".as_slice(), b"456789".as_slice()];
    match seal_pieces(alloc, &materials, 4, &[0x22; 32], &pieces, &mut output) {
        Ok(()) => output.written() == message(),
        Err(_) => false,
    }
}

/// Whether a message, opened in two pieces with this manager, is the text, and has no pairs.
pub(crate) fn opens_with<M: Manager>(alloc: Global, manager: &mut M, message: &[u8]) -> bool {
    let Some(mut output) = sink(alloc) else {
        return false;
    };
    let pieces = in_two(message);
    match open_pieces(alloc, manager, Context::new(alloc), 0, &pieces, &mut output) {
        Ok(context) => context.length() == 0 && output.written() == b"123456789".as_slice(),
        Err(_) => false,
    }
}

/// Whether the message is with the default manager of its key.
pub(crate) fn opens(alloc: Global) -> bool {
    match known_manager(alloc) {
        Some(mut manager) => opens_with(alloc, &mut manager, message()),
        None => false,
    }
}

/// Whether it is, and the keyring was asked once.
pub(crate) fn counts(alloc: Global) -> bool {
    let Some(mut manager) = known_manager(alloc) else {
        return false;
    };
    opens_with(alloc, &mut manager, message()) && manager.into_ring().asked() == 1
}

/// Whether it is twice with a cache over the keyring, which was asked once.
pub(crate) fn caches(alloc: Global) -> bool {
    let Some(ring) = known_ring(alloc) else {
        return false;
    };
    let Ok(mut manager) = cached_manager(alloc, ring) else {
        return false;
    };
    opens_with(alloc, &mut manager, message())
        && opens_with(alloc, &mut manager, message())
        && manager.into_inner().into_ring().asked() == 1
}

/// The known keyring as a plug under the name `counted`. None where memory runs out.
fn known_plug(alloc: Global) -> Option<Plug<Ring>> {
    let name = Text::new(alloc, "counted").ok()?;
    match known_ring(alloc) {
        Some(keyring) => Some(Plug { name, keyring }),
        None => None,
    }
}

/// Whether the message is opened with the keys of a file, which names the known keyring as a plug.
pub(crate) fn reads_a_file(alloc: Global) -> bool {
    let Some(plug) = known_plug(alloc) else {
        return false;
    };
    let file = b"{\"version\":1,\"ring\":{\"plug\":\"counted\"}}";
    match file_manager(alloc, file, plug, KeySet::new(alloc)) {
        Ok(mut manager) => opens_with(alloc, &mut manager, message()),
        Err(_) => false,
    }
}
