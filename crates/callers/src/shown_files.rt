//! The callers of files and headers, each called once.

use crate::auditing::openers_of;
use crate::extracting::extract_range;
use crate::known::{Ring, known_manager, known_ring, message, sink};
use context_codec::Context;
use esdk_fields::Blob;
use esdk_memory::{MemShelf, MemSource};
use header_codec::{Header, Settings};
use header_input::take_header;
use keyring_trait::Manager;
use multi_keyring::Node;
use std::alloc::Global;

/// A shelf with the message as its file `nine`. None where memory runs out.
fn shelf(alloc: Global) -> Option<MemShelf> {
    let mut shelf = MemShelf::new(alloc, Vec::new(alloc));
    match shelf.place(alloc, "nine", message()) {
        Ok(()) => Some(shelf),
        Err(_) => None,
    }
}

/// Whether bytes 3 to 7 of the text are extracted with this manager.
fn extracts_with<M: Manager>(alloc: Global, manager: &mut M, shelf: &mut MemShelf) -> bool {
    let Some(mut output) = sink(alloc) else {
        return false;
    };
    match extract_range(
        alloc,
        manager,
        Settings::none(),
        &Context::new(alloc),
        0,
        shelf,
        "nine",
        3,
        5,
        &mut output,
    ) {
        Ok(written) => written == 5 && output.written() == b"45678".as_slice(),
        Err(_) => false,
    }
}

/// Whether they are with the default manager of the key.
pub(crate) fn extracts(alloc: Global) -> bool {
    let Some(mut manager) = known_manager(alloc) else {
        return false;
    };
    match shelf(alloc) {
        Some(mut shelf) => extracts_with(alloc, &mut manager, &mut shelf),
        None => false,
    }
}

/// The message as an input. None where memory runs out.
fn source(alloc: Global) -> Option<MemSource> {
    let mut bytes = Blob::new(alloc);
    match bytes.push_all(message()) {
        Ok(()) => Some(MemSource::new(bytes, 100, Vec::new(alloc))),
        Err(_) => None,
    }
}

/// The header of the message. None where memory runs out.
fn header(alloc: Global) -> Option<Header> {
    let mut source = source(alloc)?;
    match take_header(alloc, &mut source, Settings::none()) {
        Ok(reader) => reader.into_header(),
        Err(_) => None,
    }
}

/// Whether a keyring as a tree of one leaf opens the message of this header by its leaf.
fn audits_with(alloc: Global, ring: Ring, header: &Header) -> bool {
    let mut tree = Node::Handed(ring);
    match openers_of(alloc, &mut tree, header, &Context::new(alloc)) {
        Ok(openers) => openers.as_slice() == [1].as_slice(),
        Err(_) => false,
    }
}

/// Whether the known keyring does.
pub(crate) fn audits(alloc: Global) -> bool {
    let Some(header) = header(alloc) else {
        return false;
    };
    match known_ring(alloc) {
        Some(ring) => audits_with(alloc, ring, &header),
        None => false,
    }
}
