//! What is asked of materials managers, and what they answer.

use crate::known_wraps::{
    DATA_KEY, KNOWN_CIPHER, RANDOM, TENANT, are_known, context_of, known_entries, known_ring,
};
use cmm_default::DefaultCmm;
use context_codec::Context;
use keyring_trait::{DecMaterials, DecRequest, EncMaterials, EncRequest, Manager, Served};
use raw_aes_keyring::RawAes;
use std::alloc::Global;

/// The suite of the messages that are written.
pub(crate) const COMMITTING: u16 = 0x0478;

/// The manager of the known keyring. None where memory runs out.
pub(crate) fn known_manager(alloc: Global) -> Option<DefaultCmm<RawAes>> {
    match known_ring(alloc) {
        Some(ring) => Some(DefaultCmm::new(ring)),
        None => None,
    }
}

/// A request to encrypt one byte over these pairs. None where memory runs out.
pub(crate) fn request_of(alloc: Global, pairs: &[(&str, &str)]) -> Option<EncRequest> {
    match context_of(alloc, pairs) {
        Some(context) => Some(EncRequest::new(alloc, context, Some(1))),
        None => None,
    }
}

/// The materials that a manager of one wrap gives to encrypt with.
pub(crate) fn sealed<M: Manager>(
    alloc: Global,
    manager: &mut M,
    request: &EncRequest,
    now: u64,
) -> Option<EncMaterials> {
    if manager.wraps() != 1 {
        return None;
    }
    match manager.for_encryption(alloc, request, now, &RANDOM) {
        Ok(materials) => Some(materials),
        Err(_) => None,
    }
}

/// The materials are those of the known wrap over `tenant`=`acme`, and were served so.
fn are_known_materials(materials: &EncMaterials, served: Served) -> bool {
    materials.served() == served
        && *materials.key().bytes() == DATA_KEY
        && are_known(materials.entries(), &KNOWN_CIPHER)
}

/// Whether a manager gives the known wrap at a request for one byte over `tenant`=`acme`, served
/// so.
fn gives<M: Manager>(alloc: Global, manager: &mut M, now: u64, served: Served) -> bool {
    let Some(request) = request_of(alloc, &TENANT) else {
        return false;
    };
    match sealed(alloc, manager, &request, now) {
        Some(materials) => are_known_materials(&materials, served),
        None => false,
    }
}

/// A request to decrypt the known wrap in a message of this suite, which stores no pair and to
/// which these are given.
pub(crate) fn request_to_open(
    alloc: Global,
    suite: u16,
    given: &[(&str, &str)],
) -> Option<DecRequest> {
    let given = context_of(alloc, given)?;
    match known_entries(alloc, &KNOWN_CIPHER) {
        Some(entries) => Some(DecRequest::new(suite, Context::new(alloc), given, entries)),
        None => None,
    }
}

/// The materials have the known data key, and were served so.
fn have_the_key(materials: &DecMaterials, served: Served) -> bool {
    *materials.key().bytes() == DATA_KEY && materials.served() == served
}

/// Whether a manager finds the known data key in a message of this suite where `tenant`=`acme` is
/// given, served so.
fn finds<M: Manager>(alloc: Global, manager: &mut M, suite: u16, now: u64, served: Served) -> bool {
    let Some(request) = request_to_open(alloc, suite, &TENANT) else {
        return false;
    };
    match manager.for_decryption(alloc, &request, now) {
        Ok(materials) => have_the_key(&materials, served),
        Err(_) => false,
    }
}

/// What a manager is asked at a moment, over `tenant`=`acme`, and how its answer is served.
pub(crate) enum Ask {
    /// It gives the known wrap.
    Gives(u64, Served),
    /// It finds the known data key in a message of this suite.
    Finds(u16, u64, Served),
}

/// Whether a manager answers so.
fn is_answered<M: Manager>(alloc: Global, manager: &mut M, ask: &Ask) -> bool {
    match ask {
        Ask::Gives(now, served) => gives(alloc, manager, *now, *served),
        Ask::Finds(suite, now, served) => finds(alloc, manager, *suite, *now, *served),
    }
}

/// Whether a manager refuses nothing, and answers so one time after the other.
pub(crate) fn are_answered<M: Manager>(alloc: Global, manager: &mut M, asks: &[Ask]) -> bool {
    if manager.refuses().is_some() {
        return false;
    }
    for ask in asks {
        if !is_answered(alloc, manager, ask) {
            return false;
        }
    }
    true
}
