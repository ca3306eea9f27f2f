//! A cache over the default manager of one key: what no words of the program show. How a cache
//! serves one request after the other is shown by the batches of `cases`.

use crate::asking::Ask::Finds;
use crate::asking::{Ask, COMMITTING, are_answered, known_manager};
use cmm_caching::{CacheLimits, CachingCmm};
use cmm_default::DefaultCmm;
use keyring_trait::{Manager, Served};
use raw_aes_keyring::RawAes;
use std::alloc::Global;

/// A manager with a cache, whose entries serve for ten seconds, over this one. None where memory
/// runs out.
pub(crate) fn behind_a_cache<M: Manager>(alloc: Global, manager: M) -> Option<CachingCmm<M>> {
    match CachingCmm::new(alloc, manager, CacheLimits::new(5, 10, 10, 1000)) {
        Ok(manager) => Some(manager),
        Err(_) => None,
    }
}

/// Such a manager over the default manager of the known key. None where memory runs out.
pub(crate) fn caching(alloc: Global) -> Option<CachingCmm<DefaultCmm<RawAes>>> {
    match known_manager(alloc) {
        Some(manager) => behind_a_cache(alloc, manager),
        None => None,
    }
}

/// Messages of two suites.
static TWO_SUITES: [Ask; 3] = [
    Finds(COMMITTING, 0, Served::New(1)),
    Finds(0x0178, 0, Served::New(2)),
    Finds(COMMITTING, 0, Served::Hit(1)),
];

/// That no line of a journal is within the limits of a new cache is proved.
#[test]
fn the_suite_is_a_part_of_the_name(rt: HostRuntime) {
    let mut cache = caching(rt.alloc()).expect(&rt, "memory");
    cache.journal_within(&[]);
    assert!(rt; are_answered(rt.alloc(), &mut cache, &TWO_SUITES));
}
