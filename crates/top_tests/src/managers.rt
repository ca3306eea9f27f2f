//! A manager in a box, and the manager that requires keys, over another of its kind and over a
//! cache. What the program's managers give is shown by its cases, over keyrings in boxes.

use crate::asking::Ask::{Finds, Gives};
use crate::asking::{
    Ask, COMMITTING, are_answered, known_manager, request_of, request_to_open, sealed,
};
use crate::caching::caching;
use cmm_default::{DefaultCmm, HandedCmm};
use cmm_required::RequiredCmm;
use context_codec::KeySet;
use esdk_fields::Fault;
use keyring_trait::{DecRequest, EncRequest, Manager, ManagerError, Served};
use raw_aes_keyring::RawAes;
use std::alloc::Global;

/// What a manager without a cache answers.
static DIRECTLY: [Ask; 2] = [
    Gives(0, Served::Direct),
    Finds(COMMITTING, 0, Served::Direct),
];

/// Whether the manager answers so in a box.
fn boxed_manager_answers(alloc: Global, manager: DefaultCmm<RawAes>, asks: &[Ask]) -> bool {
    match Box::new(alloc, manager) {
        Ok(manager) => {
            let boxed: Box<dyn Manager> = manager;
            are_answered(alloc, &mut HandedCmm::new(boxed), asks)
        }
        Err(_) => false,
    }
}

#[test]
fn a_boxed_manager_gives_and_finds_directly(rt: HostRuntime) {
    let manager = known_manager(rt.alloc()).expect(&rt, "memory");
    assert!(rt; boxed_manager_answers(rt.alloc(), manager, &DIRECTLY));
}

/// The set of this key. None where memory runs out.
fn set_of(alloc: Global, key: &str) -> Option<KeySet> {
    let mut set = KeySet::new(alloc);
    match set.insert(alloc, key) {
        Ok(()) => Some(set),
        Err(_) => None,
    }
}

/// The manager over this one that requires this key. None where memory runs out.
fn over<M: Drop>(alloc: Global, inner: M, key: &str) -> Option<RequiredCmm<M>> {
    match set_of(alloc, key) {
        Some(keys) => Some(RequiredCmm::new(inner, keys)),
        None => None,
    }
}

/// The set is that of `region`, `tenant` and `zone`.
fn are_all(keys: &KeySet) -> bool {
    match keys.keys() {
        [first, second, third] => {
            first.as_str() == "region" && second.as_str() == "tenant" && third.as_str() == "zone"
        }
        _ => false,
    }
}

/// Three pairs.
static THREE_PAIRS: [(&str, &str); 3] = [("region", "1"), ("tenant", "2"), ("zone", "3")];

/// A request over three pairs that requires `tenant`. None where memory runs out.
fn request_requiring(alloc: Global) -> Option<EncRequest> {
    let request = request_of(alloc, &THREE_PAIRS)?;
    match set_of(alloc, "tenant") {
        Some(keys) => request.requiring(alloc, &keys).ok(),
        None => None,
    }
}

/// Whether a reader of what a manager gives at this request has to give all three pairs.
fn requires_all<M: Manager>(alloc: Global, manager: &mut M, request: &EncRequest) -> bool {
    match sealed(alloc, manager, request, 0) {
        Some(materials) => are_all(materials.required()),
        None => false,
    }
}

/// `zone` is named as missing.
fn names_zone(error: &ManagerError) -> bool {
    match error {
        ManagerError::Fault(Fault::MissingRequired(key)) => key.as_str() == "zone",
        _ => false,
    }
}

/// Whether a manager refuses nothing to write, and names `zone` as missing at this request.
fn misses_zone<M: Manager>(alloc: Global, manager: &mut M, request: &DecRequest) -> bool {
    match manager.for_decryption(alloc, request, 0) {
        Ok(_) => false,
        Err(error) => names_zone(&error) && manager.refuses().is_none(),
    }
}

/// The manager that requires `region`, over the one that requires `zone`, over the default manager
/// of the known key.
type RequiresTwo = RequiredCmm<RequiredCmm<DefaultCmm<RawAes>>>;

/// Such a manager. None where memory runs out.
fn requires_two(alloc: Global) -> Option<RequiresTwo> {
    let manager = known_manager(alloc)?;
    let inner = over(alloc, manager, "zone")?;
    over(alloc, inner, "region")
}

/// The pair that is given.
static REGION: [(&str, &str); 1] = [("region", "1")];

/// Two managers require the keys of both beside the request's, of who writes and of who reads; and
/// the inner one comes back.
#[test]
fn one_manager_over_another_requires_the_keys_of_both(rt: HostRuntime) {
    let mut outer = requires_two(rt.alloc()).expect(&rt, "memory");
    let to_write = request_requiring(rt.alloc()).expect(&rt, "memory");
    assert!(rt; requires_all(rt.alloc(), &mut outer, &to_write));
    let to_read = request_to_open(rt.alloc(), COMMITTING, &REGION).expect(&rt, "memory");
    assert!(rt; misses_zone(rt.alloc(), &mut outer, &to_read));
    assert!(rt; misses_zone(rt.alloc(), &mut outer.into_inner(), &to_read));
}

/// Requests that come at their moments to a cache below, whose entries serve for ten seconds.
static PASSED_ON: [Ask; 6] = [
    Gives(0, Served::New(1)),
    Gives(9, Served::Hit(1)),
    Gives(10, Served::New(2)),
    Finds(COMMITTING, 0, Served::New(3)),
    Finds(COMMITTING, 9, Served::Hit(3)),
    Finds(COMMITTING, 10, Served::New(4)),
];

#[test]
fn the_moment_is_passed_on(rt: HostRuntime) {
    let cache = caching(rt.alloc()).expect(&rt, "memory");
    let mut manager = over(rt.alloc(), cache, "tenant").expect(&rt, "memory");
    assert!(rt; are_answered(rt.alloc(), &mut manager, &PASSED_ON));
}
