//! A manager that keeps what it gave last. What a manager says of its last answer may always be so;
//! of this one it isn't.

use crate::asking::Ask::Gives;
use crate::asking::{Ask, are_answered, known_manager};
use crate::caching::behind_a_cache;
use cmm_caching::CachingCmm;
use cmm_default::DefaultCmm;
use keyring_trait::{
    DataKey, DecMaterials, DecRequest, EncMaterials, EncRequest, Manager, ManagerError,
    RingRefusal, Served,
};
use raw_aes_keyring::RawAes;
use std::alloc::Global;

/// The data key of materials, and the moment at which they were asked for.
#[derive(Clone, Copy)]
struct Recalled {
    key: DataKey,
    moment: u64,
}

/// A materials manager that asks another one, and recalls the last materials that it gave to
/// encrypt and found to decrypt with.
#[derive(Drop)]
struct Recalling<M> {
    manager: M,
    gave: Option<Recalled>,
    found: Option<Recalled>,
}

/// A recalling manager behind a cache.
type Cached = CachingCmm<Recalling<DefaultCmm<RawAes>>>;

impl<M: Manager> Manager for Recalling<M> {
    ghost use Rattle.std.specs.Prelude.{◌≡◌, Some};

    /// It is what the manager that it asks is, but for the last answers: it recalls the key of these
    /// materials, and this moment.
    ghost state = { λ r. record (M.state r.manager) {
      gave = λ _ request now random made. r.gave ≡ Some (record { key = made.key; moment = now });
      found = λ _ request now found. r.found ≡ Some (record { key = found.key; moment = now });
    } };

    fn wraps(&self) -> u32 {
        self.manager.wraps()
    }

    fn refuses(&self) -> Option<RingRefusal> {
        self.manager.refuses()
    }

    fn for_encryption(
        &mut self,
        alloc: Global,
        request: &EncRequest,
        now: u64,
        random: &[u8],
    ) -> Result<EncMaterials, ManagerError> {
        let made = self.manager.for_encryption(alloc, request, now, random)?;
        self.gave = Some(Recalled {
            key: *made.key(),
            moment: now,
        });
        Ok(made)
    }

    fn for_decryption(
        &mut self,
        alloc: Global,
        request: &DecRequest,
        now: u64,
    ) -> Result<DecMaterials, ManagerError> {
        let found = self.manager.for_decryption(alloc, request, now)?;
        self.found = Some(Recalled {
            key: *found.key(),
            moment: now,
        });
        Ok(found)
    }
}

/// Whether this moment was recalled.
fn is_moment(gave: Option<Recalled>, moment: u64) -> bool {
    match gave {
        Some(gave) => gave.moment == moment,
        None => false,
    }
}

/// Whether a manager with a cache answers so, and the one behind it recalls this moment then.
fn recalls(alloc: Global, mut cache: Cached, asks: &[Ask], moment: u64) -> bool {
    are_answered(alloc, &mut cache, asks) && is_moment(cache.into_inner().gave, moment)
}

/// Whether a recalling manager of the known key does, behind a new cache.
fn new_one_recalls(alloc: Global, asks: &[Ask], moment: u64) -> bool {
    let Some(manager) = known_manager(alloc) else {
        return false;
    };
    let recalling = Recalling {
        manager,
        gave: None,
        found: None,
    };
    match behind_a_cache(alloc, recalling) {
        Some(cache) => recalls(alloc, cache, asks, moment),
        None => false,
    }
}

/// A request that the cache serves again.
static SERVED_AGAIN: [Ask; 2] = [Gives(2, Served::New(1)), Gives(9, Served::Hit(1))];

/// One that the manager behind it is asked again.
static ASKED_AGAIN: [Ask; 2] = [Gives(2, Served::New(1)), Gives(12, Served::New(2))];

#[test]
fn the_manager_behind_a_cache_recalls_what_it_was_asked(rt: HostRuntime) {
    assert!(rt; new_one_recalls(rt.alloc(), &SERVED_AGAIN, 2));
    assert!(rt; new_one_recalls(rt.alloc(), &ASKED_AGAIN, 12));
}
