//! A manager with a cache.

ghost use Rattle.std.specs.Prelude.{◌≡◌, ◌^◌, Some, IfOk};
ghost use Rattle.cmm_caching.specs.Asked.{store_limits};

use cmm_caching::{CacheLimits, CachingCmm};
use cmm_default::DefaultCmm;
use keyring_trait::Keyring;
use std::alloc::{AllocError, Global};

/// The manager of a keyring, with a cache of 100 entries. One entry serves for five minutes, and
/// for 1,000 messages of 2^30 bytes in all.
///
/// Limits out of their ranges would be None, and None switches the cache off: here the contract
/// says that they aren't.
pub(crate) fn cached_manager<K: Keyring>(
    alloc: Global,
    ring: K,
) -> Result<CachingCmm<DefaultCmm<K>>, AllocError>
    ensures ring { IfOk result (λ manager. manager.0 ≡ ring) }
    ensures limits { IfOk result (λ manager. store_limits manager.1
        ≡ Some (record { capacity = 100; age = 300; messages = 1000; bytes = 2 ^ 30 })) }
{
    let limits = CacheLimits::new(100, 300, 1_000, 1 << 30);
    CachingCmm::new(alloc, DefaultCmm::new(ring), limits)
}
