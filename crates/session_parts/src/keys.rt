//! The keys that a manager requires.

ghost use Rattle.std.specs.Prelude.{◌≡◌};

use cmm_required::RequiredCmm;
use context_codec::KeySet;

/// The manager that requires these keys, over the same inner one.
pub fn requiring<M>(manager: RequiredCmm<M>, keys: KeySet) -> RequiredCmm<M>
    ensures { result ≡ (manager.0, keys) }
{
    RequiredCmm::new(manager.into_inner(), keys)
}
