//! A keyring of one's own.

ghost use Rattle.std.specs.Prelude.{◌≡◌, ◌+◌, ◌-◌, ◌^◌, min, IfOk, IfErr};
ghost use Rattle.keyring_trait.specs.Keyring.{FindsBy, KeyringGoes, Opens, UnwrapCause};
ghost use Rattle.keyring_trait.specs.Uses.{AskedOnce};

use context_codec::Context;
use edk_codec::DataKeyEntry;
use keyring_trait::{DataKey, Keyring, RingError, RingRefusal, Wrapped};
use std::alloc::Global;

/// Another keyring, of which is counted how often it was asked for a data key.
#[derive(Drop)]
pub(crate) struct CountedRing<K> {
    ring: K,
    asked: u64,
}

impl<K> CountedRing<K> {
    /// The keyring, which wasn't asked yet.
    pub(crate) fn new(ring: K) -> CountedRing<K>
        ensures ring { result.ring ≡ ring }
        ensures asked { result.asked ≡ 0 }
    {
        CountedRing { ring, asked: 0 }
    }

    /// How often it was asked for a data key, up to 2^64 - 1.
    pub(crate) fn asked(&self) -> u64
        ensures { result ≡ self.now.asked }
    {
        self.asked
    }
}

/// To its callers it is the keyring that it asks: it means the same, and so each clause of the
/// trait is the other keyring's.
impl<K: Keyring> Keyring for CountedRing<K> {
    ghost meaning = { λ counted. K.meaning counted.ring };

    fn wraps(&self) -> u32 {
        self.ring.wraps()
    }

    fn refuses(&self, has_key: bool) -> Option<RingRefusal> {
        self.ring.refuses(has_key)
    }

    fn on_encrypt(
        &mut self,
        alloc: Global,
        context: &Context,
        random: &[u8],
        key: Option<&DataKey>,
    ) -> Result<Wrapped, RingError> {
        self.ring.on_encrypt(alloc, context, random, key)
    }

    /// The trait's clauses are written again, since this method promises more.
    fn on_decrypt(
        &mut self,
        alloc: Global,
        context: &Context,
        entries: &[DataKeyEntry],
    ) -> Result<Option<DataKey>, RingError>
        ensures goes { KeyringGoes (K.meaning self.old.ring) (K.meaning self.new.ring) }
        ensures opens { IfOk result (Opens (K.meaning self.old.ring)
            (K.meaning self.new.ring) context.now entries.now) }
        ensures used { AskedOnce (K.meaning self.old.ring).uses (K.meaning self.new.ring).uses
            (FindsBy context.now entries.now result) }
        ensures cause { IfErr result (UnwrapCause (K.meaning self.old.ring).faults
            (K.meaning self.new.ring).faults) }
        ensures counted { self.new.asked ≡ min (self.old.asked + 1) (2 ^ 64 - 1) }
    {
        self.asked = self.asked.saturating_add(1);
        self.ring.on_decrypt(alloc, context, entries)
    }
}
