//! One wrapping key as a keyring. AWS Encryption SDK Specification, "Keyring Interface" and "Raw
//! AES Keyring".

ghost use Rattle.std.specs.Prelude.{◌≡◌, length, is_some};
ghost use Rattle.std.specs.Option.{option_copied};
ghost use Rattle.keyring_trait.specs.Keyring.{wanted, data_key_in, ivs_in};
ghost use Rattle.raw_aes_keyring.specs.Keyring.{raw_meaning};

use crate::raw_aes::RawAes;
use context_codec::Context;
use edk_codec::DataKeyEntry;
use esdk_fields::array_of;
use keyring_trait::{DataKey, Keyring, RingError, RingRefusal, Wrapped};
use std::alloc::Global;

/// The keyring of one wrapping key makes one entry, refuses nothing, and fails only where memory
/// runs out. Where the key is retired, it makes no entry: it refuses to generate a data key, and
/// gives back one that it is handed.
impl Keyring for RawAes {
    ghost meaning = { raw_meaning };

    fn wraps(&self) -> u32 {
        if self.key.retired { 0 } else { 1 }
    }

    fn refuses(&self, has_key: bool) -> Option<RingRefusal> {
        if self.key.retired && !has_key {
            Some(RingRefusal::NoGenerator)
        } else {
            None
        }
    }

    #[tactic(auto, using(crate::proofs::OneKey::wraps_one, crate::proofs::OneKey::wraps_none, crate::proofs::OneKey::wraps_by_one, crate::proofs::OneKey::wraps_not))]
    fn on_encrypt(
        &mut self,
        alloc: Global,
        context: &Context,
        random: &[u8],
        key: Option<&DataKey>,
    ) -> Result<Wrapped, RingError> {
        if self.key.retired {
            return match key {
                Some(key) => Ok(Wrapped::new(*key, Vec::new(alloc))),
                None => Err(RingError::Refused(RingRefusal::NoGenerator)),
            };
        }
        let (key, iv) = key_and_iv(random, key);
        let entry = self.wrap(alloc, context, &iv, &key)?;
        let mut entries = Vec::new(alloc);
        entries.push(entry)?;
        Ok(Wrapped::new(key, entries))
    }

    #[tactic(auto, using(crate::proofs::OneKey::opens_one, crate::proofs::OneKey::finds_by_one, crate::proofs::OneKey::finds_not))]
    fn on_decrypt(
        &mut self,
        alloc: Global,
        context: &Context,
        entries: &[DataKeyEntry],
    ) -> Result<Option<DataKey>, RingError> {
        Ok(self.unwrap(alloc, context, entries)?)
    }
}

/// The data key that is wrapped, which is the one handed over or the first 32 random bytes, and the
/// IV, which is the 12 bytes that are left.
fn key_and_iv(random: &[u8], key: Option<&DataKey>) -> (DataKey, [u8; 12])
    requires { length random.now ≡ wanted (is_some key) 1 }
    ensures key { result.0 ≡ data_key_in (option_copied key.entry) random.now }
    ensures iv { result.1 ≡ ivs_in (option_copied key.entry) random.now }
{
    match key {
        Some(key) => (*key, array_of(random)),
        None => {
            let (drawn, iv) = random.split_at(32);
            (DataKey::new(array_of(drawn)), array_of(iv))
        }
    }
}
