//! The key of a file as a keyring. AWS Encryption SDK Specification, "Keyring Interface" and "Raw
//! AES Keyring".

ghost use Rattle.std.specs.Prelude.{◌≡◌, ◌∷◌, [], false, None, length, is_some, IfOk, IfErr};
ghost use Rattle.std.specs.Prelude.{IfSome, OnOk};
ghost use Rattle.std.specs.Option.{option_copied};
ghost use Rattle.keyring_trait.specs.Keyring.{FindsBy, KeyringGoes, Opens, UnwrapCause, WrapCause};
ghost use Rattle.keyring_trait.specs.Keyring.{Wraps, WrapsBy, refusal_with, wanted};
ghost use Rattle.keyring_trait.specs.Uses.{AskedOnce};
ghost use Rattle.keydir_keyring.specs.Answers.{FindsAsRaw, IsRawOf, KeyIsReadBy, KeydirAnswers};
ghost use Rattle.keydir_keyring.specs.Answers.{KeydirKeeps, WrapsAsRaw};
ghost use Rattle.keydir_keyring.specs.Keydir.{keydir_meaning};

use crate::keydir::KeydirKeyring;
use crate::reading::read_key;
use context_codec::Context;
use edk_codec::DataKeyEntry;
use esdk_base::Shelf;
use keyring_trait::{DataKey, Keyring, RingError, RingRefusal, Wrapped};
use raw_aes_keyring::{RawAes, RawError};
use std::alloc::Global;

/// Reads the file at each of its two calls, and then does what a raw AES keyring of its 32 bytes
/// does. It makes one entry and refuses nothing. The bytes are those that the shelf gave in that
/// very call, as its calls tell, whether it tells its files or not: they read the file in a row,
/// from its front to its end, and nothing else.
///
/// `KeyringFault` comes wherever a read of the file failed, and wherever the file doesn't have just
/// 32 bytes; only where the shelf's count of faults rose in the call, or the file isn't there, or
/// gave more or fewer than 32 bytes. It raises the keyring's own count. `Memory` comes only where
/// there was a key to read. The shelf's files stay as they are.
///
/// To its callers it shows the keys that the calls of its shelf read so far: a call that answers went
/// by one more, and one that fails by none.
impl<S: Shelf + Drop> Keyring for KeydirKeyring<S> {
    ghost meaning = { λ k. keydir_meaning S.state k };

    fn wraps(&self) -> u32 {
        1
    }

    fn refuses(&self, _has_key: bool) -> Option<RingRefusal> {
        None
    }

    fn on_encrypt(
        &mut self,
        alloc: Global,
        context: &Context,
        random: &[u8],
        key: Option<&DataKey>,
    ) -> Result<Wrapped, RingError>
        requires { length random.now ≡ wanted (is_some key)
            (keydir_meaning S.state self.old).wraps }
        ensures goes { KeyringGoes (keydir_meaning S.state self.old)
            (keydir_meaning S.state self.new) }
        ensures wraps { IfOk result (Wraps (keydir_meaning S.state self.old) context.now random.now
            (option_copied key.entry)) }
        ensures used { AskedOnce (keydir_meaning S.state self.old).uses
            (keydir_meaning S.state self.new).uses (WrapsBy (keydir_meaning S.state self.old).wraps
            context.now random.now (option_copied key.entry) result) }
        ensures taken { OnOk result (refusal_with (is_some key.entry)
            (keydir_meaning S.state self.old) ≡ None) }
        ensures cause { IfErr result (WrapCause (refusal_with (is_some key.entry)
            (keydir_meaning S.state self.old)) self.old.faults self.new.faults) }
        ensures keeps { KeydirKeeps S.state self.old self.new }
        ensures answers { KeydirAnswers S.state self.old self.new
            (WrapsAsRaw self.old context.now random.now (option_copied key.entry)) result }
    {
        let mut keyring = self.read(alloc)?;
        keyring.on_encrypt(alloc, context, random, key)
    }

    fn on_decrypt(
        &mut self,
        alloc: Global,
        context: &Context,
        entries: &[DataKeyEntry],
    ) -> Result<Option<DataKey>, RingError>
        ensures goes { KeyringGoes (keydir_meaning S.state self.old)
            (keydir_meaning S.state self.new) }
        ensures opens { IfOk result (Opens (keydir_meaning S.state self.old)
            (keydir_meaning S.state self.new) context.now entries.now) }
        ensures used { AskedOnce (keydir_meaning S.state self.old).uses
            (keydir_meaning S.state self.new).uses (FindsBy context.now entries.now result) }
        ensures cause { IfErr result (UnwrapCause self.old.faults self.new.faults) }
        ensures keeps { KeydirKeeps S.state self.old self.new }
        ensures answers { KeydirAnswers S.state self.old self.new
            (FindsAsRaw self.old context.now entries.now) result }
    {
        let mut keyring = self.read(alloc)?;
        keyring.on_decrypt(alloc, context, entries)
    }
}

impl<S: Shelf> KeydirKeyring<S> {
    /// The raw AES keyring of the key that stands in the file now, which isn't retired.
    fn read(&mut self, alloc: Global) -> Result<RawAes, RingError>
        ensures key { IfOk result (λ keyring. IfSome (keydir_meaning S.state self.old).keys
            (λ keys. keys ≡ keyring ∷ [])) }
        ensures active { IfOk result (λ keyring. keyring.retired ≡ false) }
        ensures keeps { KeydirKeeps S.state self.old self.new }
        ensures answers { KeydirAnswers S.state self.old self.new (IsRawOf self.old) result }
        ensures used { AskedOnce (keydir_meaning S.state self.old).uses
            (keydir_meaning S.state self.new).uses (KeyIsReadBy result) }
    {
        let Some(key) = read_key(&mut self.shelf, self.file.as_str()) else {
            self.faults = self.faults.saturating_add(1);
            return Err(RingError::KeyringFault);
        };
        match RawAes::new(alloc, self.namespace.as_str(), self.name.as_str(), key) {
            Ok(keyring) => Ok(keyring),
            Err(RawError::Memory) => Err(RingError::Memory),
            // A keyring's namespace isn't the reserved one.
            Err(RawError::ReservedNamespace) => unreachable!(),
        }
    }
}
