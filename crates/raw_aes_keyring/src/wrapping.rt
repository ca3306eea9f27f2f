//! Wrapping a data key. AWS Encryption SDK Specification, "Raw AES Keyring", OnEncrypt.

ghost use Rattle.std.specs.Prelude.{◌≡◌, ◌≤◌, false, List, ◌++◌, length, IfOk};
ghost use Rattle.cipher_spec.specs.Gcm.{sealed};
ghost use Rattle.context_codec.specs.Context.{KeyValue, ctx_text};
ghost use Rattle.edk_codec.specs.Entry.{IsEntry};
ghost use Rattle.keyring_trait.specs.Wrapping.{wrap};

use crate::raw_aes::RawAes;
use aes_core::Key256;
use context_codec::Context;
use edk_codec::{DataKeyEntry, raw_info};
use esdk_fields::Blob;
use gcm_core::seal_in_place;
use keyring_trait::{DataKey, WrapKey};
use std::alloc::{AllocError, Global};

impl RawAes {
    /// The entry that wraps the data key under this keyring's key and the IV: its provider is the
    /// namespace, its information the name, the lengths of tag and IV, and the IV, and its
    /// ciphertext the sealed data key with the tag behind it. The text of the context, which has to
    /// be the whole context, is authenticated with it. The key isn't retired, and no two data keys
    /// may be wrapped with one IV. Fails only where memory runs out.
    pub fn wrap(
        &self,
        alloc: Global,
        context: &Context,
        iv: &[u8; 12],
        key: &DataKey,
    ) -> Result<DataKeyEntry, AllocError>
        requires { self.now.retired ≡ false }
        ensures wrap { IfOk result (λ e. e ≡ wrap self.now context.now iv.now key.now) }
        ensures entry { IfOk result IsEntry }
    {
        let aad = whole_text(alloc, context)?;
        wrapped_entry(alloc, &self.key, aad.bytes(), iv, key)
    }
}

/// The entry that wraps the data key.
fn wrapped_entry(
    alloc: Global,
    wrap_key: &WrapKey,
    aad: &[u8],
    iv: &[u8; 12],
    key: &DataKey,
) -> Result<DataKeyEntry, AllocError>
    requires namespace { length wrap_key.now.namespace ≤ 1024 }
    requires name { length wrap_key.now.name ≤ 1024 }
    requires short { length aad.now ≤ 65535 }
    ensures wrap { IfOk result
        (λ e. (c : List KeyValue) → aad.now ≡ ctx_text c → e ≡ wrap wrap_key.now c iv.now key.now) }
    ensures entry { IfOk result IsEntry }
{
    let info = raw_info(alloc, wrap_key.name.as_str().as_bytes(), iv)?;
    let cipher_key = Key256::new(&wrap_key.key);
    let cipher = sealed_key(alloc, &cipher_key, iv, aad, key)?;
    let provider = wrap_key.namespace.as_str().as_bytes();
    DataKeyEntry::new(alloc, provider, info.bytes(), cipher.bytes())
}

/// The text of the context, which is short.
pub(crate) fn whole_text(alloc: Global, context: &Context) -> Result<Blob, AllocError>
    ensures text { IfOk result (λ text. text ≡ ctx_text context.now) }
    ensures short { IfOk result (λ text. length text ≤ 65535) }
{
    // Called for its clause alone, which says that a context's text is short.
    let _length = context.length();
    context.text(alloc)
}

/// The sealed data key, and the tag behind it.
fn sealed_key(
    alloc: Global,
    cipher_key: &Key256,
    iv: &[u8; 12],
    aad: &[u8],
    key: &DataKey,
) -> Result<Blob, AllocError>
    requires { length aad.now ≤ 65535 }
    ensures sealed { IfOk result (λ cipher. cipher
        ≡ (sealed cipher_key.now iv.now aad.now key.now).0
        ++ (sealed cipher_key.now iv.now aad.now key.now).1) }
    ensures long { IfOk result (λ cipher. length cipher ≡ 48) }
{
    let mut text = *key.bytes();
    let tag = seal_in_place(cipher_key, iv, aad, &[], &mut text);
    let mut cipher = Blob::new(alloc);
    cipher.push_all(&text)?;
    cipher.push_all(&tag)?;
    Ok(cipher)
}
