//! Unwrapping a data key. AWS Encryption SDK Specification, "Raw AES Keyring", OnDecrypt.

ghost use Rattle.std.specs.Prelude.{◌≡◌, ◌∷◌, [], List, ◌≤◌, length, take, drop, IfOk, OnSome};
ghost use Rattle.cipher_spec.specs.Gcm.{opened};
ghost use Rattle.context_codec.specs.Context.{KeyValue, ctx_text};
ghost use Rattle.keyring_trait.specs.Wrapping.{first_some, unwrap, unwrapped};
ghost use Rattle.raw_aes_keyring.specs.Finding.{FindsIv};

use crate::raw_aes::RawAes;
use crate::wrapping::whole_text;
use context_codec::Context;
use edk_codec::{DataKeyEntry, info_parts};
use esdk_fields::array_of;
use gcm_core::GcmOpener;
use keyring_trait::{DataKey, WrapKey};
use std::alloc::{AllocError, Global};

impl RawAes {
    /// The data key of the first entry that is one of this keyring's key and opens under it, over
    /// the text of the context, which has to be the whole context. An entry of another key, or one
    /// that doesn't open, is passed over. None exactly where no entry is left. Fails only where
    /// memory runs out.
    pub fn unwrap(
        &self,
        alloc: Global,
        context: &Context,
        entries: &[DataKeyEntry],
    ) -> Result<Option<DataKey>, AllocError>
        ensures { IfOk result (λ found. found ≡ unwrapped (self.now ∷ []) entries.now context.now) }
    {
        let first = first_own(&self.key, entries);
        if first == entries.len() {
            return Ok(None);
        }
        let aad = whole_text(alloc, context)?;
        let (_others, left) = entries.split_at(first);
        Ok(first_unwrapped(&self.key, aad.bytes(), left))
    }
}

/// The index of the first entry that is one of this key, or the number of the entries.
fn first_own(key: &WrapKey, entries: &[DataKeyEntry]) -> usize
    ensures inside { result ≤ length entries.now }
    ensures passed { (c : List KeyValue)
        → first_some (unwrap key.now c) entries.now
        ≡ first_some (unwrap key.now c) (drop result entries.now) }
{
    for (at, entry) in entries.iter().enumerate() {
        if iv_of(key, entry).is_some() {
            return at;
        }
    }
    entries.len()
}

/// The data key of the first entry that opens. The text of the context is hashed once, whatever the
/// number of the entries.
fn first_unwrapped(key: &WrapKey, aad: &[u8], entries: &[DataKeyEntry]) -> Option<DataKey>
    requires { length aad.now ≤ 65535 }
    ensures { (c : List KeyValue) → aad.now ≡ ctx_text c
        → result ≡ first_some (unwrap key.now c) entries.now }
{
    let mut opener = GcmOpener::new(&key.key, aad);
    for entry in entries {
        let found = unwrapped_entry(key, &mut opener, entry);
        if found.is_some() {
            return found;
        }
    }
    None
}

/// The data key, where the entry is one of this key and opens under it.
#[tactic(auto, unfolding(keyring_trait::specs::Wrapping::unwrap))]
fn unwrapped_entry(
    key: &WrapKey,
    opener: &mut GcmOpener<'_>,
    entry: &DataKeyEntry,
) -> Option<DataKey>
    requires { opener.old.key ≡ key.now.key }
    ensures key { (c : List KeyValue) → opener.old.aad ≡ ctx_text c
        → result ≡ unwrap key.now c entry.now }
    ensures same { opener.new ≡ opener.old }
{
    match iv_of(key, entry) {
        Some(iv) => opened_key(opener, &iv, entry.cipher()),
        None => None,
    }
}

/// The IV, where the entry is one of this key: where it has the key's namespace and name, and a
/// ciphertext of 32 bytes with a tag of 16.
fn iv_of(key: &WrapKey, entry: &DataKeyEntry) -> Option<[u8; 12]>
    ensures iv { FindsIv key.now entry.now result }
    ensures long { OnSome result (length entry.now.cipher ≡ 48) }
{
    if entry.provider() != key.namespace.as_str().as_bytes() {
        return None;
    }
    if entry.cipher().len() != 48 {
        return None;
    }
    info_parts(entry.info(), key.name.as_str().as_bytes())
}

/// The data key that a ciphertext with its tag holds, where the tag is right.
fn opened_key(opener: &mut GcmOpener<'_>, iv: &[u8; 12], cipher: &[u8]) -> Option<DataKey>
    requires { length cipher.now ≡ 48 }
    ensures key { result
        ≡ opened opener.old.key iv.now opener.old.aad (take 32 cipher.now) (drop 32 cipher.now) }
    ensures same { opener.new ≡ opener.old }
{
    let (sealed, tag) = cipher.split_at(32);
    let mut bytes: [u8; 32] = array_of(sealed);
    let right: [u8; 16] = array_of(tag);
    if opener.open_in_place(iv, &mut bytes, &right) {
        Some(DataKey::new(bytes))
    } else {
        None
    }
}
