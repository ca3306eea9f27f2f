//! A key for many texts.

ghost use Rattle.std.specs.Prelude.{◌≡◌, ◌+◌, ◌-◌, ◌^◌, ◌≤◌, ◌++◌, false, length, if◌then◌else◌};
ghost use Rattle.std.specs.Prelude.{Some, None, IfOk};
ghost use Rattle.cipher_spec.specs.Gcm.{opened, sealed};

use crate::authentication::{begin_over, hasher_of, tag_mask};
use crate::seal::{open_hashing, seal_hashing};
use aes_core::Key256;
use ghash_core::Ghash;
use std::alloc::{AllocError, Global};
use std::marker::Model;

/// What is made of a key alone: the cipher's key, ready for use, and a hasher under its hash subkey
/// (SP 800-38D, section 7.1, step 1).
#[derive(Drop)]
struct Tables {
    cipher: Key256,
    hash: Ghash,
}

/// A key of AES-256-GCM for many texts, with what is made of it alone, so that it isn't made anew
/// for each text. These tables are large, and lie on the heap, where they stay when the key is
/// moved. A contract sees the key's 32 bytes.
pub struct GcmKey {
    tables: Box<Tables>,
}

impl Model for GcmKey {
    ghost use Rattle.std.specs.Prelude.{ℕ, List, ◌≡◌};
    ghost use Rattle.cipher_spec.specs.Gcm.{hash_key};

    ghost Value = { List ℕ };

    ghost view = { λ k. k.tables.value.cipher };

    ghost invariant = { λ k. k.tables.value.hash.key ≡ hash_key k.tables.value.cipher };
}

/// The tables of a key of zeros are written over a key's own before their memory is given back.
impl Drop for GcmKey {
    fn drop(mut self) {
        let zeros = Key256::new(&[0; 32]);
        self.tables.hash = hasher_of(&zeros);
        self.tables.cipher = zeros;
        let GcmKey { tables: _ } = self;
    }
}

impl GcmKey {
    /// The key of these 32 bytes. Fails only where memory runs out.
    pub fn new(alloc: Global, key: &[u8; 32]) -> Result<GcmKey, AllocError>
        ensures { IfOk result (λ made. made ≡ key.now) }
    {
        let cipher = Key256::new(key);
        let hash = hasher_of(&cipher);
        Ok(GcmKey {
            tables: Box::new(alloc, Tables { cipher, hash })?,
        })
    }

    /// Enciphers the text in place, and answers the tag over the associated data, which is `first`
    /// and then `second`, and the ciphertext (section 7.1). The initialization vector must be used
    /// for no other text of the key.
    pub fn seal_in_place(
        &mut self,
        iv: &[u8; 12],
        first: &[u8],
        second: &[u8],
        text: &mut [u8],
    ) -> [u8; 16]
        requires short { length text.old ≤ 2 ^ 36 - 32 }
        requires few { length first.now + length second.now ≤ 2 ^ 32 }
        ensures sealed { (text.new, result) ≡ sealed self.old iv.now
            (first.now ++ second.now) text.old }
        ensures same { self.new ≡ self.old }
    {
        let tables = &mut *self.tables;
        begin_over(&mut tables.hash, first, second);
        let mask = tag_mask(&tables.cipher, iv);
        seal_hashing(
            &tables.cipher,
            &mask,
            &mut tables.hash,
            iv,
            first,
            second,
            text,
        )
    }

    /// Answers whether the tag is that of the associated data, `first` and then `second`, and the
    /// ciphertext in `text` (section 7.2). If it is, the text is deciphered in place; if it isn't,
    /// nothing is changed.
    pub fn open_in_place(
        &mut self,
        iv: &[u8; 12],
        first: &[u8],
        second: &[u8],
        text: &mut [u8],
        tag: &[u8; 16],
    ) -> bool
        requires short { length text.old ≤ 2 ^ 36 - 32 }
        requires few { length first.now + length second.now ≤ 2 ^ 32 }
        ensures answer { opened self.old iv.now (first.now ++ second.now) text.old tag.now
            ≡ (if result then Some text.new else None) }
        ensures kept { result ≡ false → text.new ≡ text.old }
        ensures same { self.new ≡ self.old }
    {
        let tables = &mut *self.tables;
        begin_over(&mut tables.hash, first, second);
        let mask = tag_mask(&tables.cipher, iv);
        open_hashing(
            &tables.cipher,
            &mask,
            &mut tables.hash,
            iv,
            first,
            second,
            text,
            tag,
        )
    }
}
