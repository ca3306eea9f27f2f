//! A key that opens many texts over the same associated data.

ghost use Rattle.std.specs.Prelude.{◌≡◌, ◌+◌, ◌-◌, ◌^◌, ◌≤◌, false, length, if◌then◌else◌, Some};
ghost use Rattle.std.specs.Prelude.{None};
ghost use Rattle.cipher_spec.specs.Gcm.{opened};

use crate::authentication::{begin_over, hasher_of, tag_mask};
use crate::seal::open_hashing;
use aes_core::Key256;
use ghash_core::Ghash;
use std::marker::Model;

/// A key of AES-256-GCM that opens many texts over the same associated data, which is taken into
/// the hash but once (SP 800-38D, section 7.2, steps 5 and 6). A contract sees the key's 32 bytes
/// and the associated data.
#[derive(Drop)]
pub struct GcmOpener<'a> {
    cipher: Key256,
    hash: Ghash,
    aad: &'a [u8],
    aad_hash: u128,
}

impl<'a> Model for GcmOpener<'a> {
    ghost use Rattle.std.specs.Prelude.{◌≡◌, ◌^◌, ◌≤◌, length};
    ghost use Rattle.cipher_spec.specs.Ghash.{ghash};
    ghost use Rattle.cipher_spec.specs.Gcm.{blocks, hash_key};
    ghost use Rattle.gcm_core.specs.KeyOver.{KeyOver};

    ghost Value = { KeyOver };

    ghost view = { λ o. record { key = o.cipher; aad = o.aad.now } };

    ghost invariant = { λ o. (o.hash.key ≡ hash_key o.cipher)
        × (o.aad_hash ≡ ghash (hash_key o.cipher) (blocks o.aad.now))
        × (length o.aad.now ≤ 2 ^ 32) };
}

impl<'a> GcmOpener<'a> {
    /// The key of these 32 bytes over the associated data.
    pub fn new(key: &[u8; 32], aad: &'a [u8]) -> GcmOpener<'a>
        requires { length aad.now ≤ 2 ^ 32 }
        ensures { result ≡ record { key = key.now; aad = aad.entry.now } }
    {
        let cipher = Key256::new(key);
        let mut hash = hasher_of(&cipher);
        begin_over(&mut hash, aad, &[]);
        let aad_hash = hash.hash();
        GcmOpener {
            cipher,
            hash,
            aad,
            aad_hash,
        }
    }

    /// Answers whether the tag is that of the associated data and the ciphertext in `text`. If it
    /// is, the text is deciphered in place; if it isn't, nothing is changed.
    pub fn open_in_place(&mut self, iv: &[u8; 12], text: &mut [u8], tag: &[u8; 16]) -> bool
        requires { length text.old ≤ 2 ^ 36 - 32 }
        ensures answer { opened self.old.key iv.now self.old.aad text.old tag.now
            ≡ (if result then Some text.new else None) }
        ensures kept { result ≡ false → text.new ≡ text.old }
        ensures same { self.new ≡ self.old }
    {
        self.hash.resume(self.aad_hash);
        let mask = tag_mask(&self.cipher, iv);
        open_hashing(
            &self.cipher,
            &mask,
            &mut self.hash,
            iv,
            self.aad,
            &[],
            text,
            tag,
        )
    }
}
