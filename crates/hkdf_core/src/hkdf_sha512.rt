//! HKDF, the derivation of keys of RFC 5869, with SHA-512.

ghost use Rattle.std.specs.Prelude.{◌≡◌, ◌++◌, ◌∷◌, [], ◌≤◌, length};
ghost use Rattle.sha2.specs.Sha512.{sha512};
ghost use Rattle.cipher_spec.specs.Hmac.{hmac};
ghost use Rattle.cipher_spec.specs.Hkdf.{expand, extract, hkdf512};

use crate::blocks::put;
use crate::hmac_sha512::{
    BLOCK, copy_of, hmac512, inner_hasher, key_block, outer_digest, outer_hasher,
};
use sha2::{Digest, Sha512};
use std::marker::Model;

/// How many bytes a digest of SHA-512 has, the RFC's `HashLen`.
const SIZE: usize = 64;

/// Fills `out` with key material derived from `ikm`: first `extract`, then `expand` (RFC 5869,
/// section 2). An empty salt means a salt of 64 zero bytes, as in the RFC. `out` has at most
/// 255 * 64 bytes; the other arguments may have any length.
#[tactic(auto, unfolding(cipher_spec::specs::Hkdf::hkdf512, cipher_spec::specs::Hkdf::hkdf))]
pub fn hkdf512(ikm: &[u8], salt: &[u8], info: &[u8], out: &mut [u8])
    requires { length out.old ≤ 16320 }
    ensures { out.new ≡ hkdf512 ikm.now salt.now info.now (length out.old) }
{
    let key = PseudorandomKey512::extract(salt, ikm);
    key.expand(info, out);
}

/// A pseudorandom key, the RFC's `PRK`, ready for expanding: the two hashers of HMAC have taken its
/// block, so that an output block takes a copy of each and needn't make it anew. A contract sees
/// the key's 64 bytes.
#[derive(Drop)]
pub struct PseudorandomKey512 {
    key: [u8; SIZE],
    inner: Sha512,
    outer: Sha512,
}

impl Model for PseudorandomKey512 {
    ghost use Rattle.std.specs.Prelude.{ℕ, List};
    ghost use Rattle.sha2.specs.Sha512.{sha512};
    ghost use Rattle.sha2.specs.Hashers.{Holds512};
    ghost use Rattle.cipher_spec.specs.Hmac.{key_block, pad_added};

    ghost Value = { List ℕ };

    ghost view = { λ k. k.key };

    ghost invariant = { λ k. Holds512 k.inner (pad_added 0x36 (key_block sha512 128 k.key))
        × Holds512 k.outer (pad_added 0x5C (key_block sha512 128 k.key)) };
}

impl PseudorandomKey512 {
    /// The pseudorandom key of the salt and the input key (RFC 5869, section 2.2). An empty salt
    /// means a salt of 64 zero bytes, as in the RFC. Both may have any length.
    #[tactic(auto, unfolding(cipher_spec::specs::Hkdf::extract, cipher_spec::specs::Hmac::hmac512))]
    pub fn extract(salt: &[u8], ikm: &[u8]) -> PseudorandomKey512
        ensures { result ≡ extract sha512 BLOCK salt.now ikm.now }
    {
        let key = hmac512(salt, ikm);
        let block = key_block(&key);
        PseudorandomKey512 {
            key,
            inner: inner_hasher(&block),
            outer: outer_hasher(&block),
        }
    }

    /// Fills `out` with the output blocks T(1), T(2) and so on, of which the last may be cut off
    /// (RFC 5869, section 2.3). `out` has at most 255 * 64 bytes; the info may have any length.
    pub fn expand(&self, info: &[u8], out: &mut [u8])
        requires { length out.old ≤ 16320 }
        ensures { out.new ≡ expand sha512 BLOCK SIZE self.now info.now (length out.old) }
    {
        let mut last = [0; SIZE];
        let mut held = 0;
        'each: for i in 0..out.len().div_ceil(SIZE) {
            last = self.output_block(&last[..held], info, (i + 1) as u8);
            held = SIZE;
            put(out, SIZE * i, &last);
        }
    }

    /// T(i), of T(i - 1), the info and the number i (RFC 5869, section 2.3).
    #[tactic(auto, unfolding(cipher_spec::specs::Hmac::hmac, cipher_spec::specs::Hmac::keyed_digest))]
    fn output_block(&self, last: &[u8], info: &[u8], number: u8) -> [u8; SIZE]
        ensures { result ≡ hmac sha512 BLOCK self.now (last.now ++ info.now ++ number ∷ []) }
    {
        let mut inner = copy_of(&self.inner);
        inner.update(last);
        inner.update(info);
        inner.update([number]);
        outer_digest(copy_of(&self.outer), inner)
    }
}
