//! HMAC, the keyed hash of RFC 2104, with SHA-512.

ghost use Rattle.std.specs.Prelude.{◌≡◌, ◌++◌, ℕ, List};
ghost use Rattle.sha2.specs.Sha512.{sha512};
ghost use Rattle.sha2.specs.Hashers.{Holds512};
ghost use Rattle.cipher_spec.specs.Hmac.{hmac512, key_block, pad_added};

use crate::blocks::{INNER_PAD, OUTER_PAD, pad_added, zero_padded};
use sha2::{Digest, Sha512};

/// How many bytes a block of SHA-512 has.
pub(crate) const BLOCK: usize = 128;

/// The HMAC of a text under a key (RFC 2104, section 2). Both may have any length.
#[tactic(auto, unfolding(cipher_spec::specs::Hmac::hmac512, cipher_spec::specs::Hmac::hmac, cipher_spec::specs::Hmac::keyed_digest))]
pub fn hmac512(key: &[u8], text: &[u8]) -> [u8; 64]
    ensures { result ≡ hmac512 key.now text.now }
{
    let block = key_block(key);
    let mut inner = inner_hasher(&block);
    inner.update(text);
    outer_digest(outer_hasher(&block), inner)
}

/// The key as one block: a key longer than a block is hashed first (RFC 2104, section 2).
#[tactic(auto, unfolding(cipher_spec::specs::Hmac::key_block))]
pub(crate) fn key_block(key: &[u8]) -> [u8; BLOCK]
    ensures { result ≡ key_block sha512 BLOCK key.now }
{
    if key.len() > BLOCK {
        return zero_padded(&Sha512::digest(key));
    }
    zero_padded(key)
}

/// A hasher that has taken the key's block with the inner pad, and waits for the text.
pub(crate) fn inner_hasher(block: &[u8; BLOCK]) -> Sha512
    ensures { Holds512 result (pad_added INNER_PAD block.now) }
{
    let mut hasher = Sha512::new();
    hasher.update(pad_added(INNER_PAD, block));
    hasher
}

/// A hasher that has taken the key's block with the outer pad, and waits for the inner digest.
pub(crate) fn outer_hasher(block: &[u8; BLOCK]) -> Sha512
    ensures { Holds512 result (pad_added OUTER_PAD block.now) }
{
    let mut hasher = Sha512::new();
    hasher.update(pad_added(OUTER_PAD, block));
    hasher
}

/// The hash of what the outer hasher took and the digest of what the inner hasher took.
pub(crate) fn outer_digest(mut outer: Sha512, inner: Sha512) -> [u8; 64]
    ensures { (k m : List ℕ) → Holds512 outer k → Holds512 inner m → result ≡ sha512
        (k ++ sha512 m) }
{
    outer.update(inner.finalize());
    outer.finalize()
}

/// A copy of the hasher, which takes no memory.
pub(crate) fn copy_of(hasher: &Sha512) -> Sha512
    ensures { result ≡ hasher.now }
{
    match hasher.clone() {
        Ok(copy) => copy,
        Err(_) => unreachable!(),
    }
}
