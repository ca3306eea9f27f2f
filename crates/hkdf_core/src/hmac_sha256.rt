//! HMAC, the keyed hash of RFC 2104, with SHA-256.

ghost use Rattle.std.specs.Prelude.{◌≡◌, ◌++◌, ℕ, List};
ghost use Rattle.sha2.specs.Sha256.{sha256};
ghost use Rattle.sha2.specs.Hashers.{Holds256};
ghost use Rattle.cipher_spec.specs.Hmac.{hmac256, key_block, pad_added};

use crate::blocks::{INNER_PAD, OUTER_PAD, pad_added, zero_padded};
use sha2::{Digest, Sha256};

/// How many bytes a block of SHA-256 has.
pub(crate) const BLOCK: usize = 64;

/// The HMAC of a text under a key (RFC 2104, section 2). Both may have any length.
#[tactic(auto, unfolding(cipher_spec::specs::Hmac::hmac256, cipher_spec::specs::Hmac::hmac, cipher_spec::specs::Hmac::keyed_digest))]
pub fn hmac256(key: &[u8], text: &[u8]) -> [u8; 32]
    ensures { result ≡ hmac256 key.now text.now }
{
    let block = key_block(key);
    let mut inner = inner_hasher(&block);
    inner.update(text);
    outer_digest(&block, inner)
}

/// The key as one block: a key longer than a block is hashed first (RFC 2104, section 2).
#[tactic(auto, unfolding(cipher_spec::specs::Hmac::key_block))]
pub(crate) fn key_block(key: &[u8]) -> [u8; BLOCK]
    ensures { result ≡ key_block sha256 BLOCK key.now }
{
    if key.len() > BLOCK {
        return zero_padded(&Sha256::digest(key));
    }
    zero_padded(key)
}

/// A hasher that has taken the key's block with the inner pad, and waits for the text.
pub(crate) fn inner_hasher(block: &[u8; BLOCK]) -> Sha256
    ensures { Holds256 result (pad_added INNER_PAD block.now) }
{
    let mut hasher = Sha256::new();
    hasher.update(pad_added(INNER_PAD, block));
    hasher
}

/// The hash of the key's block with the outer pad and the digest of what the inner hasher took.
pub(crate) fn outer_digest(block: &[u8; BLOCK], inner: Sha256) -> [u8; 32]
    ensures { (m : List ℕ) → Holds256 inner m → result ≡ sha256
        (pad_added OUTER_PAD block.now ++ sha256 m) }
{
    let mut hasher = Sha256::new();
    hasher.update(pad_added(OUTER_PAD, block));
    hasher.update(inner.finalize());
    hasher.finalize()
}
