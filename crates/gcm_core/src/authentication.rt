//! The tag over associated data and a ciphertext (SP 800-38D, section 7.1, steps 4 to 6).

ghost use Rattle.std.specs.Prelude.{◌≡◌, ◌+◌, ◌*◌, ◌^◌, ◌<◌, ◌≤◌, ℕ, List, ◌∷◌, [], ◌++◌, length};
ghost use Rattle.std.specs.Prelude.{replicate};
ghost use Rattle.std.specs.Int.{w64, w128, from_be_bytes, to_be_bytes};
ghost use Rattle.cipher_spec.specs.Aes.{aes};
ghost use Rattle.cipher_spec.specs.Ghash.{ghash, ghash_from};
ghost use Rattle.cipher_spec.specs.Gcm.{blocks, gctr, hash_key, pre_counter};

use crate::absorbing::absorb_two;
use crate::counter_mode::TAG_COUNT;
use crate::masks::add_masks;
use aes_core::{Key256, counter_block};
use ghash_core::Ghash;

/// A hasher under the key's hash subkey, which took no blocks (step 1).
pub fn hasher_of(key: &Key256) -> Ghash
    ensures { result ≡ record { key = hash_key key.now; hash = 0 } }
{
    Ghash::new(key.block([0; 16]))
}

/// What masks the tag of a text: its first counter block, enciphered (step 6).
pub fn tag_mask(key: &Key256, iv: &[u8; 12]) -> [u8; 16]
    ensures { result ≡ aes key.now (pre_counter iv.now) }
{
    key.block(counter_block(iv, TAG_COUNT))
}

/// What one text under a key begins with: the hash subkey and the tag's mask, enciphered at once.
pub fn subkey_and_mask(key: &Key256, iv: &[u8; 12]) -> [[u8; 16]; 2]
    ensures { result ≡ aes key.now (replicate 16 0) ∷ aes key.now (pre_counter iv.now) ∷ [] }
{
    key.blocks2([[0; 16], counter_block(iv, TAG_COUNT)])
}

/// Begins anew under the same hash subkey, and takes the associated data into the hash, which is
/// `first` and then `second` (step 5).
pub fn begin_over(hash: &mut Ghash, first: &[u8], second: &[u8])
    requires { length first.now + length second.now ≤ 2 ^ 32 }
    ensures { hash.new
        ≡ record {
          key = hash.old.key;
          hash = ghash hash.old.key (blocks (first.now ++ second.now));
        } }
{
    hash.restart();
    absorb_two(hash, first, second);
}

/// The block of the lengths in bits, 64 bits each, of texts of so many bytes.
fn lengths(aad: usize, cipher: usize) -> [u8; 16]
    requires aad { aad < 2 ^ 60 }
    requires cipher { cipher < 2 ^ 60 }
    ensures { result ≡ to_be_bytes w64 (aad * 8) ++ to_be_bytes w64 (cipher * 8) }
{
    let a = (aad as u64 * 8).to_be_bytes();
    let c = (cipher as u64 * 8).to_be_bytes();
    [
        a[0], a[1], a[2], a[3], a[4], a[5], a[6], a[7], c[0], c[1], c[2], c[3], c[4], c[5], c[6],
        c[7],
    ]
}

/// The tag, once the associated data and the ciphertext, of so many bytes, were taken into the
/// hash, by the mask of the text's tag.
pub fn finished_tag(mask: &[u8; 16], hash: &mut Ghash, aad: usize, cipher: usize) -> [u8; 16]
    requires aad { aad < 2 ^ 60 }
    requires cipher { cipher < 2 ^ 60 }
    ensures tag { (key iv : List ℕ) → mask.now ≡ aes key (pre_counter iv) → result
        ≡ gctr key (pre_counter iv) (to_be_bytes w128 (ghash_from hash.old.key hash.old.hash
        (from_be_bytes w128 (to_be_bytes w64 (aad * 8) ++ to_be_bytes w64 (cipher * 8)) ∷ []))) }
    ensures kept { hash.new.key ≡ hash.old.key }
{
    hash.block(lengths(aad, cipher));
    let mut tag = hash.value();
    add_masks(&mut tag, &[*mask]);
    tag
}
