//! Sealing and opening (SP 800-38D, sections 7.1 and 7.2).

ghost use Rattle.std.specs.Prelude.{◌≡◌, ◌↔◌, ◌+◌, ◌-◌, ◌^◌, ◌≤◌, List, ℕ, ◌++◌, true, false};
ghost use Rattle.std.specs.Prelude.{length, if◌then◌else◌, Some, None};
ghost use Rattle.std.specs.Int.{w32, to_be_bytes};
ghost use Rattle.cipher_spec.specs.Ghash.{ghash, ghash_from};
ghost use Rattle.cipher_spec.specs.Aes.{aes};
ghost use Rattle.cipher_spec.specs.Gcm.{blocks, gctr, hash_key, opened, pre_counter, sealed};

use crate::absorbing::absorb;
use crate::authentication::{begin_over, finished_tag, subkey_and_mask};
use crate::comparing::same;
use crate::counter_mode::{TEXT_COUNT, gctr};
use aes_core::Key256;
use ghash_core::Ghash;

/// A text is sealed in pieces of so many bytes, each of which is still in the first cache when it
/// is hashed.
const PIECE: usize = 4096;

/// The blocks of a piece.
const PIECE_BLOCKS: u32 = 256;

/// Enciphers the text in place from the count `TEXT_COUNT` on, and takes the ciphertext into the
/// hash.
fn encipher_and_absorb(key: &Key256, iv: &[u8; 12], hash: &mut Ghash, text: &mut [u8])
    requires { length text.old ≤ 2 ^ 36 - 32 }
    ensures enciphered { text.new ≡ gctr key.now (iv.now ++ to_be_bytes w32 2) text.old }
    ensures hashed { hash.new
        ≡ record {
          key = hash.old.key;
          hash = ghash_from hash.old.key hash.old.hash (blocks text.new);
        } }
{
    let pieces = text.len() / PIECE;
    let mut count = TEXT_COUNT;
    'pieces: for k in 0..pieces {
        let piece = &mut text[PIECE * k..PIECE * k + PIECE];
        gctr(key, iv, count, piece);
        absorb(hash, piece);
        count = count.wrapping_add(PIECE_BLOCKS);
    }
    let rest = &mut text[PIECE * pieces..];
    gctr(key, iv, count, rest);
    absorb(hash, rest);
}

/// Enciphers the text in place, and answers the tag, by its mask and a hasher under the key's hash
/// subkey that took the associated data alone.
pub fn seal_hashing(
    key: &Key256,
    mask: &[u8; 16],
    hash: &mut Ghash,
    iv: &[u8; 12],
    first: &[u8],
    second: &[u8],
    text: &mut [u8],
) -> [u8; 16]
    requires short { length text.old ≤ 2 ^ 36 - 32 }
    requires few { length first.now + length second.now ≤ 2 ^ 32 }
    requires mask { mask.now ≡ aes key.now (pre_counter iv.now) }
    requires begun { hash.old
        ≡ record {
          key = hash_key key.now;
          hash = ghash (hash_key key.now) (blocks (first.now ++ second.now));
        } }
    ensures sealed { (text.new, result) ≡ sealed key.now iv.now (first.now ++ second.now) text.old }
    ensures kept { hash.new.key ≡ hash.old.key }
{
    encipher_and_absorb(key, iv, hash, text);
    finished_tag(mask, hash, first.len() + second.len(), text.len())
}

/// Enciphers the text in place, and answers the tag over the associated data, which is `first` and
/// then `second`, and the ciphertext (section 7.1). It is for one text under the key; a `GcmKey` is
/// for many.
pub fn seal_in_place(
    key: &Key256,
    iv: &[u8; 12],
    first: &[u8],
    second: &[u8],
    text: &mut [u8],
) -> [u8; 16]
    requires short { length text.old ≤ 2 ^ 36 - 32 }
    requires few { length first.now + length second.now ≤ 2 ^ 32 }
    ensures { (text.new, result) ≡ sealed key.now iv.now (first.now ++ second.now) text.old }
{
    let made = subkey_and_mask(key, iv);
    let mut hash = Ghash::in_place(made[0]);
    begin_over(&mut hash, first, second);
    seal_hashing(key, &made[1], &mut hash, iv, first, second, text)
}

/// Answers whether the tag is right, and deciphers the text in place if it is, by the mask of the
/// tag and a hasher under the key's hash subkey that took the associated data alone.
pub fn open_hashing(
    key: &Key256,
    mask: &[u8; 16],
    hash: &mut Ghash,
    iv: &[u8; 12],
    first: &[u8],
    second: &[u8],
    text: &mut [u8],
    tag: &[u8; 16],
) -> bool
    requires short { length text.old ≤ 2 ^ 36 - 32 }
    requires few { length first.now + length second.now ≤ 2 ^ 32 }
    requires mask { mask.now ≡ aes key.now (pre_counter iv.now) }
    requires begun { hash.old
        ≡ record {
          key = hash_key key.now;
          hash = ghash (hash_key key.now) (blocks (first.now ++ second.now));
        } }
    ensures answer { opened key.now iv.now (first.now ++ second.now) text.old tag.now
        ≡ (if result then Some text.new else None) }
    ensures kept { result ≡ false → text.new ≡ text.old }
    ensures subkey { hash.new.key ≡ hash.old.key }
{
    absorb(hash, text);
    let right = finished_tag(mask, hash, first.len() + second.len(), text.len());
    if !same(&right, tag) {
        return false;
    }
    gctr(key, iv, TEXT_COUNT, text);
    true
}

/// Answers whether the tag is that of the associated data, `first` and then `second`, and the
/// ciphertext in `text` (section 7.2). If it is, the text is deciphered in place; if it isn't,
/// nothing is changed. It is for one text under the key; a `GcmKey` is for many.
pub fn open_in_place(
    key: &Key256,
    iv: &[u8; 12],
    first: &[u8],
    second: &[u8],
    text: &mut [u8],
    tag: &[u8; 16],
) -> bool
    requires short { length text.old ≤ 2 ^ 36 - 32 }
    requires few { length first.now + length second.now ≤ 2 ^ 32 }
    ensures answer { opened key.now iv.now (first.now ++ second.now) text.old tag.now
        ≡ (if result then Some text.new else None) }
    ensures kept { result ≡ false → text.new ≡ text.old }
    // What was sealed opens, and nothing else does.
    ensures exact { (t : List ℕ)
        → (opened key.now iv.now (first.now ++ second.now) text.old tag.now ≡ Some t)
        ↔ (sealed key.now iv.now (first.now ++ second.now) t ≡ (text.old, tag.now)) }
{
    let made = subkey_and_mask(key, iv);
    let mut hash = Ghash::in_place(made[0]);
    begin_over(&mut hash, first, second);
    open_hashing(key, &made[1], &mut hash, iv, first, second, text, tag)
}
