//! What each call answers.

use crate::call::Call;
use aes_core::Key256;
use gcm_core::{open_in_place, seal_in_place};
use ghash_core::Ghash;
use hkdf_core::{hkdf256, hkdf512, hmac256, hmac512};
use suite_table::{commitment, derived, suite_of};

/// The most bytes of a text or of associated data.
const MOST: usize = 1_048_576;

/// One block, four, eight or sixteen, enciphered by the function that takes so many.
pub fn ecb(call: &mut Call<'_>) {
    let key = Key256::new(&call.array());
    let bytes = call.bytes();
    match bytes.as_chunks() {
        ([block], []) => call.put(&key.block(*block)),
        (blocks, []) => put_enciphered(call, &key, blocks),
        _ => call.refuse("not whole blocks"),
    }
}

fn put_enciphered(call: &mut Call<'_>, key: &Key256, blocks: &[[u8; 16]]) {
    match blocks.len() {
        4 => call.put(key.blocks4(blocks_of(blocks)).as_flattened()),
        8 => call.put(key.blocks8(blocks_of(blocks)).as_flattened()),
        16 => call.put(key.blocks16(blocks_of(blocks)).as_flattened()),
        _ => call.refuse("neither one block, four, eight nor sixteen"),
    }
}

/// Just so many blocks, or zeros.
fn blocks_of<const N: usize>(blocks: &[[u8; 16]]) -> [[u8; 16]; N] {
    let mut all = [[0; 16]; N];
    if blocks.len() == N {
        all.copy_from_slice(blocks);
    }
    all
}

/// Counter blocks, from that of the count on, each enciphered: eight or, where `is_wide`, sixteen,
/// and as many behind them with the page that the first left.
pub fn counters(call: &mut Call<'_>, is_wide: bool) {
    let key = Key256::new(&call.array());
    let iv = call.array();
    let count = u32::from_be_bytes(call.array());
    let mut page = key.page(&iv, count);
    if is_wide {
        call.put(key.counters16(&iv, count, &mut page).as_flattened());
        call.put(
            key.counters16(&iv, count.wrapping_add(16), &mut page)
                .as_flattened(),
        );
    } else {
        call.put(key.counters8(&iv, count, &mut page).as_flattened());
        call.put(
            key.counters8(&iv, count.wrapping_add(8), &mut page)
                .as_flattened(),
        );
    }
}

/// The hash of blocks, taken one by one.
pub fn ghash(call: &mut Call<'_>) {
    let mut hash = Ghash::new(call.array());
    let bytes = call.bytes();
    let (blocks, rest) = bytes.as_chunks();
    put_hash(call, &mut hash, blocks, rest);
}

/// The hash of blocks, taken by fours as long as there are four.
pub fn ghash_by_fours(call: &mut Call<'_>) {
    let mut hash = Ghash::new(call.array());
    let bytes = call.bytes();
    let (blocks, rest) = bytes.as_chunks();
    let (fours, ones) = blocks.as_chunks();
    for four in fours {
        hash.four(*four);
    }
    put_hash(call, &mut hash, ones, rest);
}

/// Takes the blocks one by one, and puts the hash, unless bytes are left that are no whole block.
fn put_hash(call: &mut Call<'_>, hash: &mut Ghash, blocks: &[[u8; 16]], rest: &[u8]) {
    for block in blocks {
        hash.block(*block);
    }
    if !rest.is_empty() {
        call.refuse("not whole blocks");
    }
    call.put(&hash.value());
}

/// The ciphertext and the tag.
pub fn seal(call: &mut Call<'_>) {
    let key = Key256::new(&call.array());
    let iv = call.array();
    let first = call.few_bytes(MOST);
    let second = call.few_bytes(MOST);
    let mut text = call.few_bytes(MOST);
    let tag = seal_in_place(&key, &iv, &first, &second, text.as_mut_slice());
    call.put(&text);
    call.put(&tag);
}

/// Whether the tag is the right one, and what stands in the text then.
pub fn open(call: &mut Call<'_>) {
    let key = Key256::new(&call.array());
    let iv = call.array();
    let first = call.few_bytes(MOST);
    let second = call.few_bytes(MOST);
    let mut text = call.few_bytes(MOST);
    let tag = call.array();
    let opened = open_in_place(&key, &iv, &first, &second, text.as_mut_slice(), &tag);
    call.put_word(if opened { "opened" } else { "refused" });
    call.put(&text);
}

/// The keyed hash of a text, over SHA-512 or SHA-256.
pub fn hmac(call: &mut Call<'_>, is_512: bool) {
    let key = call.bytes();
    let text = call.bytes();
    if is_512 {
        call.put(&hmac512(&key, &text));
    } else {
        call.put(&hmac256(&key, &text));
    }
}

/// As many bytes as `held` has, derived from a key over SHA-512 or SHA-256 and written over it.
pub fn hkdf(call: &mut Call<'_>, is_512: bool) {
    let key = call.bytes();
    let salt = call.bytes();
    let info = call.bytes();
    let mut held = call.few_bytes(16_320);
    if is_512 {
        hkdf512(&key, &salt, &info, held.as_mut_slice());
    } else if held.len() <= 8_160 {
        hkdf256(&key, &salt, &info, held.as_mut_slice());
    } else {
        call.refuse("too many bytes");
    }
    call.put(&held);
}

/// The key that a suite derives from a data key and a message id.
pub fn derived_key(call: &mut Call<'_>) {
    let suite = suite_of(u16::from_be_bytes(call.array()));
    let key = call.array();
    let id = call.bytes();
    match suite {
        Some(suite) if id.len() == suite.id_length() => call.put(&derived(suite, &key, &id)),
        Some(_) => call.refuse("not so many bytes"),
        None => call.refuse("not a suite"),
    }
}

/// The commitment to a data key.
pub fn key_commitment(call: &mut Call<'_>) {
    let key = call.array();
    let id: [u8; 32] = call.array();
    call.put(&commitment(&key, &id));
}

/// Whether the suite of an id of two bytes is known.
pub fn suite(call: &mut Call<'_>) {
    let known = suite_of(u16::from_be_bytes(call.array())).is_some();
    call.put_word(if known { "known" } else { "unknown" });
}
