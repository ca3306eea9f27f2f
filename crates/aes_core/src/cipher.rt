//! The cipher over round keys (FIPS 197, 5.1), on one block in a vector. From the first round key to
//! the last round a state stands in the other basis of the S-box.

ghost use Rattle.std.specs.Prelude.{◌≡◌, ◌<◌, ℕ, List, map, slice_index};
ghost use Rattle.cipher_spec.specs.Aes.{add_round_key, cipher, last_round, round, word_at};
ghost use Rattle.plane_core.specs.Places.{below, shifted};
ghost use Rattle.aes_core.specs.Counters.{without_column};
ghost use Rattle.aes_core.specs.Groups.{state_in};
ghost use Rattle.aes_core.specs.PlaneKeys.{HasVectorKeys, with_constant};

use crate::sbox::{in_basis, out_of_basis, sub_bytes, sub_bytes_in_basis, sum};
use std::simd::prelude::*;

/// The state before the first round: the block with the first round key added.
#[inline(always)]
fn first(x: [u8; 16], k: [u8; 16]) -> u8x16
    ensures { state_in result ≡ add_round_key x k }
{
    in_basis(sum(u8x16::from_array(x), u8x16::from_array(k)))
}

/// ShiftRows (5.1.2).
#[inline(always)]
fn shifted(v: u8x16) -> u8x16
    ensures { (j : ℕ) → j < 16 → slice_index result j ≡ slice_index v (shifted j) }
{
    v.swizzle([0, 5, 10, 15, 4, 9, 14, 3, 8, 13, 2, 7, 12, 1, 6, 11])
}

/// For each byte the one below it in its column, after ShiftRows.
#[inline(always)]
fn one_below(v: u8x16) -> u8x16
    ensures { (j : ℕ) → j < 16 → slice_index result j ≡ slice_index v (shifted (below 1 j)) }
{
    v.swizzle([5, 10, 15, 0, 9, 14, 3, 4, 13, 2, 7, 8, 1, 6, 11, 12])
}

/// For each byte the one two rows below it, after ShiftRows.
#[inline(always)]
fn two_below(v: u8x16) -> u8x16
    ensures { (j : ℕ) → j < 16 → slice_index result j ≡ slice_index v (shifted (below 2 j)) }
{
    v.swizzle([10, 15, 0, 5, 14, 3, 4, 9, 2, 7, 8, 13, 6, 11, 12, 1])
}

/// For each byte the one three rows below it, after ShiftRows.
#[inline(always)]
fn three_below(v: u8x16) -> u8x16
    ensures { (j : ℕ) → j < 16 → slice_index result j ≡ slice_index v (shifted (below 3 j)) }
{
    v.swizzle([15, 0, 5, 10, 3, 4, 9, 14, 7, 8, 13, 2, 11, 12, 1, 6])
}

/// A round with a round key that stands in the other basis, and has the S-box's constant. Each byte
/// comes to twice the image of its own byte after ShiftRows, three times that of the byte below it,
/// and the images of the two further ones.
#[inline(always)]
fn round(s: u8x16, k: [u8; 16]) -> u8x16
    ensures { (key : List ℕ) → state_in k ≡ with_constant key
        → state_in result ≡ round (state_in s) key }
{
    let y = sub_bytes_in_basis(s);
    let thrice = sum(y.once, y.twice);
    let near = sum(shifted(y.twice), one_below(thrice));
    let far = sum(two_below(y.once), three_below(y.once));
    sum(near, sum(far, u8x16::from_array(k)))
}

/// The last round, which has no MixColumns, with a round key that has the S-box's constant.
#[inline(always)]
fn last_round(s: u8x16, k: [u8; 16]) -> [u8; 16]
    ensures { (key : List ℕ) → k ≡ with_constant key → result ≡ last_round (state_in s) key }
{
    sum(shifted(sub_bytes(s)), u8x16::from_array(k)).to_array()
}

/// The block `x` enciphered under round keys in vectors.
#[inline(always)]
pub fn cipher(keys: &[[u8; 16]; 15], x: [u8; 16]) -> [u8; 16]
    ensures { (schedule : List (List ℕ)) → HasVectorKeys keys.now schedule
        → result ≡ cipher schedule x }
{
    let mut state = first(x, keys[0]);
    'rounds: for r in 1..14 {
        let next = round(state, keys[r]);
        state = next;
    }
    last_round(state, keys[14])
}

/// Two blocks enciphered under round keys in vectors, round by round: neither waits for the other,
/// so both take hardly longer than one.
#[inline(always)]
pub fn cipher_two(keys: &[[u8; 16]; 15], x: &[[u8; 16]; 2]) -> [[u8; 16]; 2]
    ensures { (schedule : List (List ℕ)) → HasVectorKeys keys.now schedule
        → result ≡ map (cipher schedule) x.now }
{
    let mut one = first(x[0], keys[0]);
    let mut two = first(x[1], keys[0]);
    'both: for r in 1..14 {
        let next = round(one, keys[r]);
        let other = round(two, keys[r]);
        one = next;
        two = other;
    }
    [last_round(one, keys[14]), last_round(two, keys[14])]
}

/// Four blocks enciphered under round keys in vectors, two at a time.
#[inline(always)]
pub fn cipher_four(keys: &[[u8; 16]; 15], x: &[[u8; 16]; 4]) -> [[u8; 16]; 4]
    ensures { (schedule : List (List ℕ)) → HasVectorKeys keys.now schedule
        → result ≡ map (cipher schedule) x.now }
{
    let first = cipher_two(keys, &[x[0], x[1]]);
    let second = cipher_two(keys, &[x[2], x[3]]);
    [first[0], first[1], second[0], second[1]]
}

/// The state after the first round (FIPS 197, 5.1).
#[inline(always)]
pub fn after_first_round(keys: &[[u8; 16]; 15], x: [u8; 16]) -> [u8; 16]
    ensures { (schedule : List (List ℕ)) → HasVectorKeys keys.now schedule
        → result ≡ round (add_round_key x (word_at schedule 0)) (word_at schedule 1) }
{
    out_of_basis(round(first(x, keys[0]), keys[1])).to_array()
}

/// A round on a state that has zeros in column 0, and else the bytes of `s`, with a round key that
/// stands in the other basis, and has the S-box's constant.
#[inline(always)]
pub fn round_without_column(s: [u8; 16], k: [u8; 16]) -> [u8; 16]
    ensures { (key : List ℕ) → state_in k ≡ with_constant key
        → result ≡ round (without_column s) key }
{
    let state = [
        0, 0, 0, 0, s[4], s[5], s[6], s[7], s[8], s[9], s[10], s[11], s[12], s[13], s[14], s[15],
    ];
    out_of_basis(round(in_basis(u8x16::from_array(state)), k)).to_array()
}
