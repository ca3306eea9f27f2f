//! The key schedule of a key of 32 bytes (FIPS 197, 5.2).

ghost use Rattle.std.specs.Prelude.{◌≡◌, ◌<◌, ◌≤◌, ◌∷◌, [], map};
ghost use Rattle.std.specs.List.{range_with_len};
ghost use Rattle.cipher_spec.specs.Aes.{add_word, changed, key_expansion, key_word, rcon, rot_word};
ghost use Rattle.cipher_spec.specs.Aes.{round_key, round_keys, sub_word, words};
ghost use Rattle.aes_core.specs.PlaneKeys.{HasVectorKeys};

use crate::constant::{CONSTANT, with_constant};
use crate::sbox::{in_basis, sub_bytes, sum};
use std::simd::prelude::*;

/// The first bytes of Rcon[0] to Rcon[7]. Rcon[0] isn't used.
const RCON: [u8; 8] = [0x00, 0x01, 0x02, 0x04, 0x08, 0x10, 0x20, 0x40];

/// The sum of two words.
fn add_word(a: [u8; 4], b: [u8; 4]) -> [u8; 4]
    ensures { result ≡ add_word a b }
{
    [a[0] ^ b[0], a[1] ^ b[1], a[2] ^ b[2], a[3] ^ b[3]]
}

/// SubWord: the S-box on each byte.
// In a function of its own, so that the words which go without it aren't put together byte by byte.
#[inline(never)]
fn sub_word(a: [u8; 4]) -> [u8; 4]
    ensures { result ≡ sub_word a }
{
    let bytes = [a[0], a[1], a[2], a[3], 0, 0, 0, 0, 0, 0, 0, 0, 0, 0, 0, 0];
    let images = sub_bytes(in_basis(u8x16::from_array(bytes)));
    let word = sum(images, u8x16::splat(CONSTANT)).to_array();
    [word[0], word[1], word[2], word[3]]
}

/// RotWord: each byte moves one place to the left, around the end.
fn rot_word(a: [u8; 4]) -> [u8; 4]
    ensures { result ≡ rot_word a }
{
    [a[1], a[2], a[3], a[0]]
}

/// Rcon[i].
fn rcon(i: usize) -> [u8; 4]
    requires one { 0 < i }
    requires few { i < 8 }
    ensures { result ≡ rcon i }
{
    [RCON[i], 0, 0, 0]
}

/// What is added to w[i - 8] for w[i], from w[i - 1].
fn changed(i: usize, temp: [u8; 4]) -> [u8; 4]
    requires first { 8 ≤ i }
    requires last { i < 60 }
    ensures { result ≡ changed i temp }
{
    if i % 8 == 0 {
        add_word(sub_word(rot_word(temp)), rcon(i / 8))
    } else if i % 8 == 4 {
        sub_word(temp)
    } else {
        temp
    }
}

/// w[i] for i below 8: the key's bytes from 4 i on.
fn key_word(key: &[u8; 32], i: usize) -> [u8; 4]
    requires { i < 8 }
    ensures { result ≡ key_word key.now i }
{
    [key[4 * i], key[4 * i + 1], key[4 * i + 2], key[4 * i + 3]]
}

/// The key's own 8 words.
fn key_words(key: &[u8; 32]) -> [[u8; 4]; 8]
    ensures { result ≡ words key.now 0 }
{
    [
        key_word(key, 0),
        key_word(key, 1),
        key_word(key, 2),
        key_word(key, 3),
        key_word(key, 4),
        key_word(key, 5),
        key_word(key, 6),
        key_word(key, 7),
    ]
}

/// KeyExpansion: the 60 words of the key schedule.
fn key_expansion(key: &[u8; 32]) -> [[u8; 4]; 60]
    ensures { result ≡ key_expansion key.now }
{
    let mut w = [[0; 4]; 60];
    w[..8].copy_from_slice(&key_words(key));
    'words: for i in 8..60 {
        w[i] = add_word(w[i - 8], changed(i, w[i - 1]));
    }
    w
}

/// A round key, from its four words as columns.
fn joined(a: [u8; 4], b: [u8; 4], c: [u8; 4], d: [u8; 4]) -> [u8; 16]
    ensures { result ≡ round_key (a ∷ b ∷ c ∷ d ∷ []) 0 }
{
    [
        a[0], a[1], a[2], a[3], b[0], b[1], b[2], b[3], c[0], c[1], c[2], c[3], d[0], d[1], d[2],
        d[3],
    ]
}

/// The 15 round keys of a key schedule.
fn cut(w: &[[u8; 4]; 60]) -> [[u8; 16]; 15]
    ensures { result ≡ map (round_key w.now) (range_with_len 0 15) }
{
    let mut keys = [[0; 16]; 15];
    'keys: for r in 0..15 {
        keys[r] = joined(w[4 * r], w[4 * r + 1], w[4 * r + 2], w[4 * r + 3]);
    }
    keys
}

/// The 15 round keys of a key.
pub fn round_keys(key: &[u8; 32]) -> [[u8; 16]; 15]
    ensures { result ≡ round_keys key.now }
{
    cut(&key_expansion(key))
}

/// The round keys of a key schedule as the rounds on vectors take them.
pub fn vector_keys(schedule: &[[u8; 16]; 15]) -> [[u8; 16]; 15]
    ensures { HasVectorKeys result schedule.now }
{
    let mut keys = *schedule;
    'inner: for r in 1..14 {
        keys[r] = in_basis(u8x16::from_array(with_constant(schedule[r]))).to_array();
    }
    keys[14] = with_constant(schedule[14]);
    keys
}
