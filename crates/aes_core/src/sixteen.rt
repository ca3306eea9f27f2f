//! Sixteen blocks at once in bit planes of 32 bytes, with the round keys' planes for eight blocks.

ghost use Rattle.std.specs.Prelude.{◌≡◌, ℕ, ◌%◌, ◌<◌, List, [], length, map, slice_index_or};
ghost use Rattle.cipher_spec.specs.Aes.{cipher, last_round, round, rounds};
ghost use Rattle.plane_core.specs.Bits.{block};
ghost use Rattle.plane_core.specs.Places.{lane_bit, wide_bit};
ghost use Rattle.aes_core.specs.PlaneKeys.{HasKeys, with_constant};

use plane_core::planes::Planes;
use plane_core::sixteen::{loaded, stored, twice};
use plane_core::{circuit, rounds};
use std::simd::prelude::*;

/// A round, where the constant of the S-box is added to the key.
#[inline(always)]
fn round(s: &Planes<u8x32>, key: &Planes<u8x16>) -> Planes<u8x32>
    ensures { (b : ℕ) (k : List ℕ) → block lane_bit key.now (b % 8) ≡ with_constant k
        → block wide_bit result b ≡ round (block wide_bit s.now b) k }
{
    rounds::mixed_and_keyed(&circuit::sub_bytes(&rounds::shifted(s)), &twice(key))
}

/// The last round, where the constant of the S-box is added to the key.
#[inline(always)]
fn last_round(s: &Planes<u8x32>, key: &Planes<u8x16>) -> Planes<u8x32>
    ensures { (b : ℕ) (k : List ℕ) → block lane_bit key.now (b % 8) ≡ with_constant k
        → block wide_bit result b ≡ last_round (block wide_bit s.now b) k }
{
    rounds::keyed(&circuit::sub_bytes(&rounds::shifted(s)), &twice(key))
}

/// Sixteen states after all rounds.
#[inline(always)]
fn states(keys: &[Planes<u8x16>; 15], x: &[[u8; 16]; 16]) -> Planes<u8x32>
    ensures { (schedule : List (List ℕ)) → HasKeys lane_bit 8 keys.now schedule
        → (b : ℕ) → b < 16 → block wide_bit result b ≡ cipher schedule (slice_index_or x.now b []) }
{
    let mut state = rounds::keyed(&loaded(x), &twice(&keys[0]));
    'rounds: for r in 1..14 {
        let next = round(&state, &keys[r]);
        state = next;
    }
    last_round(&state, &keys[14])
}

/// Sixteen blocks, each enciphered under the round keys.
#[inline(always)]
pub fn cipher(keys: &[Planes<u8x16>; 15], x: &[[u8; 16]; 16]) -> [[u8; 16]; 16]
    ensures { (schedule : List (List ℕ)) → HasKeys lane_bit 8 keys.now schedule
        → result ≡ map (cipher schedule) x.now }
{
    stored(&states(keys, x))
}

/// Sixteen states after all rounds, from those after round 2 on.
#[inline(always)]
fn last_states(keys: &[Planes<u8x16>; 15], start: &Planes<u8x32>) -> Planes<u8x32>
    ensures { (schedule : List (List ℕ)) (x : List ℕ) (b : ℕ) → HasKeys lane_bit 8 keys.now schedule
        → block wide_bit start.now b ≡ rounds schedule x 2
        → block wide_bit result b ≡ cipher schedule x }
{
    let mut state = *start;
    'each: for r in 3..14 {
        let next = round(&state, &keys[r]);
        state = next;
    }
    last_round(&state, &keys[14])
}

/// Sixteen blocks enciphered under the round keys, from their states after round 2.
#[inline(always)]
pub fn cipher_from(keys: &[Planes<u8x16>; 15], start: &Planes<u8x32>) -> [[u8; 16]; 16]
    ensures { (schedule x : List (List ℕ)) → HasKeys lane_bit 8 keys.now schedule → length x ≡ 16
        → ((b : ℕ) → b < 16 → block wide_bit start.now b
        ≡ rounds schedule (slice_index_or x b []) 2)
        → result ≡ map (cipher schedule) x }
{
    stored(&last_states(keys, start))
}
