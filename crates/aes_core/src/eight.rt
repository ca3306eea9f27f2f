//! Eight blocks at once in bit planes, with the S-box as a circuit of gates.

ghost use Rattle.std.specs.Prelude.{◌≡◌, ℕ, ◌<◌, List, [], map, slice_index_or};
ghost use Rattle.cipher_spec.specs.Aes.{cipher, last_round, round};
ghost use Rattle.plane_core.specs.Bits.{block};
ghost use Rattle.plane_core.specs.Places.{lane_bit};
ghost use Rattle.aes_core.specs.PlaneKeys.{HasKeys, with_constant};

use crate::constant::with_constant;
use plane_core::eight::{loaded, stored};
use plane_core::planes::Planes;
use plane_core::{circuit, rounds};
use std::simd::prelude::*;

/// The round keys of a key schedule as planes.
pub fn plane_keys(schedule: &[[u8; 16]; 15]) -> [Planes<u8x16>; 15]
    ensures { HasKeys lane_bit 8 result schedule.now }
{
    let mut keys = [loaded(&[schedule[0]; 8]); 15];
    'keys: for r in 1..15 {
        keys[r] = loaded(&[with_constant(schedule[r]); 8]);
    }
    keys
}

/// A round, where the constant of the S-box is added to the key. ShiftRows comes first, as it may:
/// behind SubBytes the compiler would join it with MixColumns, and shuffle each plane twice.
#[inline(always)]
pub fn round(s: &Planes<u8x16>, key: &Planes<u8x16>) -> Planes<u8x16>
    ensures { (b : ℕ) (k : List ℕ) → block lane_bit key.now b ≡ with_constant k
        → block lane_bit result b ≡ round (block lane_bit s.now b) k }
{
    rounds::mixed_and_keyed(&circuit::sub_bytes(&rounds::shifted(s)), key)
}

/// The last round, where the constant of the S-box is added to the key.
#[inline(always)]
pub fn last_round(s: &Planes<u8x16>, key: &Planes<u8x16>) -> Planes<u8x16>
    ensures { (b : ℕ) (k : List ℕ) → block lane_bit key.now b ≡ with_constant k
        → block lane_bit result b ≡ last_round (block lane_bit s.now b) k }
{
    rounds::keyed(&circuit::sub_bytes(&rounds::shifted(s)), key)
}

/// Eight states after all rounds.
#[inline(always)]
fn states(keys: &[Planes<u8x16>; 15], x: &[[u8; 16]; 8]) -> Planes<u8x16>
    ensures { (schedule : List (List ℕ)) → HasKeys lane_bit 8 keys.now schedule
        → (b : ℕ) → b < 8 → block lane_bit result b ≡ cipher schedule (slice_index_or x.now b []) }
{
    let mut state = rounds::keyed(&loaded(x), &keys[0]);
    'rounds: for r in 1..14 {
        let next = round(&state, &keys[r]);
        state = next;
    }
    last_round(&state, &keys[14])
}

/// Eight blocks, each enciphered under the round keys.
#[inline(always)]
pub fn cipher(keys: &[Planes<u8x16>; 15], x: &[[u8; 16]; 8]) -> [[u8; 16]; 8]
    ensures { (schedule : List (List ℕ)) → HasKeys lane_bit 8 keys.now schedule
        → result ≡ map (cipher schedule) x.now }
{
    stored(&states(keys, x))
}
