//! Eight blocks from their states after round 2 on, in bit planes.

ghost use Rattle.std.specs.Prelude.{◌≡◌, ℕ, ◌<◌, List, [], length, map, slice_index_or};
ghost use Rattle.cipher_spec.specs.Aes.{cipher, rounds};
ghost use Rattle.plane_core.specs.Bits.{block};
ghost use Rattle.plane_core.specs.Places.{lane_bit};
ghost use Rattle.aes_core.specs.PlaneKeys.{HasKeys};

use crate::eight::{last_round, round};
use plane_core::eight::{loaded, stored};
use plane_core::planes::Planes;
use plane_core::rounds::keyed;
use std::simd::prelude::*;

/// Eight states after round 2, of any blocks.
// One group of 32 comes here: in a function of its own it leaves the others' code undisturbed.
#[inline(never)]
pub fn second_states(keys: &[Planes<u8x16>; 15], x: &[[u8; 16]; 8]) -> Planes<u8x16>
    ensures { (schedule : List (List ℕ)) (b : ℕ) → HasKeys lane_bit 8 keys.now schedule → b < 8
        → block lane_bit result b ≡ rounds schedule (slice_index_or x.now b []) 2 }
{
    round(&round(&keyed(&loaded(x), &keys[0]), &keys[1]), &keys[2])
}

/// Eight states after all rounds, from those after round 2 on.
#[inline(always)]
fn last_states(keys: &[Planes<u8x16>; 15], start: &Planes<u8x16>) -> Planes<u8x16>
    ensures { (schedule : List (List ℕ)) (x : List ℕ) (b : ℕ) → HasKeys lane_bit 8 keys.now schedule
        → b < 8 → block lane_bit start.now b ≡ rounds schedule x 2
        → block lane_bit result b ≡ cipher schedule x }
{
    let mut state = *start;
    'each: for r in 3..14 {
        let next = round(&state, &keys[r]);
        state = next;
    }
    last_round(&state, &keys[14])
}

/// Eight blocks enciphered under the round keys, from their states after round 2.
#[inline(always)]
pub fn cipher_from(keys: &[Planes<u8x16>; 15], start: &Planes<u8x16>) -> [[u8; 16]; 8]
    ensures { (schedule x : List (List ℕ)) → HasKeys lane_bit 8 keys.now schedule → length x ≡ 8
        → ((b : ℕ) → b < 8 → block lane_bit start.now b ≡ rounds schedule (slice_index_or x b []) 2)
        → result ≡ map (cipher schedule) x }
{
    stored(&last_states(keys, start))
}
