//! Pages: 256 counter blocks whose counts differ in the last byte alone.
//!
//! They have 15 bytes in common. So the first two rounds are done once for a page, but for what
//! comes of the last byte: a table of the key has that for round 1, and the page itself for round 2
//! of a quad, which is four groups of eight counts.

ghost use Rattle.std.specs.Prelude.{◌≡◌, ℕ, ◌/◌, ◌%◌, ◌^◌, ◌<◌, List, [], ◌∷◌, ◌++◌, length};
ghost use Rattle.cipher_spec.specs.Aes.{rounds};
ghost use Rattle.plane_core.specs.Bits.{block};
ghost use Rattle.plane_core.specs.Places.{lane_bit};
ghost use Rattle.aes_core.specs.Counters.{HasColumns, HasPage, last_byte, last_key_byte};
ghost use Rattle.aes_core.specs.Counters.{page_bytes};
ghost use Rattle.aes_core.specs.PlaneKeys.{HasVectorKeys};

use crate::cipher::{after_first_round, round_without_column};
use crate::counter::page_block;
use crate::second_round::{four_times, quad_images, spread};
use plane_core::eight::loaded;
use plane_core::planes::Planes;
use plane_core::rounds::keyed;
use std::simd::prelude::*;

/// A page under a key, as `Key256::counters8` keeps it from one group of counter blocks to the
/// next.
#[derive(Clone, Copy)]
pub struct CounterPage {
    /// The count without its last byte.
    pub(crate) number: u32,
    /// The quad that the images are of: the count without its last five bits.
    pub(crate) quad: u32,
    /// Column 0 of the state after round 1, but for what the last byte adds, four times.
    pub(crate) column: Planes<u8x16>,
    /// The state after round 2, but for what comes of that column, eight times.
    pub(crate) rest: Planes<u8x16>,
    /// The S-box's images of that column in round 2, in each block of the quad.
    pub(crate) images: Planes<u8x16>,
}

/// The page that has the counter block of a count, with the quad of the count. `last_bytes` is the
/// table of the key, `keys` are its round keys in vectors.
#[inline(never)]
pub fn page_of(
    keys: &[[u8; 16]; 15],
    last_bytes: &[Planes<u8x16>; 8],
    iv: &[u8; 12],
    count: u32,
) -> CounterPage
    ensures number { result.number ≡ count / 2 ^ 8 }
    ensures quad { result.quad ≡ count / 32 }
    ensures page { (schedule : List (List ℕ)) → HasVectorKeys keys.now schedule
        → HasColumns last_bytes.now (last_key_byte schedule) → HasPage schedule iv.now result }
{
    let state = after_first_round(keys, page_block(iv, count, keys[0][15]));
    let column = loaded(&[four_times(state); 8]);
    CounterPage {
        number: count / 256,
        quad: count / 32,
        column,
        rest: loaded(&[round_without_column(state, keys[2]); 8]),
        images: quad_images(last_bytes, &column, (count % 256 / 32) as usize),
    }
}

/// Puts the page and the quad of a count in `page`.
#[inline(never)]
pub fn turn(
    keys: &[[u8; 16]; 15],
    last_bytes: &[Planes<u8x16>; 8],
    iv: &[u8; 12],
    count: u32,
    page: &mut CounterPage,
)
    ensures quad { page.new.quad ≡ count / 32 }
    ensures page { (schedule : List (List ℕ)) → HasVectorKeys keys.now schedule
        → HasColumns last_bytes.now (last_key_byte schedule)
        → HasPage schedule iv.now page.old → HasPage schedule iv.now page.new }
{
    if page.number != count / 256 {
        *page = page_of(keys, last_bytes, iv, count);
    } else {
        page.images = quad_images(last_bytes, &page.column, (count % 256 / 32) as usize);
        page.quad = count / 32;
    }
}

/// The states after round 2 of the counter blocks of group `t` of the page's quad.
#[inline(always)]
pub fn group_states(page: &CounterPage, t: u8) -> Planes<u8x16>
    requires { t < 4 }
    ensures { (schedule : List (List ℕ)) (iv : List ℕ) (b : ℕ) → HasPage schedule iv page.now
        → length iv ≡ 12 → b < 8 → block lane_bit result b ≡ rounds schedule
        (page_bytes iv page.now.number ++ last_byte (page.now.quad % 8) t b ∷ []) 2 }
{
    keyed(&page.rest, &spread(&page.images, t))
}
