//! Eight blocks in planes of 16 bytes.

ghost use Rattle.std.specs.Prelude.{◌≡◌, ℕ, ◌<◌, [], length, map, slice_index, slice_index_or};
ghost use Rattle.std.specs.List.{range_with_len};
ghost use Rattle.plane_core.specs.Bits.{block};
ghost use Rattle.plane_core.specs.Places.{lane, lane_bit};

use crate::grid::transposed;
use crate::planes::Planes;
use std::simd::prelude::*;

/// The bytes of a state, row by row where they go column by column, and the other way round.
#[inline(always)]
fn exchanged(v: u8x16) -> u8x16
    ensures lanes { (j : ℕ) → j < 16 → slice_index result j ≡ slice_index v (lane j) }
    ensures long { length result ≡ 16 }
    ensures bytes { (j : ℕ) → slice_index result j < 256 }
{
    v.swizzle([0, 4, 8, 12, 1, 5, 9, 13, 2, 6, 10, 14, 3, 7, 11, 15])
}

/// A block as a vector, whose lanes go row by row.
#[inline(always)]
pub(crate) fn vector(x: [u8; 16]) -> u8x16
    ensures lanes { (j : ℕ) → j < 16 → slice_index result (lane j) ≡ slice_index x j }
    ensures long { length x ≡ 16 }
    ensures bytes { (j : ℕ) → slice_index x j < 256 }
{
    exchanged(u8x16::from_array(x))
}

/// A vector, whose lanes go row by row, as a block.
#[inline(always)]
pub(crate) fn array(v: u8x16) -> [u8; 16]
    ensures lanes { (j : ℕ) → j < 16 → slice_index v (lane j) ≡ slice_index result j }
    ensures long { length result ≡ 16 }
    ensures bytes { (j : ℕ) → slice_index result j < 256 }
{
    exchanged(v).to_array()
}

/// Eight blocks as planes.
#[inline(always)]
pub fn loaded(x: &[[u8; 16]; 8]) -> Planes<u8x16>
    ensures { (b : ℕ) → b < 8 → block lane_bit result b ≡ slice_index_or x.now b [] }
{
    transposed(&Planes {
        b0: vector(x[0]),
        b1: vector(x[1]),
        b2: vector(x[2]),
        b3: vector(x[3]),
        b4: vector(x[4]),
        b5: vector(x[5]),
        b6: vector(x[6]),
        b7: vector(x[7]),
    })
}

/// Planes as eight blocks.
#[inline(always)]
pub fn stored(x: &Planes<u8x16>) -> [[u8; 16]; 8]
    ensures { result ≡ map (block lane_bit x.now) (range_with_len 0 8) }
{
    let blocks = transposed(x);
    [
        array(blocks.b0),
        array(blocks.b1),
        array(blocks.b2),
        array(blocks.b3),
        array(blocks.b4),
        array(blocks.b5),
        array(blocks.b6),
        array(blocks.b7),
    ]
}
