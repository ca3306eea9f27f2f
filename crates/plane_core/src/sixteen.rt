//! Sixteen blocks in planes of 32 bytes: eight in each half.

ghost use Rattle.std.specs.Prelude.{◌≡◌, ℕ, ◌+◌, ◌%◌, ◌<◌, [], ◌++◌, length, map, slice_index};
ghost use Rattle.std.specs.Prelude.{slice_index_or};
ghost use Rattle.std.specs.List.{range_with_len};
ghost use Rattle.plane_core.specs.Bits.{block};
ghost use Rattle.plane_core.specs.Places.{lane, lane_bit, wide_bit};

use crate::eight::{array, vector};
use crate::grid::transposed;
use crate::planes::Planes;
use std::simd::prelude::*;

/// Two vectors as the halves of one.
#[inline(always)]
fn joined(low: u8x16, high: u8x16) -> u8x32
    ensures low { (j : ℕ) → j < 16 → slice_index result j ≡ slice_index low j }
    ensures high { (j : ℕ) → j < 16 → slice_index result (16 + j) ≡ slice_index high j }
{
    low.shuffle(
        high,
        [
            0, 1, 2, 3, 4, 5, 6, 7, 8, 9, 10, 11, 12, 13, 14, 15, 16, 17, 18, 19, 20, 21, 22, 23,
            24, 25, 26, 27, 28, 29, 30, 31,
        ],
    )
}

/// The lower half of a vector.
#[inline(always)]
fn low(v: u8x32) -> u8x16
    ensures { (j : ℕ) → j < 16 → slice_index result j ≡ slice_index v j }
{
    v.extract::<0, 16>()
}

/// The upper half of a vector.
#[inline(always)]
fn high(v: u8x32) -> u8x16
    ensures { (j : ℕ) → j < 16 → slice_index result j ≡ slice_index v (16 + j) }
{
    v.extract::<16, 16>()
}

/// Two blocks as a vector, each half of which goes row by row.
#[inline(always)]
fn pair(x: [u8; 16], y: [u8; 16]) -> u8x32
    ensures low { (j : ℕ) → j < 16 → slice_index result (lane j) ≡ slice_index x j }
    ensures high { (j : ℕ) → j < 16 → slice_index result (16 + lane j) ≡ slice_index y j }
    ensures long { length x ≡ 16 }
    ensures long_high { length y ≡ 16 }
    ensures bytes { (j : ℕ) → slice_index x j < 256 }
    ensures bytes_high { (j : ℕ) → slice_index y j < 256 }
{
    joined(vector(x), vector(y))
}

/// Sixteen blocks as planes.
#[inline(always)]
pub fn loaded(x: &[[u8; 16]; 16]) -> Planes<u8x32>
    ensures { (b : ℕ) → b < 16 → block wide_bit result b ≡ slice_index_or x.now b [] }
{
    transposed(&Planes {
        b0: pair(x[0], x[8]),
        b1: pair(x[1], x[9]),
        b2: pair(x[2], x[10]),
        b3: pair(x[3], x[11]),
        b4: pair(x[4], x[12]),
        b5: pair(x[5], x[13]),
        b6: pair(x[6], x[14]),
        b7: pair(x[7], x[15]),
    })
}

/// Planes as sixteen blocks.
#[inline(always)]
pub fn stored(x: &Planes<u8x32>) -> [[u8; 16]; 16]
    ensures { result ≡ map (block wide_bit x.now) (range_with_len 0 16) }
{
    let blocks = transposed(x);
    [
        array(low(blocks.b0)),
        array(low(blocks.b1)),
        array(low(blocks.b2)),
        array(low(blocks.b3)),
        array(low(blocks.b4)),
        array(low(blocks.b5)),
        array(low(blocks.b6)),
        array(low(blocks.b7)),
        array(high(blocks.b0)),
        array(high(blocks.b1)),
        array(high(blocks.b2)),
        array(high(blocks.b3)),
        array(high(blocks.b4)),
        array(high(blocks.b5)),
        array(high(blocks.b6)),
        array(high(blocks.b7)),
    ]
}

/// Planes of eight blocks, in both halves.
#[inline(always)]
pub fn twice(x: &Planes<u8x16>) -> Planes<u8x32>
    ensures { (b : ℕ) → block wide_bit result b ≡ block lane_bit x.now (b % 8) }
{
    Planes {
        b0: joined(x.b0, x.b0),
        b1: joined(x.b1, x.b1),
        b2: joined(x.b2, x.b2),
        b3: joined(x.b3, x.b3),
        b4: joined(x.b4, x.b4),
        b5: joined(x.b5, x.b5),
        b6: joined(x.b6, x.b6),
        b7: joined(x.b7, x.b7),
    }
}

/// Planes of eight blocks and of eight more, as planes of sixteen.
#[inline(always)]
pub fn halves(x: &Planes<u8x16>, y: &Planes<u8x16>) -> Planes<u8x32>
    ensures low { (b : ℕ) → b < 8 → block wide_bit result b ≡ block lane_bit x.now b }
    ensures high { (b : ℕ) → b < 8 → block wide_bit result (8 + b) ≡ block lane_bit y.now b }
{
    Planes {
        b0: joined(x.b0, y.b0),
        b1: joined(x.b1, y.b1),
        b2: joined(x.b2, y.b2),
        b3: joined(x.b3, y.b3),
        b4: joined(x.b4, y.b4),
        b5: joined(x.b5, y.b5),
        b6: joined(x.b6, y.b6),
        b7: joined(x.b7, y.b7),
    }
}
