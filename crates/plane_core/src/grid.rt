//! Words of bytes as rows of bits, and how eight of them are turned into columns.

ghost use Rattle.std.specs.Prelude.{◌≡◌, ℕ, ◌<◌, map, slice_index};
ghost use Rattle.std.specs.List.{range_with_len};
ghost use Rattle.std.specs.Int.{bit_at};
ghost use Rattle.plane_core.specs.Grid.{even_groups, odd_groups, bit_row, plane_word};

use crate::planes::Planes;
use std::simd::prelude::*;

/// Two words.
#[derive(Clone, Copy)]
pub struct Pair<W> {
    pub low: W,
    pub high: W,
}

/// A word of bytes, each of which is a row of eight bits.
///
/// Each call cuts the rows of two words into groups of so many bits, and pairs the groups with even
/// numbers in `low`, and those with odd numbers in `high`: a group of `self`, then one of `other`.
pub trait Grid: Copy {
    /// Bit i of byte k.
    ghost cell: { Self → ℕ → ℕ → ℕ };

    /// Groups of one bit.
    fn ones(self, other: Self) -> Pair<Self>
        ensures low { (k : ℕ) → bit_row cell result.low k ≡ even_groups 1 (bit_row cell self k)
            (bit_row cell other k) }
        ensures high { (k : ℕ) → bit_row cell result.high k ≡ odd_groups 1 (bit_row cell self k)
            (bit_row cell other k) };

    /// Groups of two bits.
    fn twos(self, other: Self) -> Pair<Self>
        ensures low { (k : ℕ) → bit_row cell result.low k ≡ even_groups 2 (bit_row cell self k)
            (bit_row cell other k) }
        ensures high { (k : ℕ) → bit_row cell result.high k ≡ odd_groups 2 (bit_row cell self k)
            (bit_row cell other k) };

    /// Groups of four bits.
    fn fours(self, other: Self) -> Pair<Self>
        ensures low { (k : ℕ) → bit_row cell result.low k ≡ even_groups 4 (bit_row cell self k)
            (bit_row cell other k) }
        ensures high { (k : ℕ) → bit_row cell result.high k ≡ odd_groups 4 (bit_row cell self k)
            (bit_row cell other k) };
}

// The odd groups of `self` change places with the even groups of `other`: a bit of each two that
// change places is flipped where the two differ.
impl Grid for u8x16 {
    ghost cell = { λ v k i. bit_at (slice_index v k) i };

    #[inline(always)]
    fn ones(self, other: u8x16) -> Pair<u8x16> {
        let differing = ((self >> u8x16::splat(1)) ^ other) & u8x16::splat(0x55);
        Pair {
            low: self ^ (differing << u8x16::splat(1)),
            high: other ^ differing,
        }
    }

    #[inline(always)]
    fn twos(self, other: u8x16) -> Pair<u8x16> {
        let differing = ((self >> u8x16::splat(2)) ^ other) & u8x16::splat(0x33);
        Pair {
            low: self ^ (differing << u8x16::splat(2)),
            high: other ^ differing,
        }
    }

    #[inline(always)]
    fn fours(self, other: u8x16) -> Pair<u8x16> {
        let differing = ((self >> u8x16::splat(4)) ^ other) & u8x16::splat(0x0f);
        Pair {
            low: self ^ (differing << u8x16::splat(4)),
            high: other ^ differing,
        }
    }
}

// The same on 32 bytes.
impl Grid for u8x32 {
    ghost cell = { λ v k i. bit_at (slice_index v k) i };

    #[inline(always)]
    fn ones(self, other: u8x32) -> Pair<u8x32> {
        let differing = ((self >> u8x32::splat(1)) ^ other) & u8x32::splat(0x55);
        Pair {
            low: self ^ (differing << u8x32::splat(1)),
            high: other ^ differing,
        }
    }

    #[inline(always)]
    fn twos(self, other: u8x32) -> Pair<u8x32> {
        let differing = ((self >> u8x32::splat(2)) ^ other) & u8x32::splat(0x33);
        Pair {
            low: self ^ (differing << u8x32::splat(2)),
            high: other ^ differing,
        }
    }

    #[inline(always)]
    fn fours(self, other: u8x32) -> Pair<u8x32> {
        let differing = ((self >> u8x32::splat(4)) ^ other) & u8x32::splat(0x0f);
        Pair {
            low: self ^ (differing << u8x32::splat(4)),
            high: other ^ differing,
        }
    }
}

/// Eight words, rows and columns exchanged: bit i of each byte of word q goes to bit q of that byte
/// in word i.
#[inline(always)]
pub fn transposed<W: Grid>(x: &Planes<W>) -> Planes<W>
    ensures { (q k : ℕ) → q < 8 → bit_row W.cell (plane_word result q) k
        ≡ map (λ i. slice_index (bit_row W.cell (plane_word x.now i) k) q) (range_with_len 0 8) }
{
    let ones01 = x.b0.ones(x.b1);
    let ones23 = x.b2.ones(x.b3);
    let ones45 = x.b4.ones(x.b5);
    let ones67 = x.b6.ones(x.b7);
    let twos02 = ones01.low.twos(ones23.low);
    let twos13 = ones01.high.twos(ones23.high);
    let twos46 = ones45.low.twos(ones67.low);
    let twos57 = ones45.high.twos(ones67.high);
    let fours04 = twos02.low.fours(twos46.low);
    let fours15 = twos13.low.fours(twos57.low);
    let fours26 = twos02.high.fours(twos46.high);
    let fours37 = twos13.high.fours(twos57.high);
    Planes {
        b0: fours04.low,
        b1: fours15.low,
        b2: fours26.low,
        b3: fours37.low,
        b4: fours04.high,
        b5: fours15.high,
        b6: fours26.high,
        b7: fours37.high,
    }
}
