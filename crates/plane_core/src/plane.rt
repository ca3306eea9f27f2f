//! A bit plane: one bit of each byte of several blocks.

ghost use Rattle.std.specs.Prelude.{◌≡◌, ℕ, ◌%◌, ◌<◌, bit_and, bit_xor, slice_index};
ghost use Rattle.std.specs.Int.{bit_at};
ghost use Rattle.plane_core.specs.Bits.{bit_is_small};
ghost use Rattle.plane_core.specs.Places.{below, lane, lane_bit, shifted, wide_bit, wide_lane};

use std::simd::prelude::*;

/// A bit plane: a bit for each of the 16 bytes of each of its blocks.
pub trait Plane: Copy {
    /// The bit of byte j of block b.
    ghost bit: { Self → ℕ → ℕ → ℕ };

    /// The sum, modulo 2, of each two bits.
    fn xor(self, other: Self) -> Self
        ensures { (j b : ℕ) → bit result j b ≡ bit_xor (bit self j b) (bit other j b) };

    /// The product of each two bits.
    fn and(self, other: Self) -> Self
        ensures { (j b : ℕ) → bit result j b ≡ bit_and (bit self j b) (bit other j b) };

    /// Each bit goes where ShiftRows moves its byte.
    fn shifted(self) -> Self
        ensures { (j b : ℕ) → j < 16 → bit result j b ≡ bit self (shifted j) b };

    /// For each byte the bit of the byte below it in its column, around the column's end.
    fn below(self) -> Self
        ensures { (j b : ℕ) → j < 16 → bit result j b ≡ bit self (below 1 j) b };

    /// For each byte the bit of the byte two rows below it.
    fn two_below(self) -> Self
        ensures { (j b : ℕ) → j < 16 → bit result j b ≡ bit self (below 2 j) b };

    /// A bit is 0 or 1.
    ghost is_bit: { (v : Self) (j b : ℕ) → bit v j b < 2 };
}

// Eight blocks: a lane has a byte of each block, where bit b is block b's. The lanes go row by row,
// so the bytes below are four lanes further.
impl Plane for u8x16 {
    ghost bit = { lane_bit };

    #[inline(always)]
    fn xor(self, other: u8x16) -> u8x16 {
        self ^ other
    }

    #[inline(always)]
    fn and(self, other: u8x16) -> u8x16 {
        self & other
    }

    #[inline(always)]
    fn shifted(self) -> u8x16 {
        self.swizzle([0, 1, 2, 3, 5, 6, 7, 4, 10, 11, 8, 9, 15, 12, 13, 14])
    }

    #[inline(always)]
    fn below(self) -> u8x16 {
        self.swizzle([4, 5, 6, 7, 8, 9, 10, 11, 12, 13, 14, 15, 0, 1, 2, 3])
    }

    #[inline(always)]
    fn two_below(self) -> u8x16 {
        self.swizzle([8, 9, 10, 11, 12, 13, 14, 15, 0, 1, 2, 3, 4, 5, 6, 7])
    }

    ghost is_bit = { λ v j b. bit_is_small (slice_index v (lane j)) b };
}

// Sixteen blocks: a half of the lanes has eight of them, as a vector of 16 has.
impl Plane for u8x32 {
    ghost bit = { wide_bit };

    #[inline(always)]
    fn xor(self, other: u8x32) -> u8x32 {
        self ^ other
    }

    #[inline(always)]
    fn and(self, other: u8x32) -> u8x32 {
        self & other
    }

    #[inline(always)]
    fn shifted(self) -> u8x32 {
        self.swizzle([
            0, 1, 2, 3, 5, 6, 7, 4, 10, 11, 8, 9, 15, 12, 13, 14, 16, 17, 18, 19, 21, 22, 23, 20,
            26, 27, 24, 25, 31, 28, 29, 30,
        ])
    }

    #[inline(always)]
    fn below(self) -> u8x32 {
        self.swizzle([
            4, 5, 6, 7, 8, 9, 10, 11, 12, 13, 14, 15, 0, 1, 2, 3, 20, 21, 22, 23, 24, 25, 26, 27,
            28, 29, 30, 31, 16, 17, 18, 19,
        ])
    }

    #[inline(always)]
    fn two_below(self) -> u8x32 {
        self.swizzle([
            8, 9, 10, 11, 12, 13, 14, 15, 0, 1, 2, 3, 4, 5, 6, 7, 24, 25, 26, 27, 28, 29, 30, 31,
            16, 17, 18, 19, 20, 21, 22, 23,
        ])
    }

    ghost is_bit = { λ v j b. bit_is_small (slice_index v (wide_lane j b)) (b % 8) };
}
