//! Vectors of bytes as vectors of wider numbers, each with its lowest byte first.

ghost use Rattle.std.specs.Prelude.{◌≡◌, ℕ, ◌+◌, ◌*◌, ◌/◌, ◌%◌, ◌^◌, length, map, slice_index};
ghost use Rattle.std.specs.List.{range_with_len};
ghost use Rattle.armour_core.specs.Widths.{four_bytes, two_bytes};

use std::simd::prelude::*;

/// Numbers of two bytes each.
#[inline(always)]
pub(crate) fn words(bytes: u8x16) -> u16x8
    requires { length bytes ≡ 16 }
    ensures { result ≡ map (two_bytes bytes) (range_with_len 0 8) }
{
    u16x8::from_le_bytes(bytes)
}

/// The bytes of numbers of two bytes each.
#[inline(always)]
pub(crate) fn word_bytes(words: u16x8) -> u8x16
    requires { length words ≡ 8 }
    ensures { result ≡ map (λ k. slice_index words (k / 2) / 256 ^ (k % 2) % 256)
        (range_with_len 0 16) }
{
    words.to_le_bytes()
}

/// Numbers of four bytes each.
#[inline(always)]
pub(crate) fn double_words(bytes: u8x16) -> u32x4
    requires { length bytes ≡ 16 }
    ensures { result ≡ map (four_bytes bytes) (range_with_len 0 4) }
{
    u32x4::from_le_bytes(bytes)
}

/// The bytes of numbers of four bytes each.
#[inline(always)]
pub(crate) fn double_word_bytes(words: u32x4) -> u8x16
    requires { length words ≡ 4 }
    ensures { result ≡ map (λ k. slice_index words (k / 4) / 256 ^ (k % 4) % 256)
        (range_with_len 0 16) }
{
    words.to_le_bytes()
}
