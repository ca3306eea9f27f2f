//! Blocks in the processor's vectors, and sums of vectors that are moved by bytes.

ghost use Rattle.std.specs.Prelude.{◌≡◌, [], ◌∷◌, ◌+◌, ◌*◌, ◌/◌, ◌%◌, ◌^◌, ◌<◌, ℕ, bit_xor, length};
ghost use Rattle.std.specs.Prelude.{slice_index};
ghost use Rattle.std.specs.Simd.Lanes.{number_l};
ghost use Rattle.ghash_core.specs.Tables.{block_byte, folded, half_lanes, lane_pair, word};

use std::simd::prelude::*;

/// The 64 bits that a word has.
const LOW: u128 = 0xffff_ffff_ffff_ffff;

/// The two words of a block, the lower first.
#[inline(always)]
fn words(x: u128) -> u64x2
    ensures { result ≡ x % 2 ^ 64 ∷ x / 2 ^ 64 ∷ [] }
{
    u64x2::from_array([(x & LOW) as u64, ((x >> 64) & LOW) as u64])
}

/// The bytes of a block, the last first.
// Its words in a vector are its bytes already, where an array of its bytes would be put together
// one by one.
#[inline(always)]
pub fn bytes(x: u128) -> u8x16
    ensures lanes { (i : ℕ) → i < 16 → slice_index result i ≡ block_byte x i }
    ensures long { length result ≡ 16 }
{
    words(x).to_le_bytes()
}

/// Two vectors as the halves of one, the lower first.
#[inline(always)]
pub fn joined(low: u8x16, high: u8x16) -> u8x32
    ensures low { (i : ℕ) → i < 16 → slice_index result i ≡ slice_index low i }
    ensures high { (i : ℕ) → i < 16 → slice_index result (16 + i) ≡ slice_index high i }
{
    low.shuffle(
        high,
        [
            0, 1, 2, 3, 4, 5, 6, 7, 8, 9, 10, 11, 12, 13, 14, 15, 16, 17, 18, 19, 20, 21, 22, 23,
            24, 25, 26, 27, 28, 29, 30, 31,
        ],
    )
}

/// The bytes of a block, the last first, in each half of a vector.
#[inline(always)]
pub fn bytes_twice(x: u128) -> u8x32
    ensures { (t i : ℕ) → t < 2 → i < 16 → slice_index result (16 * t + i) ≡ block_byte x i }
{
    let v = bytes(x);
    joined(v, v)
}

/// The number of two words, the lower first.
#[inline(always)]
fn number(x: u64x2) -> u128
    ensures { result ≡ slice_index x 1 * 2 ^ 64 + slice_index x 0 }
{
    let words = x.to_array();
    ((words[1] as u128) << 64) | (words[0] as u128)
}

/// Four numbers of 128 bits, one in each lane: its upper and its lower 64 bits.
#[derive(Clone, Copy)]
pub struct Numbers {
    pub high: u64x4,
    pub low: u64x4,
}

/// What falls out of the upper words comes into the lower ones, a byte further.
#[inline(always)]
fn lower(high: u64x4, low: u64x4) -> u64x4
    ensures { (l : ℕ) → l < 4 → slice_index result l
        ≡ bit_xor (slice_index low l / 2 ^ 8) (slice_index high l * 2 ^ 56 % 2 ^ 64) }
{
    (low >> u64x4::splat(8)) ^ (high << u64x4::splat(56))
}

/// The upper words a byte further, and a plane added, which has two words in each half.
#[inline(always)]
fn upper(high: u64x4, plane: u8x32) -> u64x4
    ensures { (t l : ℕ) → t < 2 → l < 2 → slice_index result (2 * t + l)
        ≡ bit_xor (slice_index high (2 * t + l) / 2 ^ 8)
        (word (number_l 256 (half_lanes plane t)) l) }
{
    (high >> u64x4::splat(8)) ^ u64x4::from_le_bytes(plane)
}

/// Four numbers a byte further, and a plane added to their upper words.
#[inline(always)]
pub fn next(high: u64x4, low: u64x4, plane: u8x32) -> Numbers
    ensures { (t l : ℕ) → t < 2 → l < 2 → lane_pair result.high result.low (2 * t + l)
        ≡ bit_xor (lane_pair high low (2 * t + l) / 2 ^ 8)
        (word (number_l 256 (half_lanes plane t)) l * 2 ^ 64) }
{
    Numbers {
        high: upper(high, plane),
        low: lower(high, low),
    }
}

/// The sum of four numbers, each 64 bits above the one before it, but the third on top of the
/// second, as a block.
#[inline(always)]
fn folded(a_high: u64x2, a_low: u64x2, b_high: u64x2, b_low: u64x2) -> u128
    ensures { result
        ≡ folded (bit_xor (bit_xor (lane_pair a_high a_low 0) (lane_pair a_high a_low 1 * 2 ^ 64))
        (bit_xor (lane_pair b_high b_low 0 * 2 ^ 64) (lane_pair b_high b_low 1 * 2 ^ 128))) }
{
    let middle = number(a_high ^ b_low);
    let upper = number(b_high) ^ (middle >> 64);
    let lower = number(a_low) ^ (middle << 64);
    upper ^ lower ^ (lower >> 1) ^ (lower >> 2) ^ (lower >> 7)
}

/// The lower two of four words.
#[inline(always)]
fn lower_words(v: u64x4) -> u64x2
    ensures { (l : ℕ) → l < 2 → slice_index result l ≡ slice_index v l }
{
    v.extract::<0, 2>()
}

/// The upper two.
#[inline(always)]
fn upper_words(v: u64x4) -> u64x2
    ensures { (l : ℕ) → l < 2 → slice_index result l ≡ slice_index v (2 + l) }
{
    v.extract::<2, 2>()
}

/// The sum of four numbers in the lanes of vectors, as a block.
#[inline(always)]
pub fn gathered(high: u64x4, low: u64x4) -> u128
    ensures { result ≡ folded (bit_xor (bit_xor (lane_pair high low 0)
        (lane_pair high low 1 * 2 ^ 64))
        (bit_xor (lane_pair high low 2 * 2 ^ 64) (lane_pair high low 3 * 2 ^ 128))) }
{
    folded(
        lower_words(high),
        lower_words(low),
        upper_words(high),
        upper_words(low),
    )
}
