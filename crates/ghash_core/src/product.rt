//! The product of blocks (SP 800-38D, section 6.3) by planes of one factor.

ghost use Rattle.std.specs.Prelude.{◌≡◌, ◌+◌, ◌*◌, ◌/◌, ◌%◌, ◌^◌, ◌<◌, ℕ, bit_xor, length, not};
ghost use Rattle.std.specs.Prelude.{slice_index};
ghost use Rattle.cipher_spec.specs.Ghash.{times};
ghost use Rattle.ghash_core.specs.Tables.{block_byte, byte_times, settled, IsPlane, IsPlanes};
ghost use Rattle.ghash_core.specs.Tables.{IsPowers};

use crate::planes::{Plane, Planes, put_planes};
use crate::vector::{Numbers, bytes_twice, gathered, next};
use std::simd::prelude::*;

/// The entries that the lower four bits of each byte of v name, in the table of its half.
#[inline(always)]
fn looked(table: u8x32, v: u8x32) -> u8x32
    ensures lanes { (t i : ℕ) → t < 2 → i < 16 → slice_index result (16 * t + i)
        ≡ slice_index table (16 * t + slice_index v (16 * t + i) % 16) }
    ensures long { length result ≡ 32 }
{
    table.swizzle_dyn_within::<16>(v & u8x32::splat(15))
}

/// Two bytes of the product of each byte of x, which each half has.
#[inline(always)]
fn added(plane: &Plane, x: u8x32) -> u8x32
    ensures lanes { (h k : ℕ) → IsPlane plane.now h k → (t i : ℕ) → t < 2 → i < 16
        → slice_index result (16 * t + i)
        ≡ block_byte (byte_times h (slice_index x (16 * t + i))) (8 * t + k) }
    ensures long { length result ≡ 32 }
{
    looked(plane.upper, x >> u8x32::splat(4)) ^ looked(plane.lower, x)
}

/// The product of x and the block h whose planes these are.
#[inline(always)]
pub fn times(x: u128, planes: &Planes) -> u128
    ensures { (h : ℕ) → h < 2 ^ 128 → IsPlanes planes.now h → result ≡ times x h }
{
    let v = bytes_twice(x);
    let none = u64x4::splat(0);
    let mut sums = Numbers {
        high: none,
        low: none,
    };
    'each: for k in 0..8 {
        let p = added(&planes[k], v);
        sums = next(sums.high, sums.low, p);
    }
    gathered(sums.high, sums.low)
}

/// The planes of a block and of its next three powers.
#[derive(Clone, Copy)]
pub struct Powers {
    pub one: Planes,
    pub two: Planes,
    pub three: Planes,
    pub four: Planes,
}

/// Puts the planes of the powers of h in the place of others.
#[inline(never)]
pub fn put_powers(powers: &mut Powers, h: u128)
    ensures { IsPowers powers.new h }
{
    put_planes(&mut powers.one, h);
    let two = times(h, &powers.one);
    put_planes(&mut powers.two, two);
    let three = times(h, &powers.two);
    put_planes(&mut powers.three, three);
    let four = times(h, &powers.three);
    put_planes(&mut powers.four, four);
}

/// The sum of two vectors.
#[inline(always)]
fn sum_of_two(a: u8x32, b: u8x32) -> u8x32
    ensures lanes { (i : ℕ) → i < 32 → slice_index result i
        ≡ bit_xor (slice_index a i) (slice_index b i) }
    ensures long { length result ≡ 32 }
{
    a ^ b
}

/// The sum of the products of x and the square of h, and of y and h itself.
#[inline(always)]
fn times_two(x: u128, y: u128, powers: &Powers) -> u128
    ensures { (h : ℕ) → IsPowers powers.now h → result
        ≡ bit_xor (times x (times h h)) (times y h) }
{
    let u = bytes_twice(x);
    let v = bytes_twice(y);
    let none = u64x4::splat(0);
    let mut sums = Numbers {
        high: none,
        low: none,
    };
    'each: for k in 0..8 {
        let p = sum_of_two(added(&powers.two[k], u), added(&powers.one[k], v));
        sums = next(sums.high, sums.low, p);
    }
    gathered(sums.high, sums.low)
}

/// The hash of h with one more block, which is multiplied later where no block waits for that, and
/// else together with the one that waits.
#[inline(always)]
pub fn taken(hash: u128, waiting: bool, block: u128, powers: &Powers) -> u128
    ensures { (h : ℕ) → IsPowers powers.now h → settled h result (not waiting)
        ≡ times (bit_xor (settled h hash waiting) block) h }
{
    if waiting {
        return times_two(hash, block, powers);
    }
    hash ^ block
}

/// The hash, multiplied by h where a block waits for that.
#[inline(always)]
pub fn settled(hash: u128, waiting: bool, powers: &Powers) -> u128
    ensures { (h : ℕ) → IsPowers powers.now h → result ≡ settled h hash waiting }
{
    if waiting {
        return times(hash, &powers.one);
    }
    hash
}

/// The sum of four vectors.
#[inline(always)]
fn sum_of_four(a: u8x32, b: u8x32, c: u8x32, d: u8x32) -> u8x32
    ensures lanes { (i : ℕ) → i < 32 → slice_index result i
        ≡ bit_xor (bit_xor (bit_xor (slice_index a i) (slice_index b i)) (slice_index c i))
        (slice_index d i) }
    ensures long { length result ≡ 32 }
{
    a ^ b ^ c ^ d
}

/// The sum of the products of w and the fourth power of h, x and the third, y and the square, z and
/// h itself.
#[inline(always)]
pub fn times_four(w: u128, x: u128, y: u128, z: u128, powers: &Powers) -> u128
    ensures { (h : ℕ) → IsPowers powers.now h → result
        ≡ bit_xor (bit_xor (bit_xor (times w (times h (times h (times h h))))
        (times x (times h (times h h)))) (times y (times h h))) (times z h) }
{
    let s = bytes_twice(w);
    let t = bytes_twice(x);
    let u = bytes_twice(y);
    let v = bytes_twice(z);
    let none = u64x4::splat(0);
    let mut sums = Numbers {
        high: none,
        low: none,
    };
    'each: for k in 0..8 {
        let p = sum_of_four(
            added(&powers.four[k], s),
            added(&powers.three[k], t),
            added(&powers.two[k], u),
            added(&powers.one[k], v),
        );
        sums = next(sums.high, sums.low, p);
    }
    gathered(sums.high, sums.low)
}
