//! The tables by which a product of blocks is looked up.
//!
//! A product by one block is a sum over the groups of four bits of the other factor. A table has
//! for each byte of the product what the 16 values of a group add to it, and lies in half a vector:
//! there all bytes of a block look up at once, by a shuffle, so that no address depends on a
//! secret. The other half has the table of the byte eight places further, and the same block looks
//! up in both.

ghost use Rattle.std.specs.Prelude.{◌≡◌, ◌+◌, ◌*◌, ◌<◌, ℕ, length, slice_index};
ghost use Rattle.cipher_spec.specs.Ghash.{half};
ghost use Rattle.ghash_core.specs.Tables.{AreMarks, chosen, marked, IsPlanes};

use crate::vector::{bytes, joined};
use std::simd::prelude::*;

/// For two bytes of a product, one in each half, what the upper four bits of a byte add to it, and
/// what the lower four bits add.
#[derive(Clone, Copy)]
pub struct Plane {
    pub upper: u8x32,
    pub lower: u8x32,
}

/// The planes of the bytes of a product: plane k serves byte k, counted from the last, and byte
/// k + 8.
pub type Planes = [Plane; 8];

/// The bits 11100001 and then 120 zeros: R of the standard.
const REDUCTION: u128 = 0xe100_0000_0000_0000_0000_0000_0000_0000;

/// The block moved one bit to the right, reduced: the step from one V to the next. It takes the
/// same steps whatever the bit that falls out.
#[inline(always)]
fn half(v: u128) -> u128
    ensures { result ≡ half v }
{
    (v >> 1) ^ ((v & 1) * REDUCTION)
}

/// In the lanes whose number has no 8 in it: 128, at which a shuffle looks up nothing but 0.
const WITHOUT_EIGHT: [u8; 16] = [
    128, 128, 128, 128, 128, 128, 128, 128, 0, 0, 0, 0, 0, 0, 0, 0,
];

/// The same of 4.
const WITHOUT_FOUR: [u8; 16] = [
    128, 128, 128, 128, 0, 0, 0, 0, 128, 128, 128, 128, 0, 0, 0, 0,
];

/// The same of 2.
const WITHOUT_TWO: [u8; 16] = [
    128, 128, 0, 0, 128, 128, 0, 0, 128, 128, 0, 0, 128, 128, 0, 0,
];

/// The same of 1.
const WITHOUT_ONE: [u8; 16] = [
    128, 0, 128, 0, 128, 0, 128, 0, 128, 0, 128, 0, 128, 0, 128, 0,
];

/// Byte `k` of a vector, in the lanes that have no 128 in `without`.
#[inline(always)]
fn picked(v: u8x16, k: u8, without: u8x16) -> u8x16
    requires byte { k < 16 }
    requires lanes { AreMarks without }
    ensures lanes { (n : ℕ) → n < 16 → slice_index result n
        ≡ marked (slice_index without n) (slice_index v k) }
    ensures long { length result ≡ 16 }
{
    v.swizzle_dyn(u8x16::splat(k) ^ without)
}

/// The sums of those of four vectors' bytes `k` that the bits of a lane's number name, y by the
/// highest.
#[inline(always)]
fn choices(k: usize, y: u8x16, a: u8x16, b: u8x16, c: u8x16) -> u8x16
    requires { k < 16 }
    ensures { (n : ℕ) → n < 16 → slice_index result n
        ≡ chosen (slice_index y k) (slice_index a k) (slice_index b k) (slice_index c k) n }
{
    let k = k as u8;
    let eight = picked(y, k, u8x16::from_array(WITHOUT_EIGHT));
    let four = picked(a, k, u8x16::from_array(WITHOUT_FOUR));
    let two = picked(b, k, u8x16::from_array(WITHOUT_TWO));
    let one = picked(c, k, u8x16::from_array(WITHOUT_ONE));
    eight ^ four ^ two ^ one
}

/// The same for bytes `k` and `k + 8`, one in each half.
#[inline(always)]
fn both_choices(k: usize, y: u8x16, a: u8x16, b: u8x16, c: u8x16) -> u8x32
    requires { k < 8 }
    ensures { (t n : ℕ) → t < 2 → n < 16 → slice_index result (16 * t + n)
        ≡ chosen (slice_index y (8 * t + k)) (slice_index a (8 * t + k))
        (slice_index b (8 * t + k)) (slice_index c (8 * t + k)) n }
{
    joined(choices(k, y, a, b, c), choices(k + 8, y, a, b, c))
}

/// Puts the planes of h in the place of others.
// What it fills is 512 bytes, of which no copy is to be made: so the function stays one of its own.
#[inline(never)]
pub fn put_planes(planes: &mut Planes, h: u128)
    ensures { IsPlanes planes.new h }
{
    let a = half(h);
    let b = half(a);
    let c = half(b);
    let d = half(c);
    let e = half(d);
    let f = half(e);
    let g = half(f);
    let h0 = bytes(h);
    let h1 = bytes(a);
    let h2 = bytes(b);
    let h3 = bytes(c);
    let h4 = bytes(d);
    let h5 = bytes(e);
    let h6 = bytes(f);
    let h7 = bytes(g);
    'each: for k in 0..8 {
        let upper = both_choices(k, h0, h1, h2, h3);
        let lower = both_choices(k, h4, h5, h6, h7);
        planes[k] = Plane { upper, lower };
    }
}
