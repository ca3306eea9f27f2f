//! What the last byte of a count adds to the state after round 1.
//!
//! Counter blocks of a page differ in byte 15 alone, which ShiftRows moves into column 0. So after
//! round 1 they differ in that column alone, and by what depends on the byte and the key, and not
//! on the page. It is computed here once for a key, for all 256 bytes: a table of 1,024 bytes.
//!
//! A group is eight counts in a row, a block each. The groups of a page begin at the counts 2, 10,
//! .., 242, as those of a text in Galois/Counter Mode do. The table's last group, from 250 on, ends
//! with the bytes 0 and 1, so that all 256 are there; as counts they are the next page's, and no
//! group of a page.

ghost use Rattle.std.specs.Prelude.{◌≡◌, ℕ, ◌+◌, ◌*◌, ◌/◌, ◌%◌, ◌^◌, ◌<◌, map, bit_xor};
ghost use Rattle.std.specs.List.{range_with_len};
ghost use Rattle.plane_core.specs.Bits.{byte_of};
ghost use Rattle.plane_core.specs.Places.{lane, lane_bit};
ghost use Rattle.aes_core.specs.Counters.{HasColumns, column_byte, image, lane_byte};

use crate::lanes::{NONE, all_moved};
use plane_core::circuit;
use plane_core::eight::loaded;
use plane_core::planes::{Planes, doubled, sum};
use std::simd::prelude::*;

// ---- images of the last bytes

/// The last bytes of 16 counts, each eight more than the one before it, with the key's byte added:
/// byte j is that of the count whose number is the lane of byte j.
#[inline(always)]
fn last_bytes(first: u8, key: u8) -> [u8; 16]
    ensures { result ≡ map (λ j. bit_xor ((first + 8 * lane j) % 2 ^ 8) key) (range_with_len 0 16) }
{
    [
        first ^ key,
        first.wrapping_add(32) ^ key,
        first.wrapping_add(64) ^ key,
        first.wrapping_add(96) ^ key,
        first.wrapping_add(8) ^ key,
        first.wrapping_add(40) ^ key,
        first.wrapping_add(72) ^ key,
        first.wrapping_add(104) ^ key,
        first.wrapping_add(16) ^ key,
        first.wrapping_add(48) ^ key,
        first.wrapping_add(80) ^ key,
        first.wrapping_add(112) ^ key,
        first.wrapping_add(24) ^ key,
        first.wrapping_add(56) ^ key,
        first.wrapping_add(88) ^ key,
        first.wrapping_add(120) ^ key,
    ]
}

/// The images of the last bytes of 16 groups, from the group whose first count has the last byte
/// `first` on: a group in each lane.
#[inline(always)]
fn images(first: u8, key: u8) -> Planes<u8x16>
    ensures { (p b : ℕ) → p < 16 → b < 8
        → lane_byte result p b ≡ image key ((first + b + 8 * p) % 2 ^ 8) }
{
    circuit::sub_bytes(&loaded(&[
        last_bytes(first, key),
        last_bytes(first.wrapping_add(1), key),
        last_bytes(first.wrapping_add(2), key),
        last_bytes(first.wrapping_add(3), key),
        last_bytes(first.wrapping_add(4), key),
        last_bytes(first.wrapping_add(5), key),
        last_bytes(first.wrapping_add(6), key),
        last_bytes(first.wrapping_add(7), key),
    ]))
}

// ---- the table

/// Of the lanes of 16 groups, those of quad q for the column bytes that have the image once, in
/// rows 0 to 2.
#[rattlefmt::skip]
const ONCE: [[u8; 16]; 4] = [
    [0, 1, 2, 3, 0, 1, 2, 3, 0, 1, 2, 3, NONE, NONE, NONE, NONE],
    [4, 5, 6, 7, 4, 5, 6, 7, 4, 5, 6, 7, NONE, NONE, NONE, NONE],
    [8, 9, 10, 11, 8, 9, 10, 11, 8, 9, 10, 11, NONE, NONE, NONE, NONE],
    [12, 13, 14, 15, 12, 13, 14, 15, 12, 13, 14, 15, NONE, NONE, NONE, NONE],
];

/// The same for those that have it twice, in rows 2 and 3.
#[rattlefmt::skip]
const TWICE: [[u8; 16]; 4] = [
    [NONE, NONE, NONE, NONE, NONE, NONE, NONE, NONE, 0, 1, 2, 3, 0, 1, 2, 3],
    [NONE, NONE, NONE, NONE, NONE, NONE, NONE, NONE, 4, 5, 6, 7, 4, 5, 6, 7],
    [NONE, NONE, NONE, NONE, NONE, NONE, NONE, NONE, 8, 9, 10, 11, 8, 9, 10, 11],
    [NONE, NONE, NONE, NONE, NONE, NONE, NONE, NONE, 12, 13, 14, 15, 12, 13, 14, 15],
];

/// The columns of the four groups of a quad side by side, from the images of 16 groups: in row 3
/// twice the image, in row 2 three times the image, and above them the image itself.
#[inline(always)]
fn quad(x: &Planes<u8x16>, q: usize) -> Planes<u8x16>
    requires { q < 4 }
    ensures { (j b : ℕ) → j < 16 → byte_of lane_bit result j b
        ≡ column_byte (j % 4) (lane_byte x.now (4 * q + j / 4) b) }
{
    let once = all_moved(x, u8x16::from_array(ONCE[q]));
    let twice = all_moved(x, u8x16::from_array(TWICE[q]));
    sum(&once, &doubled(&twice))
}

/// The table of a key whose first round key has this byte 15.
pub fn table(key: u8) -> [Planes<u8x16>; 8]
    ensures { HasColumns result key }
{
    let low = images(2, key);
    let high = images(130, key);
    [
        quad(&low, 0),
        quad(&low, 1),
        quad(&low, 2),
        quad(&low, 3),
        quad(&high, 0),
        quad(&high, 1),
        quad(&high, 2),
        quad(&high, 3),
    ]
}
