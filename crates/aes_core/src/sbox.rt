//! The S-box of SubBytes and SubWord (FIPS 197, 5.1.1) by shuffles, on 16 bytes at once.
//!
//! A byte is two groups of four bits. Each step looks up such a group of all 16 bytes in a table of
//! 16 bytes, by one shuffle: so no address depends on what is looked up. The steps and the tables
//! are those of Hamburg's "Accelerating AES with Vector Permute Instructions" (2009). Bytes come in
//! another basis, in which their groups are elements of the field of 16 elements, and are divided
//! there; a quotient by 0 is 128 or more, and what is looked up at it is 0. The last tables have
//! the affine transformation in them, but for its constant, which is added with the round keys.
//! Their images are in the other basis, too, so that a state stays there from round to round.

ghost use Rattle.std.specs.Prelude.{◌≡◌, ◌/◌, ◌%◌, ◌<◌, ℕ, bit_xor, length, slice_index};
ghost use Rattle.cipher_spec.specs.Aes.{sub_byte};
ghost use Rattle.cipher_spec.specs.Field.{field_product};
ghost use Rattle.aes_core.specs.Groups.{AreEntries, table_entry, first_quotient};
ghost use Rattle.aes_core.specs.Groups.{out_of_basis, second_quotient};

use std::simd::prelude::*;

/// The other basis: what the lower four bits of a byte come to.
const FROM_LOWER: [u8; 16] = [
    0x00, 0x70, 0x2a, 0x5a, 0x98, 0xe8, 0xb2, 0xc2, 0x08, 0x78, 0x22, 0x52, 0x90, 0xe0, 0xba, 0xca,
];

/// What its upper four bits come to.
const FROM_UPPER: [u8; 16] = [
    0x00, 0x4d, 0x7c, 0x31, 0x7d, 0x30, 0x01, 0x4c, 0x81, 0xcc, 0xfd, 0xb0, 0xfc, 0xb1, 0x80, 0xcd,
];

/// The way back: what the lower four bits of a byte in the other basis come to.
const BACK_FROM_LOWER: [u8; 16] = [
    0x00, 0x60, 0xb6, 0xd6, 0x29, 0x49, 0x9f, 0xff, 0x08, 0x68, 0xbe, 0xde, 0x21, 0x41, 0x97, 0xf7,
];

/// What its upper four bits come to.
const BACK_FROM_UPPER: [u8; 16] = [
    0x00, 0xec, 0xbc, 0x50, 0x51, 0xbd, 0xed, 0x01, 0xe0, 0x0c, 0x5c, 0xb0, 0xb1, 0x5d, 0x0d, 0xe1,
];

/// The inverses in the field of 16 elements.
const INVERSES: [u8; 16] = [
    0x80, 0x01, 0x08, 0x0d, 0x0f, 0x06, 0x05, 0x0e, 0x02, 0x0c, 0x0b, 0x0a, 0x09, 0x03, 0x07, 0x04,
];

/// The quotients of one number of that field and each of the others.
const QUOTIENTS: [u8; 16] = [
    0x80, 0x07, 0x0b, 0x0f, 0x06, 0x0a, 0x04, 0x01, 0x09, 0x08, 0x05, 0x02, 0x0c, 0x0e, 0x0d, 0x03,
];

/// What the first of a byte's two quotients adds to its image.
const FROM_FIRST: [u8; 16] = [
    0x00, 0xc7, 0xbd, 0x6f, 0x17, 0x6d, 0xd2, 0xd0, 0x78, 0xa8, 0x02, 0xc5, 0x7a, 0xbf, 0xaa, 0x15,
];

/// What the second adds.
const FROM_SECOND: [u8; 16] = [
    0x00, 0x6a, 0xbb, 0x5f, 0xa5, 0x74, 0xe4, 0xcf, 0xfa, 0x35, 0x2b, 0x41, 0xd1, 0x90, 0x1e, 0x8e,
];

/// What the first quotient adds in the other basis.
const ONCE_FROM_FIRST: [u8; 16] = [
    0x00, 0x3e, 0x50, 0xcb, 0x8f, 0xe1, 0x9b, 0xb1, 0x44, 0xf5, 0x2a, 0x14, 0x6e, 0x7a, 0xdf, 0xa5,
];

/// What the second adds there.
const ONCE_FROM_SECOND: [u8; 16] = [
    0x00, 0x23, 0xe2, 0xfa, 0x15, 0xd4, 0x18, 0x36, 0xef, 0xd9, 0x2e, 0x0d, 0xc1, 0xcc, 0xf7, 0x3b,
];

/// Twice what the first quotient adds, in the other basis.
const TWICE_FROM_FIRST: [u8; 16] = [
    0x00, 0x24, 0x71, 0x0b, 0xc6, 0x93, 0x7a, 0xe2, 0xcd, 0x2f, 0x98, 0xbc, 0x55, 0xe9, 0xb7, 0x5e,
];

/// Twice what the second adds.
const TWICE_FROM_SECOND: [u8; 16] = [
    0x00, 0x29, 0xe1, 0x0a, 0x40, 0x88, 0xeb, 0x69, 0x4a, 0x23, 0x82, 0xab, 0xc8, 0x63, 0xa1, 0xc2,
];

/// The upper four bits of each byte.
#[inline(always)]
fn upper(x: u8x16) -> u8x16
    ensures { (p : ℕ) → p < 16 → slice_index result p ≡ slice_index x p / 16 }
{
    x >> u8x16::splat(4)
}

/// The lower four bits of each byte.
#[inline(always)]
fn lower(x: u8x16) -> u8x16
    ensures { (p : ℕ) → p < 16 → slice_index result p ≡ slice_index x p % 16 }
{
    x & u8x16::splat(15)
}

/// The sum of each two bytes.
#[inline(always)]
pub fn sum(x: u8x16, y: u8x16) -> u8x16
    ensures lanes { (p : ℕ) → p < 16 → slice_index result p
        ≡ bit_xor (slice_index x p) (slice_index y p) }
    ensures long { length result ≡ 16 }
{
    x ^ y
}

/// The entry of a table at the number in each lane.
#[inline(always)]
fn looked(table: u8x16, at: u8x16) -> u8x16
    requires { AreEntries at }
    ensures { (p : ℕ) → p < 16 → slice_index result p ≡ table_entry table (slice_index at p) }
{
    table.swizzle_dyn(at)
}

/// Each byte in the other basis.
#[inline(always)]
pub fn in_basis(x: u8x16) -> u8x16
    ensures { (p : ℕ) → p < 16 → out_of_basis (slice_index result p) ≡ slice_index x p }
{
    let low = looked(u8x16::from_array(FROM_LOWER), lower(x));
    let high = looked(u8x16::from_array(FROM_UPPER), upper(x));
    sum(low, high)
}

/// Each byte of the other basis in that of the standard.
#[inline(always)]
pub fn out_of_basis(x: u8x16) -> u8x16
    ensures lanes { (p : ℕ) → p < 16 → slice_index result p ≡ out_of_basis (slice_index x p) }
    ensures long { length result ≡ 16 }
{
    let low = looked(u8x16::from_array(BACK_FROM_LOWER), lower(x));
    let high = looked(u8x16::from_array(BACK_FROM_UPPER), upper(x));
    sum(low, high)
}

/// The two quotients of which a byte's image is made.
#[derive(Clone, Copy)]
struct Quotients {
    first: u8x16,
    second: u8x16,
}

/// The quotients of bytes that are in the other basis.
#[inline(always)]
fn divided(x: u8x16) -> Quotients
    ensures first { (p : ℕ) → p < 16 → slice_index result.first p
        ≡ first_quotient (slice_index x p) }
    ensures second { (p : ℕ) → p < 16 → slice_index result.second p
        ≡ second_quotient (slice_index x p) }
{
    let inverses = u8x16::from_array(INVERSES);
    let high = upper(x);
    let low = lower(x);
    let both = sum(high, low);
    let quotient = looked(u8x16::from_array(QUOTIENTS), low);
    let a = sum(looked(inverses, high), quotient);
    let b = sum(looked(inverses, both), quotient);
    Quotients {
        first: sum(looked(inverses, a), both),
        second: sum(looked(inverses, b), high),
    }
}

/// The sum of what tables have for the two quotients.
#[inline(always)]
fn joined(first: u8x16, second: u8x16, q: &Quotients) -> u8x16
    requires first { AreEntries q.now.first }
    requires second { AreEntries q.now.second }
    ensures lanes { (p : ℕ) → p < 16 → slice_index result p
        ≡ bit_xor (table_entry first (slice_index q.now.first p))
        (table_entry second (slice_index q.now.second p)) }
    ensures long { length result ≡ 16 }
{
    sum(looked(first, q.first), looked(second, q.second))
}

/// The S-box but for its constant, of bytes in the other basis. The images are out of it.
#[inline(always)]
pub fn sub_bytes(x: u8x16) -> u8x16
    ensures lanes { (p : ℕ) → p < 16 → slice_index result p
        ≡ bit_xor (sub_byte (out_of_basis (slice_index x p))) 0x63 }
    ensures long { length result ≡ 16 }
{
    joined(
        u8x16::from_array(FROM_FIRST),
        u8x16::from_array(FROM_SECOND),
        &divided(x),
    )
}

/// The S-box's images of 16 bytes but for its constant, and twice these.
#[derive(Clone, Copy)]
pub struct Images {
    pub once: u8x16,
    pub twice: u8x16,
}

/// The S-box but for its constant, and twice that in the field, as MixColumns takes it. All is in
/// the other basis.
#[inline(always)]
pub fn sub_bytes_in_basis(x: u8x16) -> Images
    ensures once { (p : ℕ) → p < 16 → out_of_basis (slice_index result.once p)
        ≡ bit_xor (sub_byte (out_of_basis (slice_index x p))) 0x63 }
    ensures twice { (p : ℕ) → p < 16 → out_of_basis (slice_index result.twice p)
        ≡ field_product 2 (bit_xor (sub_byte (out_of_basis (slice_index x p))) 0x63) }
{
    let q = divided(x);
    Images {
        once: joined(
            u8x16::from_array(ONCE_FROM_FIRST),
            u8x16::from_array(ONCE_FROM_SECOND),
            &q,
        ),
        twice: joined(
            u8x16::from_array(TWICE_FROM_FIRST),
            u8x16::from_array(TWICE_FROM_SECOND),
            &q,
        ),
    }
}
