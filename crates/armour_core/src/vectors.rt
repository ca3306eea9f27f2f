//! Numbers of six bits in vectors.

ghost use Rattle.std.specs.Prelude.{◌≡◌, ℕ, ◌-◌, ◌*◌, ◌/◌, ◌<◌, ◌≤◌, map, length, take, drop};
ghost use Rattle.std.specs.Prelude.{slice_index};
ghost use Rattle.armour_core.specs.Sextets.{sextets_of, symbols_of};
ghost use lib.Count.{count_trailing_zeros};

use crate::widths::{double_word_bytes, double_words, word_bytes, words};
use std::simd::prelude::*;

/// What makes a number of six bits its symbol: for those up to 51, and then for each from 52 on.
const OFFSETS: [u8; 16] = [
    71, 252, 252, 252, 252, 252, 252, 252, 252, 252, 252, 237, 240, 0, 0, 0,
];

/// What makes a symbol its number, by its class.
const SHIFTS: [u8; 16] = [0, 16, 19, 4, 191, 191, 185, 185, 0, 0, 0, 0, 0, 0, 0, 0];

/// The lanes of a table at these places.
#[inline(always)]
fn looked_up(table: u8x16, places: u8x16) -> u8x16
    requires long { length places ≡ 16 }
    requires small { (j : ℕ) → slice_index places j < 16 }
    ensures { result ≡ map (λ k. slice_index table k) places }
{
    table.swizzle_dyn(places)
}

/// The place of the offset of each number below 64.
#[inline(always)]
fn offset_places(numbers: u8x16) -> u8x16
    requires long { length numbers ≡ 16 }
    requires small { (j : ℕ) → slice_index numbers j < 64 }
    ensures { result ≡ map (λ n. n - 51) numbers }
{
    numbers.saturating_sub(u8x16::splat(51))
}

/// The symbols of 16 numbers below 64.
#[inline(always)]
pub(crate) fn symbols(numbers: u8x16) -> u8x16
    requires long { length numbers ≡ 16 }
    requires small { (j : ℕ) → slice_index numbers j < 64 }
    ensures { result ≡ symbols_of numbers }
{
    let offsets = looked_up(u8x16::from_array(OFFSETS), offset_places(numbers));
    // Upper-case letters stand six further down than lower-case ones.
    let upper = numbers
        .simd_lt(u8x16::splat(26))
        .select(u8x16::splat(250), u8x16::splat(0));
    offsets + numbers + upper
}

/// The numbers of six bits that the first twelve of 16 bytes are.
#[inline(always)]
pub(crate) fn sextets(bytes: u8x16) -> u8x16
    requires long { length bytes ≡ 16 }
    ensures numbers { result ≡ sextets_of (take 12 bytes) }
    ensures long { length result ≡ 16 }
    ensures small { (j : ℕ) → slice_index result j < 64 }
{
    // Each two numbers that stand in two bytes next to each other, the second of these first.
    let pairs = words(bytes.swizzle([1, 0, 2, 1, 4, 3, 5, 4, 7, 6, 8, 7, 10, 9, 11, 10]));
    let six = u16x8::splat(10);
    let first = (pairs << u16x8::from_array([0, 4, 0, 4, 0, 4, 0, 4])) >> six;
    let second = (pairs << u16x8::from_array([6, 10, 6, 10, 6, 10, 6, 10])) >> six;
    word_bytes(first + (second << u16x8::splat(8)))
}

/// The last twelve of 16 bytes, at the front.
#[inline(always)]
pub(crate) fn last_twelve(bytes: u8x16) -> u8x16
    requires { length bytes ≡ 16 }
    ensures twelve { take 12 result ≡ drop 4 bytes }
    ensures long { length result ≡ 16 }
{
    bytes.swizzle([4, 5, 6, 7, 8, 9, 10, 11, 12, 13, 14, 15, 0, 1, 2, 3])
}

/// The class of each character: the symbols of a class are as far from their numbers.
#[inline(always)]
fn classes(characters: u8x16) -> u8x16
    requires long { length characters ≡ 16 }
    ensures long { length result ≡ 16 }
    ensures small { (j : ℕ) → slice_index result j < 16 }
{
    // A slash stands sixteen places from its number, and a plus nineteen.
    let slash = characters
        .simd_eq(u8x16::splat(b'/'))
        .select(u8x16::splat(255), u8x16::splat(0));
    (characters >> u8x16::splat(4)) + slash
}

/// A number below 64 for each character: its own, where it is one of the alphabet.
#[inline(always)]
pub(crate) fn numbers(characters: u8x16) -> u8x16
    requires long { length characters ≡ 16 }
    ensures long { length result ≡ 16 }
    ensures small { (j : ℕ) → slice_index result j < 64 }
{
    let shifts = looked_up(u8x16::from_array(SHIFTS), classes(characters));
    (shifts + characters) & u8x16::splat(63)
}

/// How many groups of four of these characters, from the first on, are the symbols of these
/// numbers: those before the first character that isn't.
#[inline(always)]
pub(crate) fn symbol_groups(characters: u8x16, numbers: u8x16) -> usize
    requires sixteen { length characters ≡ 16 }
    requires long { length numbers ≡ 16 }
    requires small { (j : ℕ) → slice_index numbers j < 64 }
    ensures same { take (4 * result) (symbols_of numbers) ≡ take (4 * result) characters }
    ensures few { result ≤ 4 }
{
    let others = symbols(numbers).simd_ne(characters).to_bitmask();
    if others == 0 {
        return 4;
    }
    groups_before(others)
}

/// How many groups of four lanes come before the first of these. It is no part of its caller, so
/// that where all lanes are symbols the next ones need not wait for this number.
#[inline(never)]
fn groups_before(lanes: u64) -> usize
    ensures { result ≡ count_trailing_zeros 64 lanes / 4 }
{
    lanes.trailing_zeros() as usize / 4
}

/// The twelve bytes of 16 numbers below 64, and four more.
#[inline(always)]
pub(crate) fn packed(numbers: u8x16) -> u8x16
    requires long { length numbers ≡ 16 }
    requires small { (j : ℕ) → slice_index numbers j < 64 }
    ensures numbers { sextets_of (take 12 result) ≡ numbers }
    ensures long { length result ≡ 16 }
{
    let pairs = words(numbers);
    // Two numbers are one of twelve bits, and two of these are three bytes.
    let twelves = ((pairs << u16x8::splat(8)) >> u16x8::splat(2)) + (pairs >> u16x8::splat(8));
    let halves = double_words(word_bytes(twelves));
    let whole = ((halves << u32x4::splat(16)) >> u32x4::splat(4)) + (halves >> u32x4::splat(16));
    double_word_bytes(whole).swizzle([2, 1, 0, 6, 5, 4, 10, 9, 8, 14, 13, 12, 3, 7, 11, 15])
}
