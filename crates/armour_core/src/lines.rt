//! Lines of base64, twelve bytes or 16 characters at a time.

ghost use Rattle.std.specs.Prelude.{◌≡◌, ◌+◌, ◌*◌, ◌%◌, ◌≤◌, length, take};
ghost use Rattle.armour_core.specs.ArmourText.{armour_text};
ghost use Rattle.armour_core.specs.Sextets.{AreGroups, symbols_in};

use crate::vectors::{last_twelve, numbers, packed, sextets, symbol_groups, symbols};
use std::simd::prelude::*;

/// Writes the symbols of the twelve bytes from a place on, behind those of the bytes before it.
#[inline(always)]
fn put_symbols(bytes: &[u8], from: usize, text: &mut [u8], to: usize)
    requires within { from + 16 ≤ length bytes.now }
    requires room { to + 16 ≤ length text.old }
    requires groups { from % 3 ≡ 0 }
    requires front { take to text.old ≡ symbols_in (take from bytes.now) }
    ensures { take (to + 16) text.new ≡ symbols_in (take (from + 12) bytes.now) }
{
    let twelve = u8x16::from_slice(&bytes[from..]);
    symbols(sextets(twelve)).copy_to_slice(&mut text[to..]);
}

/// Writes the symbols of the last twelve of 57 bytes, behind those of the first 45.
#[inline(always)]
fn put_last_symbols(bytes: &[u8], text: &mut [u8])
    requires full { length bytes.now ≡ 57 }
    requires room { 76 ≤ length text.old }
    requires front { take 60 text.old ≡ symbols_in (take 45 bytes.now) }
    ensures { take 76 text.new ≡ symbols_in bytes.now }
{
    let twelve = last_twelve(u8x16::from_slice(&bytes[41..]));
    symbols(sextets(twelve)).copy_to_slice(&mut text[60..]);
}

/// Writes the 76 symbols of the 57 bytes of a line.
#[inline(always)]
pub(crate) fn put_line_symbols(bytes: &[u8], text: &mut [u8])
    requires full { length bytes.now ≡ 57 }
    requires room { 76 ≤ length text.old }
    ensures { take 76 text.new ≡ symbols_in bytes.now }
{
    put_symbols(bytes, 0, text, 0);
    put_symbols(bytes, 12, text, 16);
    put_symbols(bytes, 24, text, 32);
    put_symbols(bytes, 36, text, 48);
    put_last_symbols(bytes, text);
}

/// Writes the bytes of the four groups of characters behind the first ones, whose bytes stand at
/// the front. Answers how many groups are read then: all before the first character that is no
/// symbol. Four bytes behind these twelve are written too.
#[inline(always)]
fn put_bytes(characters: &[u8], done: usize, bytes: &mut [u8]) -> usize
    requires within { 4 * done + 16 ≤ length characters.now }
    requires room { 3 * done + 16 ≤ length bytes.old }
    requires front { AreGroups done characters.now bytes.old }
    ensures groups { AreGroups result characters.now bytes.new }
    ensures few { result ≤ done + 4 }
{
    let sixteen = u8x16::from_slice(&characters[4 * done..]);
    let numbers = numbers(sixteen);
    packed(numbers).copy_to_slice(&mut bytes[3 * done..]);
    done + symbol_groups(sixteen, numbers)
}

/// The same where there is room for twelve bytes alone.
#[inline(always)]
fn put_twelve(characters: &[u8], done: usize, bytes: &mut [u8]) -> usize
    requires within { 4 * done + 16 ≤ length characters.now }
    requires room { 3 * done + 12 ≤ length bytes.old }
    requires front { AreGroups done characters.now bytes.old }
    ensures groups { AreGroups result characters.now bytes.new }
    ensures few { result ≤ done + 4 }
{
    let sixteen = u8x16::from_slice(&characters[4 * done..]);
    let numbers = numbers(sixteen);
    let twelve = packed(numbers).to_array();
    bytes[3 * done..3 * done + 12].copy_from_slice(&twelve[..12]);
    done + symbol_groups(sixteen, numbers)
}

/// Writes the bytes of the next 76 characters, or of the groups before the first of them that is
/// no symbol, and answers how many groups these are.
#[inline(always)]
fn put_line_bytes(characters: &[u8], bytes: &mut [u8]) -> usize
    requires within { 76 ≤ length characters.now }
    requires room { 57 ≤ length bytes.old }
    ensures groups { AreGroups result characters.now bytes.new }
    ensures few { result ≤ 19 }
{
    let first = put_bytes(characters, 0, bytes);
    if first < 4 {
        return first;
    }
    let second = put_bytes(characters, 4, bytes);
    if second < 8 {
        return second;
    }
    let third = put_bytes(characters, 8, bytes);
    if third < 12 {
        return third;
    }
    let fourth = put_bytes(characters, 12, bytes);
    if fourth < 16 {
        return fourth;
    }
    // The last four groups, of which one was read before.
    put_twelve(characters, 15, bytes)
}

/// Writes the bytes of the next groups of characters, at most 19, up to the first character that
/// is no symbol, and answers how many groups these are. None are read where fewer than 16
/// characters are left, or there is room for fewer than twelve bytes.
#[inline(always)]
pub(crate) fn put_groups(characters: &[u8], bytes: &mut [u8]) -> usize
    ensures groups { AreGroups result characters.now bytes.new }
    ensures within { 4 * result ≤ length characters.now }
    ensures room { 3 * result ≤ length bytes.old }
{
    if characters.len() >= 76 && bytes.len() >= 57 {
        return put_line_bytes(characters, bytes);
    }
    if characters.len() >= 16 && bytes.len() >= 12 {
        return put_twelve(characters, 0, bytes);
    }
    0
}

/// Writes the text of a line of 57 bytes: 76 symbols and a line feed.
#[inline(always)]
pub(crate) fn put_line(bytes: &[u8], text: &mut [u8])
    requires full { length bytes.now ≡ 57 }
    requires room { 77 ≤ length text.old }
    ensures { take 77 text.new ≡ armour_text bytes.now }
{
    put_line_symbols(bytes, text);
    text[76] = b'\n';
}
