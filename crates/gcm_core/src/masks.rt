//! Masks added to a text, which GCTR of SP 800-38D does (section 6.5).

ghost use Rattle.std.specs.Prelude.{◌≡◌, ◌+◌, ◌*◌, ◌<◌, ◌≤◌, ℕ, length, slice_index, bit_xor};
ghost use Rattle.gcm_core.specs.Masks.{masked};

use std::simd::prelude::*;

/// Adds the first `n` bytes of a mask to those of the text from `at` on.
#[inline(always)]
pub fn add_mask(text: &mut [u8], at: usize, n: usize, mask: &[u8; 16])
    requires inside { at + n ≤ length text.old }
    requires one { n ≤ 16 }
    ensures before { (i : ℕ) → i < at → slice_index text.new i ≡ slice_index text.old i }
    ensures there { (i : ℕ) → i < n
        → slice_index text.new (at + i) ≡ bit_xor (slice_index text.old (at + i))
        (slice_index mask.now i) }
    ensures after { (i : ℕ) → at + n ≤ i → slice_index text.new i ≡ slice_index text.old i }
{
    'bytes: for i in 0..n {
        text[at + i] ^= mask[i];
    }
}

/// Adds a mask to the 16 bytes of the text from `at` on, all at once.
#[inline(always)]
fn add_whole_mask(text: &mut [u8], at: usize, mask: &[u8; 16])
    requires { at + 16 ≤ length text.old }
    ensures before { (i : ℕ) → i < at → slice_index text.new i ≡ slice_index text.old i }
    ensures there { (i : ℕ) → i < 16
        → slice_index text.new (at + i) ≡ bit_xor (slice_index text.old (at + i))
        (slice_index mask.now i) }
    ensures after { (i : ℕ) → at + 16 ≤ i → slice_index text.new i ≡ slice_index text.old i }
{
    let block = u8x16::from_slice(&text[at..at + 16]) ^ u8x16::from_array(*mask);
    block.copy_to_slice(&mut text[at..at + 16]);
}

/// Adds masks in a row to the text, as far as it reaches.
#[inline(always)]
pub fn add_masks(text: &mut [u8], masks: &[[u8; 16]])
    requires { length text.old ≤ 16 * length masks.now }
    ensures { text.new ≡ masked text.old masks.now }
{
    let whole = text.len() / 16;
    let rest = text.len() % 16;
    'each: for k in 0..whole {
        add_whole_mask(text, 16 * k, &masks[k]);
    }
    if rest == 0 {
        return;
    }
    add_mask(text, 16 * whole, rest, &masks[whole]);
}
