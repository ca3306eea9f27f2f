//! Round 2 of the counter blocks of a page.
//!
//! After round 1 the blocks of a page differ in column 0 alone. So SubBytes has to be done again
//! for that column only, and the four groups of a quad have theirs side by side in planes: it is
//! done for 32 blocks at once. ShiftRows then moves the column's bytes to four columns, where
//! MixColumns adds each to all rows.

ghost use Rattle.std.specs.Prelude.{◌≡◌, ℕ, ◌+◌, ◌%◌, ◌^◌, ◌<◌, List, map};
ghost use Rattle.cipher_spec.specs.Aes.{at};
ghost use Rattle.plane_core.specs.Bits.{block};
ghost use Rattle.plane_core.specs.Places.{lane_bit};
ghost use Rattle.aes_core.specs.Counters.{HasColumns, four_times, quad_images, spread};

use crate::lanes::{NONE, all_moved};
use plane_core::circuit;
use plane_core::planes::{Planes, doubled, sum};
use std::simd::prelude::*;

/// Column 0 of a state four times side by side.
#[inline(always)]
pub fn four_times(s: [u8; 16]) -> [u8; 16]
    ensures { result ≡ four_times s }
{
    [
        s[0], s[1], s[2], s[3], s[0], s[1], s[2], s[3], s[0], s[1], s[2], s[3], s[0], s[1], s[2],
        s[3],
    ]
}

/// The S-box's images of the column that varies, for the four groups of a quad, from the page's
/// column 0 and the table of what the last bytes add to it.
#[inline(always)]
pub fn quad_images(table: &[Planes<u8x16>; 8], column: &Planes<u8x16>, q: usize) -> Planes<u8x16>
    requires { q < 8 }
    ensures { (k b : ℕ) (s : List ℕ) → HasColumns table.now k → b < 8
        → block lane_bit column.now b ≡ four_times s
        → block lane_bit result b ≡ quad_images k s q b }
{
    circuit::sub_bytes(&sum(column, &table[q]))
}

/// Of the lanes of a quad's images, those of group 0 for the bytes that have an image once: all but
/// those in its own row.
const ONCE: [u8; 16] = [
    NONE, 12, 8, 4, 0, 12, 8, NONE, 0, 12, NONE, 4, 0, NONE, 8, 4,
];

/// The same for those that have it twice, in its own row and the one above it.
const TWICE: [u8; 16] = [
    0, NONE, NONE, 4, NONE, NONE, 8, 4, NONE, 12, 8, NONE, 0, 12, NONE, NONE,
];

/// The lanes of group `t`, from those of group 0.
#[inline(always)]
fn of_group(from: u8x16, t: u8) -> u8x16
    ensures { result ≡ map (λ n. (n + t) % 2 ^ 8) from }
{
    from + u8x16::splat(t)
}

/// What the images of group `t` of a quad add to the state after round 2.
#[inline(always)]
pub fn spread(images: &Planes<u8x16>, t: u8) -> Planes<u8x16>
    requires { t < 4 }
    ensures { (b : ℕ) → block lane_bit result b
        ≡ spread (λ r. at (block lane_bit images.now b) r t) }
{
    let once = all_moved(images, of_group(u8x16::from_array(ONCE), t));
    let twice = all_moved(images, of_group(u8x16::from_array(TWICE), t));
    sum(&once, &doubled(&twice))
}
